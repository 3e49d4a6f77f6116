// The headers of fields and containers that TBinaryOutputProtocol writes, put into a lent buffer at a cursor: the moved
// cursor, or the refusal with the buffer as it was.
#![tactic(auto)]

pub mod container;
pub mod field;
