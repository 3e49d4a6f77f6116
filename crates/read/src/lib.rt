// The headers of the binary protocol, read: each call takes the bytes and a cursor, and answers what was read with the
// moved cursor, or the refusal.
#![tactic(auto)]

pub mod container;
pub mod field;
