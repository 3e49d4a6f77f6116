// What TBinaryOutputProtocol writes for a text, a UUID or a struct, put into a lent buffer at a cursor: the moved cursor,
// or the refusal with the buffer as it was. The definitions and laws of all single values are here; the writers of bytes,
// bools and numbers are in `write_scalars`.
#![tactic(auto)]

pub mod item;
pub mod string;
pub mod structs;
