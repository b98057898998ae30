// The doors to C and Rust, which `inserter_c` exports: functions on numbers and byte slices, over the proved crates. None has a
// `requires`, since nobody proves what a caller in another language passes; each settles its answer
// and what it leaves in a lent buffer, on every input. A refusal of document 01 is told by its number,
// and then no lent buffer was touched; 255 says that a name, or a buffer for an answer, has a length
// that no call takes.
#![tactic(auto)]

pub mod frames; // parity, reading, writing
pub mod lines; // a frame as 63 digits
pub mod meanings; // what a number of a record says
pub mod sentences; // a frame as a receiver's sentence
pub mod stores; // the page store of a bulletin
pub mod values; // what was found where a call refuses with 8
mod words; // an answer as one number
