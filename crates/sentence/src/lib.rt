// A frame as the sentence of a receiver, `$QZQSM` with a satellite and a checksum around the 63 digits of a line: from a
// sentence to what it says, and from a satellite and a frame to a sentence. Cutting a receiver's output into sentences is
// for the crates above.
#![tactic(auto)]

pub mod form; // what stands around the digits
pub mod from_sentence;
pub mod to_sentence;

pub use from_sentence::{around, hear_line, is_another, read_sentence};
pub use to_sentence::{send_answer, write_sentence};
