// A frame as a line of text, 63 hexadecimal digits of either case: from a line to a frame or to what
// it says, and from a frame to a line in capitals. Cutting an input into lines is for the crates
// above.
#![tactic(auto)]

pub mod from_line;
pub mod to_line;

pub use from_line::{digit, frame_of_line, look_line, read_line};
pub use to_line::{two_capitals, write_line};
