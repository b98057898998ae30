// Bytes put into a lent buffer piece by piece: each function answers where the next piece goes. A byte
// behind the buffer's end is left out, and the answer is then past that end.
#![tactic(auto)]

mod number; // a number's bytes, and its digits
mod put; // what is put

pub use number::byte_of;
pub use put::{put_byte, put_bytes, put_decimal};
