// A record as 251 bytes at fixed places and back, for callers in other languages: specs/Packed.antt has
// the table of the places. Reading frames and judging records are for the crates below.
#![tactic(auto)]

mod from_bytes;
pub mod sizes; // how many bytes and slots there are, where they start, and how many bytes a field has
pub mod text; // the 18 bytes of a text, which the pages of a store have too
mod to_bytes;

pub use from_bytes::unpack;
pub use to_bytes::pack;
