// A page store as 1205 bytes at fixed places and back, and a name as 8 bytes, for callers in other
// languages: specs/Stores.antt has the table of the places. Soundness is for the crates below.
#![tactic(auto)]

mod from_bytes;
pub mod sizes; // how many bytes there are, and where the pages start
mod to_bytes;

pub use from_bytes::{unpack_name, unpack_store};
pub use to_bytes::{pack_page, pack_store};
