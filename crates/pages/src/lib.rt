// One page of a Nankai Trough bulletin, as two receivers have it, and the name of a bulletin. The
// store that gathers pages is for the crate above.
#![tactic(auto)]

pub mod page; // one page, and two receivers' pages joined
pub mod name; // which bulletin
