// The sixteen slots of a record, whatever a category lists in them: one slot, silence (which slots are used,
// and what must be zero), the slots of a frame, the order in which slots are judged, and slots as bits. Where the slots of
// a category stand and what may stand in them is for its own crate.
#![tactic(auto)]

pub mod slot; // one slot, and whether it is empty
pub mod silence; // which slots are used, and what must be zero
pub mod listed; // the slots of a category: taken from a frame, and judged
pub mod encode; // slots as bits
