// What a frame says, as numbers in the narrowest type that holds them. Any value may stand in a
// record; which of them can be written is for the check.
ghost use Rattle.std.specs.Prelude.{◌≡◌};
ghost use Rattle.report.specs.Meaning.{used_of};
ghost use Rattle.report.specs.Records.{zeros};

use crate::body::Body;
use rows::common::Common;
use rows::fields::Spares;
use slots::silence::used;
use slots::slot::Slot;

// A report. What its category does not use is zero. Of its spares nobody knows what they say, and they are
// written as they were read.
#[derive(Clone, Copy)]
pub struct Record {
    pub preamble: u8,
    pub reserved: u8,
    pub common: Common,
    pub body: Body,
    pub slots: [Slot; 16],
    pub text: [u8; 18],
    pub spares: Spares,
}

impl Record {
    // The record of a refused reading.
    #[tactic(auto, unfolding(crate::specs::Records::zeros))]
    pub fn of_zeros() -> Record
        ensures { result ≡ zeros }
    {
        Record {
            preamble: 0,
            reserved: 0,
            common: Common::of_zeros(),
            body: Body::NoCategory,
            slots: [Slot::none(); 16],
            text: [0u8; 18],
            spares: Spares::none(),
        }
    }

    // How many slots are used, 0 in a category without slots: whoever names places names this many.
    #[tactic(auto, unfolding(crate::specs::Meaning::used_of))]
    pub fn slots_used(&self) -> usize
        ensures { result ≡ used_of self.now }
    {
        used(&self.slots)
    }
}
