// What every category has in front of its own fields: bits 8 to 42.
ghost use Rattle.std.specs.Prelude.{◌≡◌};
ghost use Rattle.bits.specs.Frame.{frame_in};
ghost use Rattle.rows.specs.Runs.Verdict.{common_verdict};
ghost use Rattle.rows.specs.Values.{common_of, no_common};

use crate::question::{ranged, within};
use crate::refusal::Refusal;

// Classification (Rc), the time of issue, and information type (It).
#[derive(Clone, Copy, PartialEq, Eq)]
pub struct Common {
    pub rc: u8,
    pub month: u8,
    pub day: u8,
    pub hour: u8,
    pub minute: u8,
    pub it: u8,
}

impl Common {
    // Nothing but zeros.
    pub fn of_zeros() -> Common
        ensures { result ≡ no_common }
    {
        Common {
            rc: 0,
            month: 0,
            day: 0,
            hour: 0,
            minute: 0,
            it: 0,
        }
    }

    // The fields of a frame.
    pub fn of(f: &[u8]) -> Common
        ensures { result ≡ common_of (frame_in f.now) }
    {
        Common {
            rc: bits::field(f, 14, 3),
            month: bits::field(f, 21, 4),
            day: bits::field(f, 25, 5),
            hour: bits::field(f, 30, 5),
            minute: bits::field(f, 35, 6),
            it: bits::field(f, 41, 2),
        }
    }

    // Their ranges. Which Rc and It there are is for the category to say.
    pub fn check(self, rc: bool, it: bool) -> Result<(), Refusal>
        ensures { result ≡ common_verdict self rc it }
    {
        ranged(14, u64::from(self.rc), rc)?;
        within(21, u64::from(self.month), 1, 12)?;
        within(25, u64::from(self.day), 1, 31)?;
        within(30, u64::from(self.hour), 0, 23)?;
        within(35, u64::from(self.minute), 0, 59)?;
        ranged(41, u64::from(self.it), it)
    }
}
