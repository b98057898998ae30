// Day, hour and minute, wherever a category has them.
ghost use Rattle.std.specs.Prelude.{◌≡◌, [], ◌∷◌, ◌%◌, ◌^◌};
ghost use Rattle.bits.specs.Frame.{frame_in};
ghost use Rattle.rows.specs.Values.{time_from};
ghost use Rattle.rows.specs.Runs.Times.{time_in, time_verdict};

use crate::question::within;
use crate::refusal::Refusal;
use bits::Number;

// When an earthquake or an eruption was.
#[derive(Clone, Copy)]
pub struct Time {
    pub day: u8,
    pub hour: u8,
    pub minute: u8,
}

impl Time {
    // The time that three numbers say, of each its last byte.
    pub fn of_values(day: u64, hour: u64, minute: u64) -> Time
        ensures { result ≡ time_from (day % 2 ^ 8 ∷ hour % 2 ^ 8 ∷ minute % 2 ^ 8 ∷ []) 0 }
    {
        Time {
            day: u8::lowest(day),
            hour: u8::lowest(hour),
            minute: u8::lowest(minute),
        }
    }

    // The time whose first bit is `at`; what lies outside the frame is zero.
    pub fn at(f: &[u8], at: u8) -> Time
        ensures { result ≡ time_in (frame_in f.now) at }
    {
        let first = usize::from(at);
        Time {
            day: bits::field(f, first, 5),
            hour: bits::field(f, first + 5, 5),
            minute: bits::field(f, first + 10, 6),
        }
    }

    // The ranges of the time whose first bit is `at`; none where it does not lie in the frame.
    pub fn check(self, at: u8) -> Result<(), Refusal>
        ensures { result ≡ time_verdict at self }
    {
        if at > 240 {
            return Ok(());
        }
        within(at, u64::from(self.day), 1, 31)?;
        within(at + 5, u64::from(self.hour), 0, 23)?;
        within(at + 10, u64::from(self.minute), 0, 59)
    }
}
