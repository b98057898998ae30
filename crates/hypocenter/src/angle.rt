// A latitude or a longitude.
ghost use Rattle.std.specs.Prelude.{◌≡◌, [], ◌∷◌, map, ◌≤◌, ◌%◌, ◌^◌};
ghost use Rattle.bits.specs.Frame.{frame_in};
ghost use Rattle.rows.specs.Values.{cut};
ghost use Rattle.rows.specs.Runs.Verdict.{walk};
ghost use Rattle.hypocenter.specs.Hypocenter.{angle, angle_from, angle_values};

use bits::Number;
use rows::question::within;
use rows::refusal::Refusal;

// Side 0 is north or east, 1 is south or west.
#[derive(Clone, Copy)]
pub struct Angle {
    pub side: u8,
    pub degrees: u8,
    pub minutes: u8,
    pub seconds: u8,
}

// Degrees have `width` bits.
impl Angle {
    // The angle that four numbers say, of each its last byte.
    pub(crate) fn of_values(side: u64, degrees: u64, minutes: u64, seconds: u64) -> Angle
        ensures { result ≡ angle_from (side % 2 ^ 8 ∷ degrees % 2 ^ 8 ∷ minutes % 2 ^ 8 ∷ seconds % 2 ^ 8 ∷ []) 0 }
    {
        Angle {
            side: u8::lowest(side),
            degrees: u8::lowest(degrees),
            minutes: u8::lowest(minutes),
            seconds: u8::lowest(seconds),
        }
    }

    pub(crate) fn at(f: &[u8], at: usize, width: usize) -> Angle
        requires { (at ≤ 200) × (width ≤ 8) }
        ensures { result ≡ angle_from (map (cut (frame_in f.now)) (angle at width 0)) 0 }
    {
        Angle {
            side: bits::field(f, at, 1),
            degrees: bits::field(f, at + 1, width),
            minutes: bits::field(f, at + 1 + width, 6),
            seconds: bits::field(f, at + 7 + width, 6),
        }
    }

    // What is found in the angle whose first bit is `at`, of at most so many degrees.
    #[tactic(auto, using(rows::proofs::Rules::Spans::allowed_one, rows::proofs::Rules::Outcomes::then_fine), unfolding(rows::specs::Runs::Verdict::walk, rows::specs::Runs::Verdict::judge))]
    pub(crate) fn check(self, at: u8, width: u8, most: u64) -> Result<(), Refusal>
        requires { (at ≤ 200) × (width ≤ 8) }
        ensures { result ≡ walk [] (angle at width most) (angle_values self) }
    {
        within(at, u64::from(self.side), 0, 1)?;
        within(at + 1, u64::from(self.degrees), 0, most)?;
        within(at + 1 + width, u64::from(self.minutes), 0, 59)?;
        within(at + 7 + width, u64::from(self.seconds), 0, 59)
    }
}
