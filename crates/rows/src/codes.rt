// Which values several categories have in Rc, in It and in a notification, one value at a time.
ghost use Rattle.std.specs.Prelude.{◌≡◌};
ghost use Rattle.rows.specs.Layout.{two_or_seven, two_three_or_seven, uncorrected, corrected, notified};
ghost use Rattle.rows.specs.Runs.Verdict.{allowed, ranged};

use crate::question::ranged;
use crate::refusal::Refusal;

pub fn is_two_or_seven(v: u8) -> bool
    ensures { result ≡ allowed two_or_seven v }
{
    matches!(v, 2 | 7)
}

pub fn is_two_three_or_seven(v: u8) -> bool
    ensures { result ≡ allowed two_three_or_seven v }
{
    matches!(v, 2 | 3 | 7)
}

// Issue or cancellation.
pub fn is_uncorrected(v: u8) -> bool
    ensures { result ≡ allowed uncorrected v }
{
    matches!(v, 0 | 2)
}

// Issue, correction or cancellation.
pub fn is_corrected(v: u8) -> bool
    ensures { result ≡ allowed corrected v }
{
    v <= 2
}

// None, or the code of a notification.
fn is_notification(v: u16) -> bool
    ensures { result ≡ allowed notified v }
{
    matches!(v, 0 | 101..=500)
}

// The notification at this bit.
pub fn notification(at: u8, v: u16) -> Result<(), Refusal>
    ensures { result ≡ ranged (allowed notified v) at v }
{
    ranged(at, u64::from(v), is_notification(v))
}
