// What is asked of a field: nothing is found, or why the call is refused. The first refusal is the answer, so questions
// stand one behind the other, each with a `?`.
ghost use Rattle.std.specs.Prelude.{◌≡◌, ◌&&◌, ◌||◌, ◌^◌, leb, ltb};
ghost use Rattle.rows.specs.Runs.Questions.{unless};
ghost use Rattle.rows.specs.Runs.Verdict.{ranged};

use crate::refusal::Refusal;

fn between(v: u64, lo: u64, hi: u64) -> bool
    ensures { result ≡ leb lo v && leb v hi }
{
    lo <= v && v <= hi
}

fn fits(v: u64, width: u8) -> bool
    ensures { result ≡ ltb v (2 ^ width) }
{
    if width > 63 {
        return true;
    }
    v >> width == 0
}

// Refused, unless the test is met.
pub fn unless(met: bool, refusal: Refusal) -> Result<(), Refusal>
    ensures { result ≡ unless met refusal }
{
    if met { Ok(()) } else { Err(refusal) }
}

// 8 with the value of the field at this bit, unless it is allowed. No other function makes an 8.
pub fn ranged(at: u8, v: u64, met: bool) -> Result<(), Refusal>
    ensures { result ≡ ranged met at v }
{
    unless(
        met,
        Refusal::Range {
            place: at,
            value: v,
        },
    )
}

pub fn within(at: u8, v: u64, lo: u64, hi: u64) -> Result<(), Refusal>
    ensures { result ≡ ranged (leb lo v && leb v hi) at v }
{
    ranged(at, v, between(v, lo, hi))
}

// A field of a group, whose codes speak for all of its fields: 8, unless the value lies in its normal range or
// all fields of the group have their codes.
pub fn in_group(at: u8, v: u64, lo: u64, hi: u64, together: bool) -> Result<(), Refusal>
    ensures { result ≡ ranged (leb lo v && leb v hi || together) at v }
{
    ranged(at, v, between(v, lo, hi) || together)
}

// A spare of so many bits: 8, unless the value fits them.
pub fn spare(at: u8, width: u8, v: u64) -> Result<(), Refusal>
    ensures { result ≡ ranged (ltb v (2 ^ width)) at v }
{
    ranged(at, v, fits(v, width))
}
