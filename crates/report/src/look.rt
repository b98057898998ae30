// A look at a lent frame: what `read` answers, without the record.
ghost use Rattle.std.specs.Prelude.{◌≡◌, map};
ghost use Rattle.std.specs.Result.{result_unwrap_or};
ghost use Rattle.slots.specs.Slots.{slot_parts, used_among};
ghost use Rattle.report.specs.Runs.Reading.{read_of, read_says, seen, look_told, look_at, looked, nothing_looked};
ghost use Rattle.rows.specs.Refusals.{answers};

use crate::body::Body;
use crate::read::content;
use crate::record::Record;
use rows::refusal::Refusal;
use slots::silence::used;
use slots::slot::Slot;

// The category's code, how many slots the category has, and how many of them are used.
#[derive(Clone, Copy)]
pub struct Looked {
    pub category: u8,
    pub count: usize,
    pub used: u8,
}

// How many slots are used, at most sixteen.
fn used_among(slots: &[Slot; 16]) -> u8
    ensures { result ≡ used_among (map slot_parts slots.now) }
{
    used(slots) as u8
}

impl Looked {
    fn at(body: Body, slots: &[Slot; 16]) -> Looked
        ensures { result ≡ look_at body slots.now }
    {
        Looked {
            category: body.code(),
            count: body.count(),
            used: used_among(slots),
        }
    }

    // What is seen where a look is refused: whoever wants it all the same asks by `look(frame).unwrap_or(Looked::of_zeros())`.
    pub fn of_zeros() -> Looked
        ensures { result ≡ nothing_looked }
    {
        Looked {
            category: 0,
            count: 0,
            used: 0,
        }
    }

    // What is seen of a record.
    pub fn of(came: &Record) -> Looked
        ensures { result ≡ look_at came.now.body came.now.slots }
    {
        Looked::at(came.body, &came.slots)
    }
}

// Looks at a lent frame, of whatever length and content.
#[tactic(auto, using(crate::proofs::Reading::ReadSteps::look_made))]
pub fn look(frame: &[u8]) -> Result<Looked, Refusal>
    ensures value { result ≡ look_told (seen (read_of frame.now)) }
    ensures answer_value { answers result ≡ read_says frame.now }
    ensures zeros { result_unwrap_or result nothing_looked ≡ looked (seen (read_of frame.now)) }
{
    let content = content(frame)?;
    Ok(Looked::at(content.body, &content.slots))
}
