// Reading a lent frame: what is refused is decided before a record is made.
ghost use Rattle.std.specs.Prelude.{◌≡◌};
ghost use Rattle.std.specs.Result.{result_unwrap_or};
ghost use Rattle.bits.specs.Frame.{frame_in};
ghost use Rattle.report.specs.Records.{body_of, zeros};
ghost use Rattle.report.specs.Runs.Reading.{outer_of, content_as, read_answer, read_of, read_says};
ghost use Rattle.rows.specs.Refusals.{answers, outcome};

use crate::body::Content;
use crate::codes::is_preamble;
use crate::record::Record;
use rows::common::Common;
use rows::question::unless;
use rows::refusal::Refusal;

// 2 to 6, which are asked before what stands in a category.
#[tactic(auto, unfolding(crate::specs::Runs::Reading::outer_of))]
fn outer(f: &[u8]) -> Result<(), Refusal>
    ensures { result ≡ outer_of (frame_in f.now) }
{
    unless(bits::field::<u8>(f, 250, 6) == 0, Refusal::Padding)?;
    unless(is_preamble(bits::field(f, 0, 8)), Refusal::Preamble)?;
    unless(parity::parity_right(f), Refusal::Parity)?;
    unless(bits::field::<u8>(f, 8, 6) == 43, Refusal::Message)?;
    unless(bits::field::<u8>(f, 214, 6) == 1, Refusal::Version)
}

// What stands between bit 43 and bit 213 of a lent frame, of whatever length and content, or why it is refused. Nothing is asked
// of Reserved, whose six bits may hold anything.
pub(crate) fn content(frame: &[u8]) -> Result<Content, Refusal>
    ensures { result ≡ outcome (read_answer frame.now) (content_as frame.now (body_of frame.now)) }
{
    unless(frame.len() == 32, Refusal::Length)?;
    outer(frame)?;
    Content::of(frame)
}

// Reads a lent frame, of whatever length and content. No record leaves with a refusal: whoever wants one all the same, as
// `read(frame).unwrap_or(Record::of_zeros())`, gets zeros.
pub fn read(frame: &[u8]) -> Result<Record, Refusal>
    ensures value { result ≡ outcome (read_of frame.now).answer (read_of frame.now).record }
    ensures answer_value { answers result ≡ read_says frame.now }
    ensures zeros { result_unwrap_or result zeros ≡ (read_of frame.now).record }
{
    let content = content(frame)?;
    let slots = content.slots;
    let text = content.text;
    Ok(Record {
        preamble: bits::field(frame, 0, 8),
        reserved: bits::field(frame, 220, 6),
        common: Common::of(frame),
        body: content.body,
        slots,
        text,
        spares: content.spares,
    })
}
