// Writing a record to a lent frame: first whether, then what.
ghost use Rattle.std.specs.Prelude.{◌≡◌, length};
ghost use Rattle.report.specs.Runs.Writing.{write_answer, write_of, write_says};
ghost use Rattle.rows.specs.Refusals.{answers};

use crate::codes::is_preamble;
use crate::encode::encode;
use crate::record::Record;
use crate::tidy::is_tidy;
use rows::question::{unless, within};
use rows::refusal::Refusal;

// What writing a record to a buffer of this size answers. The rules of bits 8 to 225 are asked of its values alone, from the
// lowest bit up, as reading asks them.
pub fn write_answer(r: &Record, size: usize) -> Result<(), Refusal>
    ensures value { result ≡ write_answer r.now size }
    ensures result_value { answers result ≡ write_says r.now size }
{
    unless(size == 32, Refusal::Length)?;
    unless(is_preamble(r.preamble), Refusal::Preamble)?;
    let table = r.body.table();
    unless(table.code != 0, Refusal::Category)?;
    unless(
        is_tidy(&table, &r.slots, &r.text, r.spares),
        Refusal::Unused,
    )?;
    r.body.check(r.common, &r.slots, r.spares)?;
    within(220, u64::from(r.reserved), 0, 63)
}

// Writes a record, whatever it holds, to a lent frame of whatever length. Where that is refused the
// frame stays as it was.
#[tactic(auto, using(crate::proofs::Writing::WriteSteps::fine_valid, crate::proofs::Writing::WriteSteps::fine_size))]
pub fn write(r: &Record, frame: &mut [u8]) -> Result<(), Refusal>
    ensures value { (result ≡ write_answer r.now (length frame.old)) × (frame.new ≡ write_of r.now frame.old) }
    ensures result_value { answers result ≡ write_says r.now (length frame.old) }
{
    write_answer(r, frame.len())?;
    encode(r, &r.body.fields(r.spares), frame);
    Ok(())
}
