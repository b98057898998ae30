// One row of a listing: what is said of a line, and its text.
ghost use Rattle.std.specs.Prelude.{◌≡◌, ◌+◌, ◌≤◌, length};
ghost use Rattle.rows.specs.Refusals.{says};
ghost use Rattle.listing.specs.Rows.{reading_of, seen_of, row_of, row_seen, refused_row, place_entry, value_entry, slots_entry, entry_text, row_text, heading_text, cut_text, filled, filled_by};
ghost use Rattle.lent.specs.Writing.{Wrote};

use lent::{put_byte, put_bytes, put_decimal};
use report::look::Looked;
use report::record::Record;
use rows::refusal::{Refusal, Said};

// No line of a listing is longer: a number of ten digits, four entries of at most four bytes, a value of at most 21,
// and a line feed.
pub const LONGEST: usize = 48;

// What is said of a line. Where there is nothing to say stands a dash. A value that was refused may need 64 bits. The answer is
// document 01's number, which is what the row shows.
#[derive(Clone, Copy)]
pub struct Row {
    pub answer: u8,
    pub place: Option<u8>,
    pub category: Option<u8>,
    pub slots: Option<u8>,
    pub value: Option<u64>,
}

impl Row {
    // 8 and 10 have a place to say.
    fn place_entry(said: Said) -> Option<u8>
        ensures { result ≡ place_entry said }
    {
        match said.number {
            8 | 10 => Some(said.place),
            _ => None,
        }
    }

    // 8 alone has a value to say, 0 too.
    fn value_entry(said: Said) -> Option<u64>
        ensures { result ≡ value_entry said }
    {
        if said.number == 8 {
            Some(said.value)
        } else {
            None
        }
    }

    fn of_refusal(refusal: Refusal) -> Row
        ensures { result ≡ refused_row (says refusal) }
    {
        let said = refusal.says();
        Row {
            answer: said.number,
            place: Row::place_entry(said),
            category: None,
            slots: None,
            value: Row::value_entry(said),
        }
    }

    // A category without slots has nothing to say of them.
    fn slots_entry(count: usize, used: u8) -> Option<u8>
        ensures { result ≡ slots_entry count used }
    {
        if count == 0 { None } else { Some(used) }
    }

    // What is said of a line of which this is seen.
    pub(crate) fn seen(look: Result<Looked, Refusal>) -> Row
        ensures { result ≡ row_seen (seen_of look).answer (seen_of look) }
    {
        match look {
            Ok(seen) => Row {
                answer: 0,
                place: None,
                category: Some(seen.category),
                slots: Row::slots_entry(seen.count, seen.used),
                value: None,
            },
            Err(refusal) => Row::of_refusal(refusal),
        }
    }

    // What is said of a line that was read so.
    #[tactic(auto, using(crate::proofs::Lines::SeenRows::row_of_record))]
    pub fn of(read: &Result<Record, Refusal>) -> Row
        ensures { result ≡ row_of (reading_of read.now) }
    {
        match read {
            Ok(record) => Row::seen(Ok(Looked::of(record))),
            Err(refusal) => Row::of_refusal(*refusal),
        }
    }
}

fn put_entry(out: &mut [u8], at: usize, entry: Option<u64>) -> usize
    ensures { Wrote out.old out.new at result (entry_text entry) × (result ≤ at + 21) }
{
    let next = put_byte(out, at, b' ');
    match entry {
        None => put_byte(out, next, b'-'),
        Some(n) => put_decimal(out, next, n),
    }
}

// An entry of one byte has at most three digits.
fn put_small(out: &mut [u8], at: usize, entry: Option<u8>) -> usize
    ensures { Wrote out.old out.new at result (entry_text entry) × (result ≤ at + 4) }
{
    match entry {
        None => put_entry(out, at, None),
        Some(n) => put_entry(out, at, Some(u64::from(n))),
    }
}

pub(crate) fn put_row(out: &mut [u8], at: usize, number: u32, row: Row) -> usize
    ensures { Wrote out.old out.new at result (row_text number row) × (result ≤ at + 48) }
{
    let behind_number = put_decimal(out, at, u64::from(number));
    let behind_answer = put_small(out, behind_number, Some(row.answer));
    let behind_place = put_small(out, behind_answer, row.place);
    let behind_category = put_small(out, behind_place, row.category);
    let behind_slots = put_small(out, behind_category, row.slots);
    let end = put_entry(out, behind_slots, row.value);
    put_byte(out, end, b'\n')
}

// What stands in place of the lines behind the last that is read.
#[tactic(auto, unfolding(crate::specs::Rows::cut_text))]
pub(crate) fn put_cut(out: &mut [u8], at: usize) -> usize
    ensures { Wrote out.old out.new at result cut_text × (result ≤ at + 48) }
{
    put_bytes(out, at, b"cut - - - - -\n")
}

// Puts the first line of a listing at the start of out, and answers its length. An out of less than
// 48 bytes is left as it is, and the answer is 0.
#[tactic(auto, using(crate::proofs::Texts::Written::wrote_laid, crate::proofs::Texts::Written::too_short), unfolding(crate::specs::Rows::heading_text))]
pub fn write_heading(out: &mut [u8]) -> usize
    ensures is { filled result out.new ≡ filled_by heading_text out.old }
    ensures fits { result ≤ length out.old }
{
    if out.len() < LONGEST {
        return 0;
    }
    put_bytes(out, 0, b"line answer place dc slots value\n")
}

// Puts this row, of the line with this number, at the start of out, as `write_heading` does.
#[tactic(auto, using(crate::proofs::Texts::Written::wrote_laid, crate::proofs::Texts::Written::too_short))]
pub(crate) fn write_one(number: u32, row: Row, out: &mut [u8]) -> usize
    ensures is { filled result out.new ≡ filled_by (row_text number row) out.old }
    ensures fits { result ≤ length out.old }
{
    if out.len() < LONGEST {
        return 0;
    }
    put_row(out, 0, number, row)
}

// Puts the row of the line with this number, which was read so, at the start of out, as `write_heading` does.
pub fn write_row(number: u32, read: &Result<Record, Refusal>, out: &mut [u8]) -> usize
    ensures is { filled result out.new ≡ filled_by (row_text number (row_of (reading_of read.now))) out.old }
    ensures fits { result ≤ length out.old }
{
    write_one(number, Row::of(read), out)
}
