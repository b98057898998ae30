// From a record to its bytes, front to back.
ghost use Rattle.std.specs.Prelude.{◌≡◌, ℕ, ◌+◌, ◌≤◌, length, get_or, drop};
ghost use Rattle.std.proofs.lemmas.List.Edits.{sets};
ghost use Rattle.lent.specs.Numbers.{wide};
ghost use Rattle.rows.specs.Runs.Fields.{bytes_for};
ghost use Rattle.record_bytes.specs.Packed.{head_bytes, cells, body_bytes, slot_bytes, slots_bytes, packed_into};
ghost use Rattle.record_bytes.specs.Unpacked.{size};
ghost use Rattle.lent.specs.Writing.{Wrote};

use crate::sizes::{FIELDS_SIZE, RECORD_SIZE, SLOT_COUNT, SLOT_SIZE, bytes_for};
use lent::put_bytes;
use report::body::Body;
use report::record::Record;
use rows::fields::Spares;
use slots::slot::Slot;

// ---- numbers

// A number in eight bytes, the most significant first, all of which find room.
#[tactic(auto, using(lent::proofs::Chains::put_whole, crate::proofs::ToBytes::EightBytes::eight_bytes))]
fn put_number(out: &mut [u8], at: usize, number: u64)
    requires { at + 8 ≤ length out.old }
    ensures { out.new ≡ sets out.old at (wide 8 number) }
{
    out[at..at + 8].copy_from_slice(&number.to_be_bytes());
}

// ---- 0 to 8

fn put_head(out: &mut [u8], r: &Record) -> usize
    ensures { Wrote out.old out.new 0 result (head_bytes r.now) }
{
    let common = r.common;
    put_bytes(
        out,
        0,
        &[
            r.body.code(),
            r.preamble,
            r.reserved,
            common.rc,
            common.month,
            common.day,
            common.hour,
            common.minute,
            common.it,
        ],
    )
}

// ---- 9 to 40

// Values one behind the other into zeros, each in the bytes that its width asks for, up to the first that has none, behind
// which none has any. Each is put as eight bytes, and the next one covers those that it has not: eight bytes are one
// move, and a number of them that varies is a loop.
fn put_cells(out: &mut [u8], at: usize, widths: &[u8], values: &[u64]) -> usize
    requires widths_len { (length widths.now ≡ length values.now) × (at + size widths.now + 8 ≤ length out.old) }
    requires by_index { ((i : ℕ) → at ≤ i → get_or out.old i 0 ≡ 0) × ((i : ℕ) → bytes_for (get_or widths.now i 0) ≡ 0 → size (drop i widths.now) ≡ 0) }
    ensures { (result ≡ at + size widths.now) × (out.new ≡ sets out.old at (cells widths.now values.now)) }
{
    let mut next = at;
    for k in 0..widths.len() {
        let count = bytes_for(widths[k]);
        if count == 0 {
            return next;
        }
        put_number(out, next, values[k] << (64 - 8 * count));
        next += count;
    }
    next
}

// The bytes of a body and its spares, and zeros behind them. They are put where there are eight bytes more, so that the last
// value finds room for its eight too.
fn own_bytes(body: Body, spares: Spares) -> [u8; FIELDS_SIZE]
    ensures { result ≡ body_bytes body spares }
{
    let fields = body.fields(spares);
    let mut put = [0u8; 40];
    let middle = put_cells(&mut put, 0, &fields.ahead, &fields.front);
    put_cells(&mut put, middle, &fields.after, &fields.behind);
    let mut own = [0u8; FIELDS_SIZE];
    own.copy_from_slice(&put[..FIELDS_SIZE]);
    own
}

// ---- 41 to 232

// The place goes first: behind the four bytes in front of it the compiler would put its bytes one by one.
fn put_slot(out: &mut [u8], at: usize, s: &Slot)
    requires { at + 12 ≤ length out.old }
    ensures { out.new ≡ sets out.old at (slot_bytes s.now) }
{
    put_number(out, at + 4, s.place);
    put_bytes(out, at, &[s.day, s.hour, s.minute, s.strength]);
}

// That there are sixteen is known here by the type of the array, and not where it stands in a record.
fn put_slots(out: &mut [u8], at: usize, slots: &[Slot; SLOT_COUNT]) -> usize
    requires { at + 192 ≤ length out.old }
    ensures put { Wrote out.old out.new at result (slots_bytes slots.now) }
    ensures sixteen { length slots.now ≡ 16 }
{
    for k in 0..SLOT_COUNT {
        put_slot(out, at + SLOT_SIZE * k, &slots[k]);
    }
    at + SLOT_SIZE * SLOT_COUNT
}

// The record, into a lent buffer of 251 bytes. A buffer of another length stays as it was.
pub fn pack(r: &Record, out: &mut [u8])
    ensures { out.new ≡ packed_into r.now out.old }
{
    if out.len() == RECORD_SIZE {
        let own = own_bytes(r.body, r.spares);
        let body_at = put_head(out, r);
        let slots_at = put_bytes(out, body_at, &own);
        let text_at = put_slots(out, slots_at, &r.slots);
        put_bytes(out, text_at, &r.text);
    }
}
