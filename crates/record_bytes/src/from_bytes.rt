// From any 251 bytes back to a record.
ghost use Rattle.std.specs.Prelude.{◌≡◌, cond, not, ℕ, ◌+◌, ◌*◌, ◌≤◌, ◌<◌, length, get_or, take, drop, replicate};
ghost use Rattle.std.proofs.Math.Seq.{slice};
ghost use Rattle.rows.specs.Values.{same_bytes};
ghost use Rattle.rows.specs.Runs.Fields.{bytes_for};
ghost use Rattle.record_bytes.specs.Packed.{body_bytes, zero_filled};
ghost use Rattle.record_bytes.specs.Unpacked.{number_at, misplaced, slot_at, common_in_bytes, size, cells_at, both_in_bytes, slots_from, slots_or_misplaced, record_from};

use crate::sizes::{
    FIELDS_AT, FIELDS_SIZE, RECORD_SIZE, SLOT_COUNT, SLOT_SIZE, SLOTS_AT, TEXT_AT, bytes_for,
};
use crate::text::text_at;
use report::body::{Body, BodyAndSpares};
use report::record::Record;
use rows::common::Common;
use rows::fields::{Fields, Spares};
use slots::slot::Slot;

// ---- numbers

// The number in eight bytes from the byte `at` on.
fn number_at(bytes: &[u8], at: usize) -> u64
    requires { at + 8 ≤ length bytes.now }
    ensures { result ≡ number_at bytes.now at 8 }
{
    u64::from_be_bytes(<[u8; 8]>::try_from(&bytes[at..at + 8]).unwrap())
}

// ---- 3 to 8

fn common_of(bytes: &[u8; RECORD_SIZE]) -> Common
    ensures { result ≡ common_in_bytes bytes.now }
{
    Common {
        rc: bytes[3],
        month: bytes[4],
        day: bytes[5],
        hour: bytes[6],
        minute: bytes[7],
        it: bytes[8],
    }
}

// ---- 9 to 40

// The values of fields of these widths from the byte `at` on, into zeros; and the place behind them. Behind a width that asks
// for no byte there is none that does. A number is the front of the eight bytes at its place: the compiler makes one load of
// eight bytes, and a loop of a count that it does not know.
fn read_cells(bytes: &[u8], at: usize, widths: &[u8], values: &mut [u64]) -> usize
    requires { (at + size widths.now + 8 ≤ length bytes.now) × ((values.old ≡ replicate (length widths.now) 0) × ((k : ℕ) → bytes_for (get_or widths.now k 0) ≡ 0 → size (drop k widths.now) ≡ 0)) }
    ensures { (result ≡ at + size widths.now) × (values.new ≡ cells_at bytes.now at widths.now) }
{
    let mut next = at;
    for k in 0..widths.len() {
        let count = bytes_for(widths[k]);
        if count == 0 {
            return next;
        }
        values[k] = number_at(bytes, next) >> (64 - 8 * count);
        next += count;
    }
    next
}

// A body and its spares, and the place behind the bytes that they were read from.
#[derive(Clone, Copy)]
struct BodyAndEnd {
    both: BodyAndSpares,
    end: usize,
}

// The body of the category's code, whose table says the widths, and its spares. Without a category nothing keeps what stands
// behind the first spare, so the bytes end there. What the table says is taken apart: were its parts lent out of the whole, the
// compiler would copy the whole.
fn body_of(bytes: &[u8; RECORD_SIZE]) -> BodyAndEnd
    ensures { (result.both ≡ both_in_bytes bytes.now) × ((9 ≤ result.end) × ((result.end ≤ 41) × (body_bytes result.both.body result.both.spares ≡ zero_filled 32 (slice 9 result.end bytes.now)))) }
{
    let mut front = [0u64; 18];
    let mut behind = [0u64; 3];
    let blank = Body::of_values(bytes[0], &front, &behind);
    let Fields {
        table,
        ahead,
        after,
        ..
    } = blank.body.fields(Spares::none());
    let middle = read_cells(bytes, FIELDS_AT, &ahead, &mut front);
    let last = read_cells(bytes, middle, &after, &mut behind);
    let end = if table.code == 0 { middle } else { last };
    let both = Body::of_values(bytes[0], &front, &behind);
    BodyAndEnd { both, end }
}

// Whether something stands behind the fields, from the place where they end up to byte 40.
#[tactic(auto, using(crate::proofs::FromBytes::Stray::zeros_behind))]
fn has_stray(bytes: &[u8; RECORD_SIZE], end: usize) -> bool
    requires { (9 ≤ end) × (end ≤ 41) }
    ensures { result ≡ not (same_bytes (take 32 (drop 9 bytes.now)) (zero_filled 32 (slice 9 end bytes.now))) }
{
    bytes[end..SLOTS_AT] != [0u8; FIELDS_SIZE][end - FIELDS_AT..]
}

// ---- 41 to 232

// Slot k, from 0.
fn slot_at(bytes: &[u8; RECORD_SIZE], k: usize) -> Slot
    requires { k < 16 }
    ensures { result ≡ slot_at bytes.now (41 + 12 * k) }
{
    let at = SLOTS_AT + SLOT_SIZE * k;
    Slot {
        day: bytes[at],
        hour: bytes[at + 1],
        minute: bytes[at + 2],
        strength: bytes[at + 3],
        place: number_at(bytes, at + 4),
    }
}

// The last slot, and where something is stray one that no category allows.
fn last_slot(bytes: &[u8; RECORD_SIZE], stray: bool) -> Slot
    ensures { result ≡ cond stray misplaced (slot_at bytes.now 221) }
{
    if stray {
        return Slot {
            day: 0,
            hour: 1,
            minute: 0,
            strength: 0,
            place: 0,
        };
    }
    slot_at(bytes, 15)
}

// The slots, the last of which tells of what is stray.
fn slots_of(bytes: &[u8; RECORD_SIZE], stray: bool) -> [Slot; SLOT_COUNT]
    ensures { result ≡ slots_or_misplaced stray (slots_from bytes.now) }
{
    let mut slots = [Slot::none(); SLOT_COUNT];
    for k in 0..SLOT_COUNT {
        slots[k] = slot_at(bytes, k);
    }
    slots[15] = last_slot(bytes, stray);
    slots
}

// The record that 251 lent bytes are, whatever they are. Bytes of another length are a record of zeros.
#[tactic(auto, unfolding(crate::specs::Unpacked::record_from))]
pub fn unpack(bytes: &[u8]) -> Record
    ensures { result ≡ record_from bytes.now }
{
    let Ok(bytes) = <&[u8; RECORD_SIZE]>::try_from(bytes) else {
        return Record::of_zeros();
    };
    let own = body_of(bytes);
    Record {
        preamble: bytes[1],
        reserved: bytes[2],
        common: common_of(bytes),
        body: own.both.body,
        slots: slots_of(bytes, has_stray(bytes, own.end)),
        text: text_at(bytes, TEXT_AT),
        spares: own.both.spares,
    }
}
