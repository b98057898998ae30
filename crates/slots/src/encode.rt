// Slots as bits, one behind the other.
ghost use Rattle.std.specs.Prelude.{◌≡◌, take};
ghost use Rattle.slots.specs.Runs.{followed, slot_number, slot_pushed, slots_pushed};

use crate::slot::Slot;
use bits::words::Words;

// A number with a field behind it. A width counts up to 63 bits.
fn behind(number: u64, width: u8, value: u64) -> u64
    ensures { result ≡ followed number width value }
{
    (number << (width % 64)) | value
}

// The fields of a slot as one number, each in its width, the first in front.
fn slot_number(widths: &[u8; 5], slot: &Slot) -> u64
    ensures { result ≡ slot_number widths.now slot.now }
{
    let to_hour = behind(u64::from(slot.day), widths[1], u64::from(slot.hour));
    let to_minute = behind(to_hour, widths[2], u64::from(slot.minute));
    let to_strength = behind(to_minute, widths[3], u64::from(slot.strength));
    behind(to_strength, widths[4], slot.place)
}

// A slot in one piece: the words move once for all of its fields.
fn push_slot(n: Words, widths: &[u8; 5], slot: &Slot) -> Words
    ensures { result ≡ slot_pushed n widths.now slot.now }
{
    let bits = usize::from(widths[0])
        + usize::from(widths[1])
        + usize::from(widths[2])
        + usize::from(widths[3])
        + usize::from(widths[4]);
    n.push(bits, slot_number(widths, slot))
}

// So many slots, at most sixteen, with fields of these widths.
pub fn push_slots(n: Words, count: usize, widths: &[u8; 5], slots: &[Slot; 16]) -> Words
    ensures { result ≡ slots_pushed n widths.now (take count slots.now) }
{
    let mut next = n;
    for k in 0..count.min(16) {
        next = push_slot(next, widths, &slots[k]);
    }
    next
}
