// Silence in slots: which are used, and what must be zero.
ghost use Rattle.std.specs.Prelude.{◌≡◌, map};
ghost use Rattle.slots.specs.Slots.{slot_parts, tidy_slots, used_among, vacant};
ghost use Rattle.slots.specs.Runs.{widths_in};

use crate::slot::{Slot, is_vacant};

// How many slots are used: those before the first empty one.
pub fn used(slots: &[Slot; 16]) -> usize
    ensures { result ≡ used_among (map slot_parts slots.now) }
{
    for k in 0..16 {
        if slots[k].is_empty() {
            return k;
        }
    }
    16
}

// Nothing stands in slot i where it has no bits: past the category's slots, nothing at all. Most slots are empty, so
// that is asked first.
fn is_tidy(i: usize, count: usize, widths: &[u8; 5], slot: &Slot) -> bool
    ensures { result ≡ vacant (widths_in i count widths.now) (slot_parts slot.now) }
{
    slot.is_empty() || i < count && is_vacant(widths, &slot.values())
}

// Nothing stands in what a category with so many slots of these fields does not use: neither in its slots
// nor in those behind them.
pub fn are_tidy(count: usize, widths: &[u8; 5], slots: &[Slot; 16]) -> bool
    ensures { result ≡ tidy_slots widths.now count slots.now }
{
    for i in 0..16 {
        if !is_tidy(i, count, widths, &slots[i]) {
            return false;
        }
    }
    true
}
