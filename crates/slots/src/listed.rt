// The slots of a category. What differs from one category to another is told by a type of its own, which has the trait
// `Listed`; taking them all from a frame and judging them all is said here, once.
ghost use Rattle.std.specs.Prelude.{◌≡◌, ℕ, [], ◌+◌, ◌*◌, ◌<◌, ◌≤◌};
ghost use Rattle.bits.specs.Frame.{frame_in};
ghost use Rattle.rows.specs.Layout.{Slots, slot_rows};
ghost use Rattle.rows.specs.Runs.Verdict.{empty, slots_verdict, walk};
ghost use Rattle.slots.specs.Slots.{slot_of, slot_or_none, slot_values, slots_of, slots_values};

use crate::slot::Slot;
use rows::question::unless;
use rows::refusal::Refusal;

// The first bit of a slot in a frame. The longest slot has 44 bits, and no field of one stands behind the frame.
#[derive(Clone, Copy)]
pub struct SlotBit {
    pub bit: u8,
    ghost inside: { bit ≤ 212 },
}

// What the slots of a category are.
pub trait Listed {
    ghost slots: { Slots };

    // The first bit of the first one, how many bits each has, and how many there are.
    const FIRST: u8;

    ghost FIRST: { ℕ };

    const BITS: u8;

    ghost BITS: { ℕ };

    const COUNT: usize;

    ghost COUNT: { ℕ };

    // The slot of a frame that starts at this bit.
    fn slot(f: &[u8], at: SlotBit) -> Slot
        ensures { result ≡ slot_of slots (frame_in f.now) at.bit };

    // Nothing stands in the fields that the category has.
    fn is_empty(slot: &Slot) -> bool
        ensures { result ≡ empty (slot_values slots slot.now) };

    // What is found in the fields of the slot that starts at this bit.
    fn check(slot: &Slot, at: SlotBit) -> Result<(), Refusal>
        ensures { result ≡ walk [] (slot_rows slots at.bit) (slot_values slots slot.now) };

    ghost first: { FIRST ≡ slots.first };

    ghost bits: { BITS ≡ slots.bits };

    ghost count: { COUNT ≡ slots.count };

    ghost one: { 1 ≤ COUNT };

    ghost sixteen: { COUNT ≤ 16 };

    ghost inside: { FIRST + BITS * COUNT ≤ 212 + BITS };
}

// Where slot k starts.
fn starts<C: Listed>(k: usize) -> SlotBit
    requires { k < C.COUNT }
    ensures { result.bit ≡ C.slots.first + C.slots.bits * k }
{
    SlotBit {
        bit: C::FIRST + C::BITS * k as u8,
    }
}

// Slot k of a frame, and an empty one behind the last.
fn slot_or_none<C: Listed>(f: &[u8], k: usize) -> Slot
    ensures { result ≡ slot_or_none C.slots (frame_in f.now) k }
{
    if k < C::COUNT {
        C::slot(f, starts::<C>(k))
    } else {
        Slot::none()
    }
}

// The slots of a frame, and empty ones up to sixteen. They are written out, and not a loop, since the compiler then knows where each
// field stands: with a loop a frame of tsunami takes a thousand instructions more.
pub fn slots_of<C: Listed>(f: &[u8]) -> [Slot; 16]
    ensures { result ≡ slots_of (frame_in f.now) C.slots }
{
    [
        slot_or_none::<C>(f, 0),
        slot_or_none::<C>(f, 1),
        slot_or_none::<C>(f, 2),
        slot_or_none::<C>(f, 3),
        slot_or_none::<C>(f, 4),
        slot_or_none::<C>(f, 5),
        slot_or_none::<C>(f, 6),
        slot_or_none::<C>(f, 7),
        slot_or_none::<C>(f, 8),
        slot_or_none::<C>(f, 9),
        slot_or_none::<C>(f, 10),
        slot_or_none::<C>(f, 11),
        slot_or_none::<C>(f, 12),
        slot_or_none::<C>(f, 13),
        slot_or_none::<C>(f, 14),
        slot_or_none::<C>(f, 15),
    ]
}

// What is found in the slots. The first one is used; a later one may be empty, and none is used behind an empty one: the gap is
// asked before the fields.
pub fn check_slots<C: Listed>(slots: &[Slot; 16]) -> Result<(), Refusal>
    ensures { result ≡ slots_verdict C.slots (slots_values C.slots slots.now) }
{
    C::check(&slots[0], starts::<C>(0))?;
    let mut gap = false;
    for k in 1..C::COUNT {
        if C::is_empty(&slots[k]) {
            gap = true;
        } else {
            let at = starts::<C>(k);
            unless(!gap, Refusal::Gap(at.bit))?;
            C::check(&slots[k], at)?;
        }
    }
    Ok(())
}
