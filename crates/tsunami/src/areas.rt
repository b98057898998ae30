// The five areas that a wave reaches.
ghost use Rattle.std.specs.Prelude.{refl};
ghost use Rattle.std.proofs.Common.{rules};
ghost use Rattle.tsunami.specs.Tsunami.{areas};

use crate::meaning::has_arrived;
use rows::question::{in_group, within};
use rows::refusal::Refusal;
use slots::listed::{Listed, SlotBit};
use slots::slot::Slot;

pub struct Areas;

impl Listed for Areas {
    ghost slots = { areas };

    const FIRST: u8 = 84;

    ghost FIRST = { 84 };

    const BITS: u8 = 26;

    ghost BITS = { 26 };

    const COUNT: usize = 5;

    ghost COUNT = { 5 };

    fn slot(f: &[u8], at: SlotBit) -> Slot {
        let first = usize::from(at.bit);
        Slot {
            day: bits::field(f, first, 1),
            hour: bits::field(f, first + 1, 5),
            minute: bits::field(f, first + 6, 6),
            strength: bits::field(f, first + 12, 4),
            place: bits::field(f, first + 16, 10),
        }
    }

    // An area has all fields of a slot: the day bit alone makes it used.
    fn is_empty(slot: &Slot) -> bool {
        slot.is_empty()
    }

    // Hour and minute are a group, the day is no part of it.
    #[tactic(auto, using(rows::proofs::Rules::Spans::allowed_one, rows::proofs::Rules::Outcomes::then_fine), unfolding(rows::specs::Runs::Verdict::walk, rows::specs::Runs::Verdict::judge))]
    fn check(slot: &Slot, at: SlotBit) -> Result<(), Refusal> {
        let arrived = has_arrived(slot.hour, slot.minute);
        within(at.bit, u64::from(slot.day), 0, 1)?;
        in_group(at.bit + 1, u64::from(slot.hour), 0, 23, arrived)?;
        in_group(at.bit + 6, u64::from(slot.minute), 0, 59, arrived)?;
        within(at.bit + 12, u64::from(slot.strength), 1, 15)?;
        within(at.bit + 16, slot.place, 100, 1000)
    }

    ghost first = { refl };

    ghost bits = { refl };

    ghost count = { refl };

    ghost one = { Prim.search rules };

    ghost sixteen = { Prim.search rules };

    ghost inside = { Prim.search rules };
}
