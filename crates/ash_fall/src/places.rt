// The four places on which ash falls.
ghost use Rattle.std.specs.Prelude.{refl};
ghost use Rattle.std.proofs.Common.{rules};
ghost use Rattle.ash_fall.specs.AshFall.{places};

use rows::question::within;
use rows::refusal::Refusal;
use slots::listed::{Listed, SlotBit};
use slots::slot::Slot;

pub struct Places;

impl Listed for Places {
    ghost slots = { places };

    const FIRST: u8 = 83;

    ghost FIRST = { 83 };

    const BITS: u8 = 29;

    ghost BITS = { 29 };

    const COUNT: usize = 4;

    ghost COUNT = { 4 };

    fn slot(f: &[u8], at: SlotBit) -> Slot {
        let first = usize::from(at.bit);
        Slot {
            day: 0,
            hour: bits::field(f, first, 3),
            minute: 0,
            strength: bits::field(f, first + 3, 3),
            place: bits::field(f, first + 6, 23),
        }
    }

    #[tactic(auto, unfolding(rows::specs::Runs::Verdict::empty))]
    fn is_empty(slot: &Slot) -> bool {
        slot.hour == 0 && slot.strength == 0 && slot.place == 0
    }

    #[tactic(auto, using(rows::proofs::Rules::Spans::allowed_one, rows::proofs::Rules::Outcomes::then_fine), unfolding(rows::specs::Runs::Verdict::walk, rows::specs::Runs::Verdict::judge))]
    fn check(slot: &Slot, at: SlotBit) -> Result<(), Refusal> {
        within(at.bit, u64::from(slot.hour), 1, 6)?;
        within(at.bit + 3, u64::from(slot.strength), 1, 7)?;
        within(at.bit + 6, slot.place, 110000, 4799999)
    }

    ghost first = { refl };

    ghost bits = { refl };

    ghost count = { refl };

    ghost one = { Prim.search rules };

    ghost sixteen = { Prim.search rules };

    ghost inside = { Prim.search rules };
}
