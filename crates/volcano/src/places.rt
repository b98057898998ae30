// The five places that a report names.
ghost use Rattle.std.specs.Prelude.{refl};
ghost use Rattle.std.proofs.Common.{rules};
ghost use Rattle.volcano.specs.Volcano.{places};

use rows::question::within;
use rows::refusal::Refusal;
use slots::listed::{Listed, SlotBit};
use slots::slot::Slot;

pub struct Places;

impl Listed for Places {
    ghost slots = { places };

    const FIRST: u8 = 88;

    ghost FIRST = { 88 };

    const BITS: u8 = 23;

    ghost BITS = { 23 };

    const COUNT: usize = 5;

    ghost COUNT = { 5 };

    fn slot(f: &[u8], at: SlotBit) -> Slot {
        Slot {
            day: 0,
            hour: 0,
            minute: 0,
            strength: 0,
            place: bits::field(f, usize::from(at.bit), 23),
        }
    }

    #[tactic(auto, unfolding(rows::specs::Runs::Verdict::empty))]
    fn is_empty(slot: &Slot) -> bool {
        slot.place == 0
    }

    #[tactic(auto, using(rows::proofs::Rules::Spans::allowed_one, rows::proofs::Rules::Outcomes::then_fine), unfolding(rows::specs::Runs::Verdict::walk, rows::specs::Runs::Verdict::judge))]
    fn check(slot: &Slot, at: SlotBit) -> Result<(), Refusal> {
        within(at.bit, slot.place, 110000, 4799999)
    }

    ghost first = { refl };

    ghost bits = { refl };

    ghost count = { refl };

    ghost one = { Prim.search rules };

    ghost sixteen = { Prim.search rules };

    ghost inside = { Prim.search rules };
}
