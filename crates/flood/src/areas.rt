// The three areas for which a flood is told.
ghost use Rattle.std.specs.Prelude.{refl};
ghost use Rattle.std.proofs.Common.{rules};
ghost use Rattle.flood.specs.Flood.{areas};

use rows::question::within;
use rows::refusal::Refusal;
use slots::listed::{Listed, SlotBit};
use slots::slot::Slot;

pub struct Areas;

// A region has forty bits.
impl Listed for Areas {
    ghost slots = { areas };

    const FIRST: u8 = 53;

    ghost FIRST = { 53 };

    const BITS: u8 = 44;

    ghost BITS = { 44 };

    const COUNT: usize = 3;

    ghost COUNT = { 3 };

    fn slot(f: &[u8], at: SlotBit) -> Slot {
        let first = usize::from(at.bit);
        Slot {
            day: 0,
            hour: 0,
            minute: 0,
            strength: bits::field(f, first, 4),
            place: bits::field(f, first + 4, 40),
        }
    }

    #[tactic(auto, unfolding(rows::specs::Runs::Verdict::empty))]
    fn is_empty(slot: &Slot) -> bool {
        slot.strength == 0 && slot.place == 0
    }

    #[tactic(auto, using(rows::proofs::Rules::Spans::allowed_one, rows::proofs::Rules::Outcomes::then_fine), unfolding(rows::specs::Runs::Verdict::walk, rows::specs::Runs::Verdict::judge))]
    fn check(slot: &Slot, at: SlotBit) -> Result<(), Refusal> {
        within(at.bit, u64::from(slot.strength), 1, 15)?;
        within(at.bit + 4, slot.place, 10175000100, 899999999999)
    }

    ghost first = { refl };

    ghost bits = { refl };

    ghost count = { refl };

    ghost one = { Prim.search rules };

    ghost sixteen = { Prim.search rules };

    ghost inside = { Prim.search rules };
}
