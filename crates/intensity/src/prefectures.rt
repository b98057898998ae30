// The sixteen prefectures that shake.
ghost use Rattle.std.specs.Prelude.{refl};
ghost use Rattle.std.proofs.Common.{rules};
ghost use Rattle.intensity.specs.Intensity.{prefectures};

use rows::question::within;
use rows::refusal::Refusal;
use slots::listed::{Listed, SlotBit};
use slots::slot::Slot;

pub struct Prefectures;

impl Listed for Prefectures {
    ghost slots = { prefectures };

    const FIRST: u8 = 69;

    ghost FIRST = { 69 };

    const BITS: u8 = 9;

    ghost BITS = { 9 };

    const COUNT: usize = 16;

    ghost COUNT = { 16 };

    fn slot(f: &[u8], at: SlotBit) -> Slot {
        let first = usize::from(at.bit);
        Slot {
            day: 0,
            hour: 0,
            minute: 0,
            strength: bits::field(f, first, 3),
            place: bits::field(f, first + 3, 6),
        }
    }

    #[tactic(auto, unfolding(rows::specs::Runs::Verdict::empty))]
    fn is_empty(slot: &Slot) -> bool {
        slot.strength == 0 && slot.place == 0
    }

    #[tactic(auto, using(rows::proofs::Rules::Spans::allowed_one, rows::proofs::Rules::Outcomes::then_fine), unfolding(rows::specs::Runs::Verdict::walk, rows::specs::Runs::Verdict::judge))]
    fn check(slot: &Slot, at: SlotBit) -> Result<(), Refusal> {
        within(at.bit, u64::from(slot.strength), 1, 7)?;
        within(at.bit + 3, slot.place, 1, 47)
    }

    ghost first = { refl };

    ghost bits = { refl };

    ghost count = { refl };

    ghost one = { Prim.search rules };

    ghost sixteen = { Prim.search rules };

    ghost inside = { Prim.search rules };
}
