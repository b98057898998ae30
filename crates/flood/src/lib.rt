// Category 11, flood: what stands from bit 43 to bit 213. Its areas are slots, and beside them it has nothing but spares.
#![tactic(auto)]

ghost use Rattle.flood.specs.Flood.{flood, flood_sides};

pub mod areas; // its slots

use crate::areas::Areas;
use category::Category;
use rows::codes::{is_corrected, is_two_three_or_seven};
use rows::common::Common;
use rows::fields::{Fields, Spares, Table};
use rows::question::spare;
use rows::refusal::Refusal;
use slots::listed::{check_slots, slots_of};
use slots::slot::Slot;

// What it has beside its slots: nothing.
#[derive(Clone, Copy)]
pub struct Flood;

impl Category for Flood {
    ghost layout = { flood };

    ghost said = { λ v. record {} };

    ghost values = { λ b z. flood_sides z };

    fn of(_f: &[u8]) -> Flood {
        Flood
    }

    fn of_values(_front: &[u64; 18], _behind: &[u64; 3]) -> Flood {
        Flood
    }

    fn spares(f: &[u8]) -> Spares {
        Spares {
            first: bits::field(f, 43, 10),
            second: bits::field(f, 185, 29),
        }
    }

    fn slots(f: &[u8]) -> [Slot; 16] {
        slots_of::<Areas>(f)
    }

    fn text(_f: &[u8]) -> [u8; 18] {
        [0u8; 18]
    }

    #[tactic(auto, using(rows::proofs::Rules::Walks::body_parts, rows::proofs::Rules::Walks::spare_walk))]
    fn check(self, common: Common, slots: &[Slot; 16], spares: Spares) -> Result<(), Refusal> {
        common.check(is_two_three_or_seven(common.rc), is_corrected(common.it))?;
        spare(43, 10, spares.first)?;
        check_slots::<Areas>(slots)?;
        spare(185, 29, spares.second)
    }

    fn table() -> Table {
        Table {
            code: 11,
            count: 3,
            widths: [0, 0, 0, 4, 40],
            text: false,
            second: true,
        }
    }

    // The spares.
    fn fields(self, spares: Spares) -> Fields {
        Fields {
            table: Flood::table(),
            ahead: [10, 0, 0, 0, 0, 0, 0, 0, 0, 0, 0, 0, 0, 0, 0, 0, 0, 0],
            front: [
                spares.first,
                0,
                0,
                0,
                0,
                0,
                0,
                0,
                0,
                0,
                0,
                0,
                0,
                0,
                0,
                0,
                0,
                0,
            ],
            after: [29, 0, 0],
            behind: [spares.second, 0, 0],
        }
    }
}
