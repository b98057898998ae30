// Category 5, tsunami: what stands from bit 43 to bit 213. Its areas are slots, and nothing stands behind them.
#![tactic(auto)]

ghost use Rattle.std.specs.Prelude.{◌≡◌};
ghost use Rattle.rows.specs.Runs.Verdict.{allowed};
ghost use Rattle.tsunami.specs.Tsunami.{classifications, tsunami, warning_from, warning_values};

pub mod meaning; // what the arrival and the height of an area say
pub mod areas; // its slots

use crate::areas::Areas;
use bits::Number;
use category::Category;
use rows::codes::{is_uncorrected, notification};
use rows::common::Common;
use rows::fields::{Fields, Spares, Table};
use rows::question::{spare, within};
use rows::refusal::Refusal;
use slots::listed::{check_slots, slots_of};
use slots::slot::Slot;

// Its own Rc: maximum priority, regular, or training.
#[tactic(auto, unfolding(rows::specs::Runs::Verdict::allowed))]
fn is_classification(v: u8) -> bool
    ensures { result ≡ allowed classifications v }
{
    matches!(v, 1 | 3 | 7)
}

// What is warned of, and what people are told to do.
#[derive(Clone, Copy)]
pub struct Warning {
    pub notification1: u16,
    pub notification2: u16,
    pub notification3: u16,
    pub code: u8,
}

impl Category for Warning {
    ghost layout = { tsunami };

    ghost said = { warning_from };

    ghost values = { warning_values };

    fn of(f: &[u8]) -> Warning {
        Warning {
            notification1: bits::field(f, 53, 9),
            notification2: bits::field(f, 62, 9),
            notification3: bits::field(f, 71, 9),
            code: bits::field(f, 80, 4),
        }
    }

    fn of_values(front: &[u64; 18], _behind: &[u64; 3]) -> Warning {
        Warning {
            notification1: u16::lowest(front[1]),
            notification2: u16::lowest(front[2]),
            notification3: u16::lowest(front[3]),
            code: u8::lowest(front[4]),
        }
    }

    // It has one alone.
    fn spares(f: &[u8]) -> Spares {
        Spares {
            first: bits::field(f, 43, 10),
            second: 0,
        }
    }

    fn slots(f: &[u8]) -> [Slot; 16] {
        slots_of::<Areas>(f)
    }

    fn text(_f: &[u8]) -> [u8; 18] {
        [0u8; 18]
    }

    #[tactic(auto, using(rows::proofs::Rules::Walks::body_parts, rows::proofs::Rules::Spans::allowed_one), unfolding(rows::specs::Runs::Verdict::walk, rows::specs::Runs::Verdict::judge))]
    fn check(self, common: Common, slots: &[Slot; 16], spares: Spares) -> Result<(), Refusal> {
        common.check(is_classification(common.rc), is_uncorrected(common.it))?;
        spare(43, 10, spares.first)?;
        notification(53, self.notification1)?;
        notification(62, self.notification2)?;
        notification(71, self.notification3)?;
        within(80, u64::from(self.code), 1, 15)?;
        check_slots::<Areas>(slots)
    }

    fn table() -> Table {
        Table {
            code: 5,
            count: 5,
            widths: [1, 5, 6, 4, 10],
            text: false,
            second: false,
        }
    }

    // The rows in front of the areas.
    fn fields(self, spares: Spares) -> Fields {
        let first = u64::from(self.notification1);
        let second = u64::from(self.notification2);
        let third = u64::from(self.notification3);
        let code = u64::from(self.code);
        Fields {
            table: Warning::table(),
            ahead: [10, 9, 9, 9, 4, 0, 0, 0, 0, 0, 0, 0, 0, 0, 0, 0, 0, 0],
            front: [
                spares.first,
                first,
                second,
                third,
                code,
                0,
                0,
                0,
                0,
                0,
                0,
                0,
                0,
                0,
                0,
                0,
                0,
                0,
            ],
            after: [0, 0, 0],
            behind: [0, 0, 0],
        }
    }
}
