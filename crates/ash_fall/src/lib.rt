// Category 9, ash fall: what stands from bit 43 to bit 213. Its places are slots.
#![tactic(auto)]

ghost use Rattle.ash_fall.specs.AshFall.{ash_fall, eruption_from, eruption_values};

pub mod meaning; // what a place says
pub mod places; // its slots

use crate::places::Places;
use bits::Number;
use category::Category;
use rows::codes::{is_corrected, is_two_or_seven};
use rows::common::Common;
use rows::fields::{Fields, Spares, Table};
use rows::question::{spare, within};
use rows::refusal::Refusal;
use rows::time::Time;
use slots::listed::{check_slots, slots_of};
use slots::slot::Slot;

#[derive(Clone, Copy)]
pub struct Eruption {
    pub time: Time,
    pub warning: u8,
    pub volcano: u16,
}

impl Category for Eruption {
    ghost layout = { ash_fall };

    ghost said = { eruption_from };

    ghost values = { eruption_values };

    fn of(f: &[u8]) -> Eruption {
        Eruption {
            time: Time::at(f, 53),
            warning: bits::field(f, 69, 2),
            volcano: bits::field(f, 71, 12),
        }
    }

    fn of_values(front: &[u64; 18], _behind: &[u64; 3]) -> Eruption {
        Eruption {
            time: Time::of_values(front[1], front[2], front[3]),
            warning: u8::lowest(front[4]),
            volcano: u16::lowest(front[5]),
        }
    }

    fn spares(f: &[u8]) -> Spares {
        Spares {
            first: bits::field(f, 43, 10),
            second: bits::field(f, 199, 15),
        }
    }

    fn slots(f: &[u8]) -> [Slot; 16] {
        slots_of::<Places>(f)
    }

    fn text(_f: &[u8]) -> [u8; 18] {
        [0u8; 18]
    }

    #[tactic(auto, using(rows::proofs::Rules::Walks::body_parts, rows::proofs::Rules::Walks::spare_walk, rows::proofs::Rules::Spans::allowed_one), unfolding(rows::specs::Runs::Verdict::walk, rows::specs::Runs::Verdict::judge))]
    fn check(self, common: Common, slots: &[Slot; 16], spares: Spares) -> Result<(), Refusal> {
        common.check(is_two_or_seven(common.rc), is_corrected(common.it))?;
        spare(43, 10, spares.first)?;
        self.time.check(53)?;
        within(69, u64::from(self.warning), 1, 2)?;
        within(71, u64::from(self.volcano), 101, 4000)?;
        check_slots::<Places>(slots)?;
        spare(199, 15, spares.second)
    }

    fn table() -> Table {
        Table {
            code: 9,
            count: 4,
            widths: [0, 3, 0, 3, 23],
            text: false,
            second: true,
        }
    }

    // The rows in front of the places and behind them.
    fn fields(self, spares: Spares) -> Fields {
        let day = u64::from(self.time.day);
        let hour = u64::from(self.time.hour);
        let minute = u64::from(self.time.minute);
        let warning = u64::from(self.warning);
        let volcano = u64::from(self.volcano);
        Fields {
            table: Eruption::table(),
            ahead: [10, 5, 5, 6, 2, 12, 0, 0, 0, 0, 0, 0, 0, 0, 0, 0, 0, 0],
            front: [
                spares.first,
                day,
                hour,
                minute,
                warning,
                volcano,
                0,
                0,
                0,
                0,
                0,
                0,
                0,
                0,
                0,
                0,
                0,
                0,
            ],
            after: [15, 0, 0],
            behind: [spares.second, 0, 0],
        }
    }
}
