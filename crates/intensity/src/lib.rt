// Category 3, seismic intensity: what stands from bit 43 to bit 213. The prefectures that shake are slots.
#![tactic(auto)]

ghost use Rattle.intensity.specs.Intensity.{intensity, shaking_from, shaking_values};

pub mod prefectures; // its slots

use crate::prefectures::Prefectures;
use category::Category;
use rows::codes::{is_two_or_seven, is_uncorrected};
use rows::common::Common;
use rows::fields::{Fields, Spares, Table};
use rows::question::spare;
use rows::refusal::Refusal;
use rows::time::Time;
use slots::listed::{check_slots, slots_of};
use slots::slot::Slot;

#[derive(Clone, Copy)]
pub struct Shaking {
    pub time: Time,
}

impl Category for Shaking {
    ghost layout = { intensity };

    ghost said = { shaking_from };

    ghost values = { shaking_values };

    fn of(f: &[u8]) -> Shaking {
        Shaking {
            time: Time::at(f, 53),
        }
    }

    fn of_values(front: &[u64; 18], _behind: &[u64; 3]) -> Shaking {
        Shaking {
            time: Time::of_values(front[1], front[2], front[3]),
        }
    }

    fn spares(f: &[u8]) -> Spares {
        Spares {
            first: bits::field(f, 43, 10),
            second: bits::field(f, 213, 1),
        }
    }

    fn slots(f: &[u8]) -> [Slot; 16] {
        slots_of::<Prefectures>(f)
    }

    fn text(_f: &[u8]) -> [u8; 18] {
        [0u8; 18]
    }

    #[tactic(auto, using(rows::proofs::Rules::Walks::body_parts, rows::proofs::Rules::Walks::spare_walk), unfolding(rows::specs::Runs::Verdict::walk, rows::specs::Runs::Verdict::judge))]
    fn check(self, common: Common, slots: &[Slot; 16], spares: Spares) -> Result<(), Refusal> {
        common.check(is_two_or_seven(common.rc), is_uncorrected(common.it))?;
        spare(43, 10, spares.first)?;
        self.time.check(53)?;
        check_slots::<Prefectures>(slots)?;
        spare(213, 1, spares.second)
    }

    fn table() -> Table {
        Table {
            code: 3,
            count: 16,
            widths: [0, 0, 0, 3, 6],
            text: false,
            second: true,
        }
    }

    // The rows in front of the prefectures and behind them.
    fn fields(self, spares: Spares) -> Fields {
        let day = u64::from(self.time.day);
        let hour = u64::from(self.time.hour);
        let minute = u64::from(self.time.minute);
        Fields {
            table: Shaking::table(),
            ahead: [10, 5, 5, 6, 0, 0, 0, 0, 0, 0, 0, 0, 0, 0, 0, 0, 0, 0],
            front: [
                spares.first,
                day,
                hour,
                minute,
                0,
                0,
                0,
                0,
                0,
                0,
                0,
                0,
                0,
                0,
                0,
                0,
                0,
                0,
            ],
            after: [1, 0, 0],
            behind: [spares.second, 0, 0],
        }
    }
}
