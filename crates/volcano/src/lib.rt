// Category 8, volcano: what stands from bit 43 to bit 213. Its places are slots.
#![tactic(auto)]

ghost use Rattle.std.specs.Prelude.{◌≡◌, []};
ghost use Rattle.rows.specs.Runs.Verdict.{walk};
ghost use Rattle.volcano.specs.Volcano.{activity_from, activity_values, volcano};

pub mod meaning; // what an activity time and its ambiguity say
pub mod places; // its slots

use crate::meaning::is_unknown;
use crate::places::Places;
use bits::Number;
use category::Category;
use rows::codes::{is_corrected, is_two_three_or_seven};
use rows::common::Common;
use rows::fields::{Fields, Spares, Table};
use rows::question::{in_group, spare, within};
use rows::refusal::Refusal;
use rows::time::Time;
use slots::listed::{check_slots, slots_of};
use slots::slot::Slot;

// What a volcano did, when, and how well that is known.
#[derive(Clone, Copy)]
pub struct Activity {
    pub ambiguity: u8,
    pub time: Time,
    pub warning: u8,
    pub volcano: u16,
}

impl Activity {
    // What is found in front of the places. Day, hour and minute are a group, the ambiguity is no part of it.
    #[tactic(auto, using(rows::proofs::Rules::Spans::allowed_one, rows::proofs::Rules::Outcomes::then_fine, crate::proofs::Codes::seen_by_the_hour, crate::proofs::Codes::seen_by_the_minute), unfolding(rows::specs::Runs::Verdict::walk, rows::specs::Runs::Verdict::judge))]
    fn front(self, spares: Spares) -> Result<(), Refusal>
        ensures { result ≡ walk [] volcano.front (activity_values self spares).front }
    {
        let Time { day, hour, minute } = self.time;
        let unknown = is_unknown(day, hour, minute);
        spare(43, 7, spares.first)?;
        within(50, u64::from(self.ambiguity), 0, 7)?;
        in_group(53, u64::from(day), 1, 31, unknown)?;
        in_group(58, u64::from(hour), 0, 23, unknown)?;
        in_group(63, u64::from(minute), 0, 59, unknown)?;
        within(69, u64::from(self.warning), 1, 127)?;
        within(76, u64::from(self.volcano), 101, 4000)
    }
}

impl Category for Activity {
    ghost layout = { volcano };

    ghost said = { activity_from };

    ghost values = { activity_values };

    fn of(f: &[u8]) -> Activity {
        Activity {
            ambiguity: bits::field(f, 50, 3),
            time: Time::at(f, 53),
            warning: bits::field(f, 69, 7),
            volcano: bits::field(f, 76, 12),
        }
    }

    fn of_values(front: &[u64; 18], _behind: &[u64; 3]) -> Activity {
        Activity {
            ambiguity: u8::lowest(front[1]),
            time: Time::of_values(front[2], front[3], front[4]),
            warning: u8::lowest(front[5]),
            volcano: u16::lowest(front[6]),
        }
    }

    // The first is shorter than elsewhere: the ambiguity stands behind it.
    fn spares(f: &[u8]) -> Spares {
        Spares {
            first: bits::field(f, 43, 7),
            second: bits::field(f, 203, 11),
        }
    }

    fn slots(f: &[u8]) -> [Slot; 16] {
        slots_of::<Places>(f)
    }

    fn text(_f: &[u8]) -> [u8; 18] {
        [0u8; 18]
    }

    #[tactic(auto, using(rows::proofs::Rules::Walks::body_parts, rows::proofs::Rules::Walks::spare_walk))]
    fn check(self, common: Common, slots: &[Slot; 16], spares: Spares) -> Result<(), Refusal> {
        common.check(is_two_three_or_seven(common.rc), is_corrected(common.it))?;
        self.front(spares)?;
        check_slots::<Places>(slots)?;
        spare(203, 11, spares.second)
    }

    fn table() -> Table {
        Table {
            code: 8,
            count: 5,
            widths: [0, 0, 0, 0, 23],
            text: false,
            second: true,
        }
    }

    // The rows in front of the places and behind them.
    fn fields(self, spares: Spares) -> Fields {
        let ambiguity = u64::from(self.ambiguity);
        let day = u64::from(self.time.day);
        let hour = u64::from(self.time.hour);
        let minute = u64::from(self.time.minute);
        let warning = u64::from(self.warning);
        let volcano = u64::from(self.volcano);
        Fields {
            table: Activity::table(),
            ahead: [7, 3, 5, 5, 6, 7, 12, 0, 0, 0, 0, 0, 0, 0, 0, 0, 0, 0],
            front: [
                spares.first,
                ambiguity,
                day,
                hour,
                minute,
                warning,
                volcano,
                0,
                0,
                0,
                0,
                0,
                0,
                0,
                0,
                0,
                0,
                0,
            ],
            after: [11, 0, 0],
            behind: [spares.second, 0, 0],
        }
    }
}
