// Category 2, hypocenter: what stands from bit 43 to bit 213.
#![tactic(auto)]

ghost use Rattle.std.specs.Prelude.{◌≡◌};
ghost use Rattle.hypocenter.specs.Hypocenter.{hypocenter, quake_from, quake_values};
ghost use Rattle.hypocenter.specs.Runs.{front_verdict};

pub mod meaning; // what the numbers say
mod codes; // which values a field may hold
pub mod angle; // a latitude or a longitude

use crate::angle::Angle;
use crate::codes::{is_depth, is_magnitude};
use bits::Number;
use category::Category;
use rows::codes::{is_two_or_seven, is_uncorrected, notification};
use rows::common::Common;
use rows::fields::{Fields, Spares, Table};
use rows::question::{ranged, spare, within};
use rows::refusal::Refusal;
use rows::time::Time;
use slots::slot::Slot;

// What its depth and its magnitude say is told by `Depth::of` and `Magnitude::of`.
#[derive(Clone, Copy)]
pub struct Quake {
    pub notification1: u16,
    pub notification2: u16,
    pub notification3: u16,
    pub time: Time,
    pub depth: u16,
    pub magnitude: u8,
    pub epicenter: u16,
    pub latitude: Angle,
    pub longitude: Angle,
}

impl Quake {
    // What is found in the rows in front.
    #[tactic(auto, using(rows::proofs::Rules::Spans::allowed_one, rows::proofs::Rules::Outcomes::then_fine, rows::proofs::Rules::Outcomes::then_assoc), unfolding(crate::specs::Runs::front_verdict, rows::specs::Runs::Verdict::walk, rows::specs::Runs::Verdict::judge))]
    fn check_front(self, spares: Spares) -> Result<(), Refusal>
        ensures { result ≡ front_verdict self spares }
    {
        spare(43, 10, spares.first)?;
        notification(53, self.notification1)?;
        notification(62, self.notification2)?;
        notification(71, self.notification3)?;
        self.time.check(80)?;
        ranged(96, u64::from(self.depth), is_depth(self.depth))?;
        ranged(105, u64::from(self.magnitude), is_magnitude(self.magnitude))?;
        within(112, u64::from(self.epicenter), 11, 1000)?;
        self.latitude.check(122, 7, 89)?;
        self.longitude.check(142, 8, 179)
    }

    // The rows in front as numbers, in the order of the table.
    fn front(self, spares: Spares) -> [u64; 18]
        ensures { result ≡ (quake_values self spares).front }
    {
        let time = self.time;
        let latitude = self.latitude;
        let longitude = self.longitude;
        [
            spares.first,
            u64::from(self.notification1),
            u64::from(self.notification2),
            u64::from(self.notification3),
            u64::from(time.day),
            u64::from(time.hour),
            u64::from(time.minute),
            u64::from(self.depth),
            u64::from(self.magnitude),
            u64::from(self.epicenter),
            u64::from(latitude.side),
            u64::from(latitude.degrees),
            u64::from(latitude.minutes),
            u64::from(latitude.seconds),
            u64::from(longitude.side),
            u64::from(longitude.degrees),
            u64::from(longitude.minutes),
            u64::from(longitude.seconds),
        ]
    }
}

impl Category for Quake {
    ghost layout = { hypocenter };

    ghost said = { quake_from };

    ghost values = { quake_values };

    fn of(f: &[u8]) -> Quake {
        Quake {
            notification1: bits::field(f, 53, 9),
            notification2: bits::field(f, 62, 9),
            notification3: bits::field(f, 71, 9),
            time: Time::at(f, 80),
            depth: bits::field(f, 96, 9),
            magnitude: bits::field(f, 105, 7),
            epicenter: bits::field(f, 112, 10),
            latitude: Angle::at(f, 122, 7),
            longitude: Angle::at(f, 142, 8),
        }
    }

    fn of_values(front: &[u64; 18], _behind: &[u64; 3]) -> Quake {
        Quake {
            notification1: u16::lowest(front[1]),
            notification2: u16::lowest(front[2]),
            notification3: u16::lowest(front[3]),
            time: Time::of_values(front[4], front[5], front[6]),
            depth: u16::lowest(front[7]),
            magnitude: u8::lowest(front[8]),
            epicenter: u16::lowest(front[9]),
            latitude: Angle::of_values(front[10], front[11], front[12], front[13]),
            longitude: Angle::of_values(front[14], front[15], front[16], front[17]),
        }
    }

    fn spares(f: &[u8]) -> Spares {
        Spares {
            first: bits::field(f, 43, 10),
            second: bits::field(f, 163, 51),
        }
    }

    #[tactic(auto, unfolding(slots::specs::Slots::slots_of))]
    fn slots(_f: &[u8]) -> [Slot; 16] {
        [Slot::none(); 16]
    }

    fn text(_f: &[u8]) -> [u8; 18] {
        [0u8; 18]
    }

    fn check(self, common: Common, _slots: &[Slot; 16], spares: Spares) -> Result<(), Refusal> {
        common.check(is_two_or_seven(common.rc), is_uncorrected(common.it))?;
        self.check_front(spares)?;
        spare(163, 51, spares.second)
    }

    fn table() -> Table {
        Table {
            code: 2,
            count: 0,
            widths: [0, 0, 0, 0, 0],
            text: false,
            second: true,
        }
    }

    fn fields(self, spares: Spares) -> Fields {
        Fields {
            table: Quake::table(),
            ahead: [10, 9, 9, 9, 5, 5, 6, 9, 7, 10, 1, 7, 6, 6, 1, 8, 6, 6],
            front: self.front(spares),
            after: [51, 0, 0],
            behind: [spares.second, 0, 0],
        }
    }
}
