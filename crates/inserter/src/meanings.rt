// What a number of a record says. No table has a first row for a number that it does not know: such a
// number is told as 0, which is neither a depth, a magnitude, a prefecture, a place, an arrival, a height, a time nor what is
// valid of one. A place that the list does not have may still be one, and is told as 2.
ghost use Rattle.std.specs.Prelude.{◌≡◌};
ghost use Rattle.inserter.specs.Meanings.{depth_answer, magnitude_answer, prefecture_answer, standing_answer, arrival_answer, height_answer, activity_answer, validity_answer, slots_answer};

use ash_fall::meaning::prefecture_of;
use hypocenter::meaning::{Depth, Magnitude};
use place_list::Standing;
use tsunami::meaning::{Arrival, Height};
use volcano::meaning::{ActivityTime, Validity};

// 1 in the second byte and the kilometres, 0 to 500, in the last two; 2 there for deeper than 500 km, 3 for
// unknown; 0 for a code that no depth has.
pub fn lz_depth(code: u16) -> u32
    ensures { result ≡ depth_answer code }
{
    match Depth::of(code) {
        Depth::Kilometres(kilometres) => 0x1_0000 + u32::from(kilometres),
        Depth::Deeper => 0x2_0000,
        Depth::Unknown => 0x3_0000,
        Depth::OutOfRange => 0,
    }
}

// 1 in the second byte and the tenths, 1 to 101, in the last; 2 there for above 8.0 without a moment magnitude,
// 3 for unknown; 0 for a code that no magnitude has.
pub fn lz_magnitude(code: u8) -> u32
    ensures { result ≡ magnitude_answer code }
{
    match Magnitude::of(code) {
        Magnitude::InRange(tenths) => 0x1_0000 + u32::from(tenths),
        Magnitude::UnknownAboveEight => 0x2_0000,
        Magnitude::Unknown => 0x3_0000,
        Magnitude::OutOfRange => 0,
    }
}

// The prefecture, 1 to 47, that a place of a volcano or an ash fall report lies in; 0 where it lies in none.
pub fn lz_prefecture(place: u64) -> u32
    ensures { result ≡ prefecture_answer place }
{
    prefecture_of(place).map_or(0, u32::from)
}

// 1 where the list of places has this one, 2 where it does not but its first digits are those of a prefecture; 0 where it lies
// in none.
pub fn lz_standing(place: u64) -> u32
    ensures { result ≡ standing_answer place }
{
    match Standing::of(place) {
        Standing::Listed => 1,
        Standing::Unlisted => 2,
        Standing::Outside => 0,
    }
}

// 1 in the second byte, the hour, 0 to 23, in the third and the minute, 0 to 59, in the last; 4 there where the
// wave has arrived; 0 for one code without the other, and for numbers that are neither.
pub fn lz_arrival(hour: u8, minute: u8) -> u32
    ensures { result ≡ arrival_answer hour minute }
{
    match Arrival::of(hour, minute) {
        Arrival::At { hour, minute } => 0x1_0000 + u32::from(hour) * 0x100 + u32::from(minute),
        Arrival::Arrived => 0x4_0000,
        Arrival::OutOfRange => 0,
    }
}

// 1 in the second byte and the code in the last; 3 there for unknown; 0 for a code that no height has.
pub fn lz_height(code: u8) -> u32
    ensures { result ≡ height_answer code }
{
    match Height::of(code) {
        Height::Code(code) => 0x1_0000 + u32::from(code),
        Height::Unknown => 0x3_0000,
        Height::OutOfRange => 0,
    }
}

// 1 in the second byte and behind it, in as many bits as they have in a frame, day, hour and minute; 3 there where nobody
// knows when the activity was; 0 for one or two of the codes without the others, and for numbers that are neither.
pub fn lz_activity(day: u8, hour: u8, minute: u8) -> u32
    ensures { result ≡ activity_answer day hour minute }
{
    match ActivityTime::of(day, hour, minute) {
        ActivityTime::At { day, hour, minute } => {
            0x1_0000 + u32::from(day) * 0x800 + u32::from(hour) * 0x40 + u32::from(minute)
        }
        ActivityTime::Unknown => 0x3_0000,
        ActivityTime::OutOfRange => 0,
    }
}

// 1 in the second byte, and in the last how many of day, hour and minute are valid, from the front; 0 for a code that no
// ambiguity has.
pub fn lz_validity(ambiguity: u8) -> u32
    ensures { result ≡ validity_answer ambiguity }
{
    match Validity::of(ambiguity) {
        Validity::DayHourMinute => 0x1_0003,
        Validity::DayHour => 0x1_0002,
        Validity::Day => 0x1_0001,
        Validity::Nothing => 0x1_0000,
        Validity::OutOfRange => 0,
    }
}

// How many slots of a record's 251 bytes are used, 0 to 16: those in front of the first empty one.
#[tactic(auto, using(report::proofs::Reading::Used::few))]
pub fn lz_slots_used(record_bytes: &[u8]) -> u32
    ensures { result ≡ slots_answer record_bytes.now }
{
    record_bytes::unpack(record_bytes).slots_used() as u32
}
