// What the time of an activity says, and how much of it its ambiguity leaves valid. A time that nobody knows has a name of
// its own, and numbers that say nothing are told as such.
ghost use Rattle.std.specs.Prelude.{◌≡◌};
ghost use Rattle.volcano.specs.Meaning.{unknown, activity_time_of, validity_of};

// Day 0, hour 31 and minute 63: nobody knows when it was.
pub(crate) fn is_unknown(day: u8, hour: u8, minute: u8) -> bool
    ensures { result ≡ unknown day hour minute }
{
    day == 0 && hour == 31 && minute == 63
}

#[derive(Clone, Copy)]
pub enum ActivityTime {
    // A day from 1 to 31, an hour from 0 to 23 and a minute from 0 to 59.
    At { day: u8, hour: u8, minute: u8 },
    Unknown,
    // One or two of the codes without the others, or a number that is neither.
    OutOfRange,
}

impl ActivityTime {
    #[tactic(auto, unfolding(crate::specs::Meaning::activity_time_of))]
    pub fn of(day: u8, hour: u8, minute: u8) -> ActivityTime
        ensures { result ≡ activity_time_of day hour minute }
    {
        if is_unknown(day, hour, minute) {
            ActivityTime::Unknown
        } else if 1 <= day && day <= 31 && hour <= 23 && minute <= 59 {
            ActivityTime::At { day, hour, minute }
        } else {
            ActivityTime::OutOfRange
        }
    }
}

// What of day, hour and minute is valid.
#[derive(Clone, Copy)]
pub enum Validity {
    DayHourMinute,
    DayHour,
    Day,
    Nothing,
    // No ambiguity has this code.
    OutOfRange,
}

impl Validity {
    #[tactic(auto, unfolding(crate::specs::Meaning::validity_of))]
    pub fn of(ambiguity: u8) -> Validity
        ensures { result ≡ validity_of ambiguity }
    {
        match ambiguity {
            0..=3 => Validity::DayHourMinute,
            4 => Validity::DayHour,
            5 => Validity::Day,
            6 | 7 => Validity::Nothing,
            _ => Validity::OutOfRange,
        }
    }
}
