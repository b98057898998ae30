// What the arrival and the height of an area say. Codes that are no hour and no height have names of their own, and
// numbers that say nothing are told as such.
ghost use Rattle.std.specs.Prelude.{◌≡◌};
ghost use Rattle.tsunami.specs.Meaning.{arrived, arrival_of, height_of};

// Hour 31 with minute 63: the wave is there.
pub(crate) fn has_arrived(hour: u8, minute: u8) -> bool
    ensures { result ≡ arrived hour minute }
{
    hour == 31 && minute == 63
}

#[derive(Clone, Copy)]
pub enum Arrival {
    // An hour from 0 to 23 and a minute from 0 to 59.
    At { hour: u8, minute: u8 },
    Arrived,
    // One code without the other, or a number that is neither.
    OutOfRange,
}

impl Arrival {
    #[tactic(auto, unfolding(crate::specs::Meaning::arrival_of))]
    pub fn of(hour: u8, minute: u8) -> Arrival
        ensures { result ≡ arrival_of hour minute }
    {
        if has_arrived(hour, minute) {
            Arrival::Arrived
        } else if hour <= 23 && minute <= 59 {
            Arrival::At { hour, minute }
        } else {
            Arrival::OutOfRange
        }
    }
}

#[derive(Clone, Copy)]
pub enum Height {
    // 1 to 13, and 15: the code says how high by the standard's own table.
    Code(u8),
    // 14.
    Unknown,
    OutOfRange,
}

impl Height {
    #[tactic(auto, unfolding(crate::specs::Meaning::height_of))]
    pub fn of(code: u8) -> Height
        ensures { result ≡ height_of code }
    {
        match code {
            14 => Height::Unknown,
            1..=15 => Height::Code(code),
            _ => Height::OutOfRange,
        }
    }
}
