// What the numbers of a hypocenter say: codes that are no measure have names of their own, and a number
// that says nothing is told as such.
ghost use Rattle.std.specs.Prelude.{◌≡◌};
ghost use Rattle.hypocenter.specs.Hypocenter.{depth_of, magnitude_of};

#[derive(Clone, Copy)]
pub enum Depth {
    // Kilometres, 0 to 500.
    Kilometres(u16),
    // 501: deeper than 500 km.
    Deeper,
    // 511.
    Unknown,
    OutOfRange,
}

impl Depth {
    #[tactic(auto, unfolding(crate::specs::Hypocenter::depth_of))]
    pub fn of(code: u16) -> Depth
        ensures { result ≡ depth_of code }
    {
        match code {
            0..=500 => Depth::Kilometres(code),
            501 => Depth::Deeper,
            511 => Depth::Unknown,
            _ => Depth::OutOfRange,
        }
    }
}

#[derive(Clone, Copy)]
pub enum Magnitude {
    // In tenths, 1 to 101; 101 says more than 10.0.
    InRange(u8),
    // 126: above 8.0, and no moment magnitude is known.
    UnknownAboveEight,
    // 127.
    Unknown,
    OutOfRange,
}

impl Magnitude {
    #[tactic(auto, unfolding(crate::specs::Hypocenter::magnitude_of))]
    pub fn of(code: u8) -> Magnitude
        ensures { result ≡ magnitude_of code }
    {
        match code {
            1..=101 => Magnitude::InRange(code),
            126 => Magnitude::UnknownAboveEight,
            127 => Magnitude::Unknown,
            _ => Magnitude::OutOfRange,
        }
    }
}
