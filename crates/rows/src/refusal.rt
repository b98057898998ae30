// Why a call is refused: a variant for each row of document 01, "What each number says", and for what document 02 adds. A place is
// the first bit of the field or slot that is meant, a value what was found in that field.
ghost use Rattle.std.specs.Prelude.{◌≡◌};
ghost use Rattle.rows.specs.Refusals.{plain, at, says};

#[derive(Clone, Copy)]
pub enum Refusal {
    Length, // 1
    Padding, // 2
    Preamble, // 3
    Parity, // 4
    Message, // 5
    Version, // 6
    Category, // 7
    Range { place: u8, value: u64 }, // 8: the value may be that of a spare, in a record of 64 bits
    Gap(u8), // 10: 9 was given for a spare that is not zero, and is not used again
    Unused, // 11
    NoPage, // 12
    OtherBulletin, // 13
    Unsound, // 14
    NotHeld { page: u8, mark: u8 }, // 15: the mark is 1 or 2, as `WhyNotTold` states it and C is told it
    Short, // 16
    Line, // 17
    Sentence, // 18
    Checksum, // 19
    Satellite, // 20
}

// What is said of a refusal: its number, and its place, value, page and mark. What its row does not
// name is zero. These are numbers, and zeros where an option would be plainer, since document 01 numbers the answers and
// C is told them in one word.
#[derive(Clone, Copy)]
pub struct Said {
    pub number: u8,
    pub place: u8,
    pub value: u64,
    pub page: u8,
    pub mark: u8,
}

impl Said {
    fn plain(number: u8) -> Said
        ensures { result ≡ plain number }
    {
        Said {
            number: number,
            place: 0,
            value: 0,
            page: 0,
            mark: 0,
        }
    }

    fn at(number: u8, place: u8, value: u64) -> Said
        ensures { result ≡ at number place value }
    {
        Said {
            number: number,
            place: place,
            value: value,
            page: 0,
            mark: 0,
        }
    }
}

impl Refusal {
    // What is said of this refusal.
    pub fn says(self) -> Said
        ensures { result ≡ says self }
    {
        match self {
            Refusal::Length => Said::plain(1),
            Refusal::Padding => Said::plain(2),
            Refusal::Preamble => Said::plain(3),
            Refusal::Parity => Said::plain(4),
            Refusal::Message => Said::plain(5),
            Refusal::Version => Said::plain(6),
            Refusal::Category => Said::plain(7),
            Refusal::Range { place, value } => Said::at(8, place, value),
            Refusal::Gap(place) => Said::at(10, place, 0),
            Refusal::Unused => Said::plain(11),
            Refusal::NoPage => Said::plain(12),
            Refusal::OtherBulletin => Said::plain(13),
            Refusal::Unsound => Said::plain(14),
            Refusal::NotHeld { page, mark } => Said {
                number: 15,
                place: 0,
                value: 0,
                page: page,
                mark: mark,
            },
            Refusal::Short => Said::plain(16),
            Refusal::Line => Said::plain(17),
            Refusal::Sentence => Said::plain(18),
            Refusal::Checksum => Said::plain(19),
            Refusal::Satellite => Said::plain(20),
        }
    }
}
