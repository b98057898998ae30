// What the table of a category says, and the fields of a record in its order, as numbers.
ghost use Rattle.std.specs.Prelude.{◌≡◌};
ghost use Rattle.rows.specs.Values.{no_spares};

// The category's code, 0 for none; how many slots it has, and how many bits the day, hour, minute, strength and
// place of one have; whether it has text, and a second spare.
#[derive(Clone, Copy)]
pub struct Table {
    pub code: u8,
    pub count: usize,
    pub widths: [u8; 5],
    pub text: bool,
    pub second: bool,
}

// The fields in front of the slots and behind them, spares among them, one behind the other, each list with
// its widths before it. Behind the last field there are no bits and no numbers. Widths are no part of the values: a record's
// bytes are read by the widths of a body that has no values yet.
#[derive(Clone, Copy)]
pub struct Fields {
    pub table: Table,
    pub ahead: [u8; 18],
    pub front: [u64; 18],
    pub after: [u8; 3],
    pub behind: [u64; 3],
}

// The bits of a frame that nobody knows yet: Spare1 in front of a category's fields and Spare2 behind them, 0
// where a category has none. A later edition may put a field there, so they are kept as they are.
#[derive(Clone, Copy)]
pub struct Spares {
    pub first: u64,
    pub second: u64,
}

impl Spares {
    pub fn none() -> Spares
        ensures { result ≡ no_spares }
    {
        Spares {
            first: 0,
            second: 0,
        }
    }
}
