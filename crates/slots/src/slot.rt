// One slot: what it holds, and whether that is nothing.
ghost use Rattle.std.specs.Prelude.{◌≡◌, cond, true, eqb};
ghost use Rattle.rows.specs.Runs.Verdict.{empty};
ghost use Rattle.slots.specs.Slots.{no_slot, slot_parts, vacant};

// A place that a report names: when, how strong, and where. A category need not have all of it: in an
// intensity report `strength` is the intensity and `place` the prefecture, in a tsunami report they are height
// and region, in a flood report level and region. What a category does not have is zero.
#[derive(Clone, Copy)]
pub struct Slot {
    pub day: u8,
    pub hour: u8,
    pub minute: u8,
    pub strength: u8,
    pub place: u64,
}

// The value is zero, where it has no bits.
fn is_held(width: u8, value: u64) -> bool
    ensures { result ≡ cond (eqb width 0) (eqb value 0) true }
{
    width != 0 || value == 0
}

// Nothing stands in the fields of which no bit is on the wire.
pub(crate) fn is_vacant(widths: &[u8; 5], values: &[u64; 5]) -> bool
    ensures { result ≡ vacant widths.now values.now }
{
    for i in 0..5 {
        if !is_held(widths[i], values[i]) {
            return false;
        }
    }
    true
}

impl Slot {
    pub fn none() -> Slot
        ensures { result ≡ no_slot }
    {
        Slot {
            day: 0,
            hour: 0,
            minute: 0,
            strength: 0,
            place: 0,
        }
    }

    // All it holds, in the order of the wire.
    pub fn values(&self) -> [u64; 5]
        ensures { result ≡ slot_parts self.now }
    {
        [
            u64::from(self.day),
            u64::from(self.hour),
            u64::from(self.minute),
            u64::from(self.strength),
            self.place,
        ]
    }

    // "An empty slot is never named". The four bytes are one number, since they are then read at once.
    pub fn is_empty(&self) -> bool
        ensures { result ≡ empty (slot_parts self.now) }
    {
        if self.place != 0 {
            return false;
        }
        u32::from(self.day)
            + u32::from(self.hour) * 0x100
            + u32::from(self.minute) * 0x1_0000
            + u32::from(self.strength) * 0x100_0000
            == 0
    }
}
