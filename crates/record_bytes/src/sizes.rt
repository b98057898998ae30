// The sizes of the table in specs/Packed.antt, in bytes, and the places where its parts start.
ghost use Rattle.std.specs.Prelude.{◌≡◌, ◌≤◌};
ghost use Rattle.rows.specs.Runs.Fields.{bytes_for};

pub const RECORD_SIZE: usize = 251;

pub const TEXT_SIZE: usize = 18;

pub(crate) const FIELDS_AT: usize = 9;

pub(crate) const FIELDS_SIZE: usize = 32;

pub(crate) const SLOTS_AT: usize = 41;

pub(crate) const SLOT_SIZE: usize = 12;

pub(crate) const SLOT_COUNT: usize = 16;

pub(crate) const TEXT_AT: usize = 233;

// How many bytes a field of so many bits has.
pub(crate) fn bytes_for(width: u8) -> usize
    ensures { (result ≡ bytes_for width) × (result ≤ 8) }
{
    match width {
        0 => 0,
        1..=8 => 1,
        9..=16 => 2,
        17..=32 => 4,
        _ => 8,
    }
}
