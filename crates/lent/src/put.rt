// What is put into a lent buffer, from the byte `at` on.
ghost use Rattle.std.specs.Prelude.{[], ◌∷◌};
ghost use Rattle.lent.specs.Numbers.{decimal};
ghost use Rattle.lent.specs.Writing.{Wrote};

use crate::number::digits;

pub fn put_byte(out: &mut [u8], at: usize, byte: u8) -> usize
    ensures { Wrote out.old out.new at result (byte ∷ []) }
{
    if at < out.len() {
        out[at] = byte;
        return at + 1;
    }
    if at > out.len() {
        return at;
    }
    at + 1
}

// The room is not asked for with `checked_sub`, here and below: that was tried and takes two instructions more a call (56 for 54).
pub fn put_bytes(out: &mut [u8], at: usize, bytes: &[u8]) -> usize
    ensures { Wrote out.old out.new at result bytes.now }
{
    if out.len() < at {
        return at;
    }
    let room = out.len() - at;
    if bytes.len() > room {
        out[at..].copy_from_slice(&bytes[..room]);
        return out.len() + 1;
    }
    out[at..at + bytes.len()].copy_from_slice(bytes);
    at + bytes.len()
}

// The number in decimal digits, the last of them first: each is what a division by ten leaves.
pub fn put_decimal(out: &mut [u8], at: usize, number: u64) -> usize
    ensures { Wrote out.old out.new at result (decimal number) }
{
    if number < 10 {
        return put_byte(out, at, 48 + number as u8);
    }
    if out.len() < at {
        return at;
    }
    let room = out.len() - at;
    let count = digits(number);
    let mut rest = number;
    for k in (0..count).rev() {
        if k < room {
            out[at + k] = 48 + (rest % 10) as u8;
        }
        rest /= 10;
    }
    if count > room {
        return out.len() + 1;
    }
    at + count
}
