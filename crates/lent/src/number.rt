// A number's bytes, and its digits.
ghost use Rattle.std.specs.Prelude.{◌≡◌, ◌*◌, ◌/◌, ◌%◌, ◌^◌, length};
ghost use Rattle.lent.specs.Numbers.{decimal};

// The byte with so many bytes behind it.
pub fn byte_of(value: u64, behind: usize) -> u8
    ensures { result ≡ value / 2 ^ (8 * behind) % 256 }
{
    if behind > 7 {
        return 0;
    }
    ((value >> (8 * behind)) % 256) as u8
}

// How many decimal digits a number has; 0 has one.
pub(crate) fn digits(number: u64) -> usize
    ensures { result ≡ length (decimal number) }
{
    match number.checked_ilog10() {
        Some(tens) => tens as usize + 1,
        None => 1,
    }
}
