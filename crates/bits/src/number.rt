// The numbers that a field is read as, of one byte, two, four and eight.
ghost use Rattle.std.specs.Prelude.{◌≡◌, ℕ, refl, ◌%◌, ◌^◌, ◌≤◌};
ghost use Rattle.std.proofs.Common.{rules};

use lent::byte_of;

pub trait Number {
    // How many bits it has, how many a field that is read as it has at most, and which number a value of it is.
    ghost size: { ℕ };

    ghost most: { ℕ };

    ghost value: { Self → ℕ };

    const MOST: usize;

    ghost MOST: { ℕ };

    // What is left of a number in so few bits.
    fn lowest(number: u64) -> Self
        ensures { value result ≡ number % 2 ^ size };

    ghost counted: { MOST ≡ most };

    ghost held: { most ≤ size };

    ghost in_eight_bytes: { most ≤ 57 };

    ghost told_apart: { (x y : Self) → value x ≡ value y → x ≡ y };
}

impl Number for u8 {
    ghost size = { 8 };

    ghost most = { 8 };

    ghost value = { λ n. n };

    const MOST: usize = 8;

    ghost MOST = { 8 };

    fn lowest(number: u64) -> u8 {
        byte_of(number, 0)
    }

    ghost counted = { refl };

    ghost held = { Prim.search rules };

    ghost in_eight_bytes = { Prim.search rules };

    ghost told_apart = { λ x y e. e };
}

impl Number for u16 {
    ghost size = { 16 };

    ghost most = { 16 };

    ghost value = { λ n. n };

    const MOST: usize = 16;

    ghost MOST = { 16 };

    fn lowest(number: u64) -> u16 {
        (number % 0x1_0000) as u16
    }

    ghost counted = { refl };

    ghost held = { Prim.search rules };

    ghost in_eight_bytes = { Prim.search rules };

    ghost told_apart = { λ x y e. e };
}

impl Number for u32 {
    ghost size = { 32 };

    ghost most = { 32 };

    ghost value = { λ n. n };

    const MOST: usize = 32;

    ghost MOST = { 32 };

    fn lowest(number: u64) -> u32 {
        (number % 0x1_0000_0000) as u32
    }

    ghost counted = { refl };

    ghost held = { Prim.search rules };

    ghost in_eight_bytes = { Prim.search rules };

    ghost told_apart = { λ x y e. e };
}

impl Number for u64 {
    ghost size = { 64 };

    ghost most = { 57 };

    ghost value = { λ n. n };

    const MOST: usize = 57;

    ghost MOST = { 57 };

    fn lowest(number: u64) -> u64 {
        number
    }

    ghost counted = { refl };

    ghost held = { Prim.search rules };

    ghost in_eight_bytes = { Prim.search rules };

    ghost told_apart = { λ x y e. e };
}
