// The search: each step looks at one code and leaves out half of those that are left. Six steps find the row and five the code in
// it, so eleven codes are looked at. The one that the place is compared with at last is one of them.
// `partition_point` of `LASTS` and `binary_search` in the row were tried: 234 instructions a look-up where this takes 183, and thirteen
// codes looked at where `eleven_codes_are_looked_at` promises eleven.
ghost use Rattle.std.specs.Prelude.{◌≡◌, ◌+◌, ◌≤◌, length, eqb};
ghost use Rattle.place_list.specs.Search.{entry_of, past, row_for, found_in};
ghost use Rattle.place_list.specs.Standing.{listed};

use crate::table::{LASTS, row};

// Leaves out as many codes as the step has, where the last of them is below the place.
fn past(codes: &[u32], place: u32, from: usize, step: usize) -> usize
    requires { (1 ≤ step) × (from + step ≤ length codes.now) }
    ensures value { result ≡ past (entry_of codes.now) place from step }
    ensures within { result ≤ from + step }
{
    if codes[from + step - 1] < place {
        from + step
    } else {
        from
    }
}

// The first row whose last code is not below the place; 56 where there is none.
fn row_for(place: u32) -> u8
    ensures value { result ≡ row_for place }
    ensures within { result ≤ 56 }
{
    let lasts = LASTS;
    let of_29 = past(&lasts, place, 0, 28);
    let of_15 = past(&lasts, place, of_29, 14);
    let of_8 = past(&lasts, place, of_15, 7);
    let of_4 = past(&lasts, place, of_8, 4);
    let of_2 = past(&lasts, place, of_4, 2);
    past(&lasts, place, of_2, 1) as u8
}

// Whether the first of a row's codes that is not below the place is the place itself. Where all but the last are below it,
// that is the last.
fn stands_in(codes: &[u32], place: u32) -> bool
    requires { length codes.now ≡ 32 }
    ensures { result ≡ eqb (entry_of codes.now (found_in codes.now place)) place }
{
    let of_16 = past(codes, place, 0, 16);
    let of_8 = past(codes, place, of_16, 8);
    let of_4 = past(codes, place, of_8, 4);
    let of_2 = past(codes, place, of_4, 2);
    let found = past(codes, place, of_2, 1);
    codes[found] == place
}

// Whether the table has the place.
pub(crate) fn is_listed(place: u32) -> bool
    ensures { result ≡ listed place }
{
    let number = row_for(place);
    // above all codes
    if number == 56 {
        return false;
    }
    let codes = row(number);
    stands_in(&codes, place)
}
