// The parity of a frame: CRC-24Q over bits 0 to 225, by groups of bits with a table. What a wrong
// parity leads to is for the crates above.
#![tactic(auto)]

ghost use Rattle.std.specs.Prelude.{◌≡◌, ◌^◌, ◌<◌};
ghost use Rattle.bits.specs.Frame.{frame_in};
ghost use Rattle.parity.specs.Parity.{parity_of, parity_right};
ghost use Rattle.parity.specs.Groups.{register_of, entries_of};

// The table: the register after a group of 24 bits in which one hexadecimal digit is not zero. It has an entry for each
// place of the digit, by how many digits stand behind it. The compiler keeps the arms of a `match` beside the code, where
// it would build a constant array on the stack in each call.
fn entries(digit: u8) -> [u32; 6]
    requires { digit < 16 }
    ensures { result ≡ entries_of digit }
{
    match digit {
        0 => [0, 0, 0, 0, 0, 0],
        1 => [0x864CFB, 0xC54E89, 0x668F48, 0x71C76C, 0x8309D7, 0x911C49],
        2 => [0x8AD50D, 0x0CD1E9, 0xCD1E90, 0xE38ED8, 0x805F55, 0xA47469],
        3 => [0x0C99F6, 0xC99F60, 0xAB91D8, 0x9249B4, 0x035682, 0x356820],
        4 => [0x93E6E1, 0x19A3D2, 0x1C71DB, 0x41514B, 0x86F251, 0xCEA429],
        5 => [0x15AA1A, 0xDCED5B, 0x7AFE93, 0x309627, 0x05FB86, 0x5FB860],
        6 => [0x1933EC, 0x15723B, 0xD16F4B, 0xA2DF93, 0x06AD04, 0x6AD040],
        7 => [0x9F7F17, 0xD03CB2, 0xB7E003, 0xD318FF, 0x85A4D3, 0xFBCC09],
        8 => [0xA18139, 0x3347A4, 0x38E3B6, 0x82A296, 0x8BA859, 0x1B04A9],
        9 => [0x27CDC2, 0xF6092D, 0x5E6CFE, 0xF365FA, 0x08A18E, 0x8A18E0],
        10 => [0x2B5434, 0x3F964D, 0xF5FD26, 0x612C4E, 0x0BF70C, 0xBF70C0],
        11 => [0xAD18CF, 0xFAD8C4, 0x93726E, 0x10EB22, 0x88FEDB, 0x2E6C89],
        12 => [0x3267D8, 0x2AE476, 0x24926D, 0xC3F3DD, 0x0D5A08, 0xD5A080],
        13 => [0xB42B23, 0xEFAAFF, 0x421D25, 0xB234B1, 0x8E53DF, 0x44BCC9],
        14 => [0xB8B2D5, 0x26359F, 0xE98CFD, 0x207D05, 0x8D055D, 0x71D4E9],
        _ => [0x3EFE2E, 0xE37B16, 0x8F03B5, 0x51BA69, 0x0E0C8A, 0xE0C8A0],
    }
}

// The register after a group of 24 bits: what each of its six digits leaves, added without carries. The digits do not
// wait for each other, as bits and bytes taken one behind the other do.
fn after_group(group: u32) -> u32
    requires { group < 2 ^ 24 }
    ensures { result ≡ register_of group }
{
    let first = entries(((group >> 20) % 16) as u8);
    let second = entries(((group >> 16) % 16) as u8);
    let third = entries(((group >> 12) % 16) as u8);
    let fourth = entries(((group >> 8) % 16) as u8);
    let fifth = entries(((group >> 4) % 16) as u8);
    let last = entries((group % 16) as u8);
    first[5] ^ second[4] ^ third[3] ^ fourth[2] ^ fifth[1] ^ last[0]
}

// The parity that bits 0 to 225 ask for: ten bits, and nine groups of 24 behind them, each from the third bit of a byte on.
// Zeros in front leave no trace in the register, so the ten bits are a group of three digits; what it holds then is added
// to the next group. Lent bytes that are no frame have the parity of zeros.
pub fn parity(frame: &[u8]) -> u32
    ensures { result ≡ parity_of (frame_in frame.now) }
{
    if frame.len() != 32 {
        return 0;
    }
    let first = entries(bits::field(frame, 0, 2));
    let second = entries(bits::field(frame, 2, 4));
    let third = entries(bits::field(frame, 6, 4));
    let mut register = first[2] ^ second[1] ^ third[0];
    for byte in (1..28).step_by(3) {
        register = after_group(register ^ bits::field::<u32>(frame, 8 * byte + 2, 24));
    }
    register
}

// Whether bits 226 to 249 hold that parity.
pub fn parity_right(frame: &[u8]) -> bool
    ensures { result ≡ parity_right (frame_in frame.now) }
{
    parity(frame) == bits::field::<u32>(frame, 226, 24)
}
