// From a frame to a line in capitals.
ghost use Rattle.std.specs.Prelude.{◌≡◌, [], ◌∷◌, ◌+◌, ◌*◌, ◌/◌, ◌%◌, ◌<◌, length, set};
ghost use Rattle.line.specs.Lines.{capital, line_answer, line_into, line_write_says};
ghost use Rattle.rows.specs.Refusals.{answers};

use rows::question::unless;
use rows::refusal::Refusal;

fn capital(n: u8) -> u8
    requires { n < 16 }
    ensures { result ≡ capital n }
{
    if n < 10 {
        return 48 + n;
    }
    55 + n
}

// A byte as two digits.
pub fn two_capitals(byte: u8) -> [u8; 2]
    ensures { result ≡ capital (byte / 16) ∷ capital (byte % 16) ∷ [] }
{
    [capital(byte / 16), capital(byte % 16)]
}

// Byte i of a frame is digits 2 * i and 2 * i + 1 of its line.
fn put_pair(buffer: &mut [u8], i: usize, byte: u8)
    requires { 2 * i + 1 < length buffer.old }
    ensures { buffer.new ≡ set (set buffer.old (2 * i) (capital (byte / 16))) (2 * i + 1) (capital (byte % 16)) }
{
    buffer[2 * i] = capital(byte / 16);
    buffer[2 * i + 1] = capital(byte % 16);
}

// Writes a lent frame to the first 63 bytes of a lent buffer, and touches no other. A frame with
// something in its padding is 2: a line has no digit for all of it.
#[tactic(auto, unfolding(crate::specs::Lines::line_answer))]
pub fn write_line(frame: &[u8], buffer: &mut [u8]) -> Result<(), Refusal>
    ensures value { (result ≡ line_answer frame.now (length buffer.old)) × (buffer.new ≡ line_into frame.now buffer.old) }
    ensures result_value { answers result ≡ line_write_says frame.now (length buffer.old) }
{
    unless(frame.len() == 32, Refusal::Length)?;
    unless(bits::field::<u8>(frame, 250, 6) == 0, Refusal::Padding)?;
    unless(buffer.len() >= 63, Refusal::Short)?;
    // Bytes 0 to 15, and 15 to 30: a loop of sixteen turns is one that the compiler takes at once, and
    // byte 15 may be put twice.
    for i in 0..16 {
        put_pair(buffer, i, frame[i]);
        put_pair(buffer, i + 15, frame[i + 15]);
    }
    buffer[62] = capital(frame[31] / 16);
    Ok(())
}
