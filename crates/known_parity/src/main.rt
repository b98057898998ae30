// Prints the parity of frames whose parity is known from elsewhere, and whether it stands in them.
#![tactic(auto)]

use bits::words::Words;
use std::io;

// The check value of CRC-24Q is its value over the nine bytes "123456789". Zeros in front do not
// count, since the register starts from zero: so the nine bytes are bits 154 to 225 of a frame.
fn check_value() -> [u8; 32] {
    let mut words = Words::of(0);
    for digit in b"123456789" {
        words = words.push(8, u64::from(*digit));
    }
    let mut frame = [0u8; 32];
    words.push(30, 0).put(&mut frame);
    frame
}

fn show(rt: &impl Print, frame: &[u8]) -> io::Result<()> {
    let parity = parity::parity(frame);
    if parity::parity_right(frame) {
        println!(rt; "{parity:06x} right")
    } else {
        println!(rt; "{parity:06x} wrong")
    }
}

// Three reports of document 004, as an independent program writes them: a hypocenter, an intensity
// with nine prefectures, an ash fall; and the first with bit 100 changed.
fn main(rt: HostRuntime) -> io::Result<()> {
    let value = check_value();
    show(&rt, &value)?;
    show(
        &rt,
        b"\x53\xAF\x91\xAC\x82\x80\x03\x88\x00\x00\x59\x05\x14\x40\xC5\xC8\x2A\x01\x08\x30\x00\x00\x00\x00\x00\x00\x00\x10\x30\x93\x0E\x40",
    )?;
    show(
        &rt,
        b"\x53\xAF\x99\xAC\x82\x80\x02\xC8\x2C\xB2\x5A\xE7\x75\xA8\xD4\xCA\x85\x4A\xB8\x00\x00\x00\x00\x00\x00\x00\x00\x10\x04\x12\xDE\x00",
    )?;
    show(
        &rt,
        b"\x53\xAF\xC9\xEC\x45\x00\x06\xC4\x52\x3E\xE4\xC1\xF0\x78\x26\x12\x20\x81\x30\x91\x81\x00\x00\x00\x00\x00\x00\x10\x3A\x8A\x29\xC0",
    )?;
    show(
        &rt,
        b"\x53\xAF\x91\xAC\x82\x80\x03\x88\x00\x00\x59\x05\x1C\x40\xC5\xC8\x2A\x01\x08\x30\x00\x00\x00\x00\x00\x00\x00\x10\x30\x93\x0E\x40",
    )?;
    Ok(())
}
