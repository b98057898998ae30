// From a satellite and a frame to a sentence.
ghost use Rattle.std.specs.Prelude.{◌≡◌, ◌++◌, ◌≤◌, length, drop};
ghost use Rattle.bits.specs.Frame.{field_of};
ghost use Rattle.rows.specs.Refusals.{answers};
ghost use Rattle.sentence.specs.Sentences.{sentence_of, send_answer, send_says, sent_into};

use crate::form::{HEAD, checksum, is_satellite};
use lent::put_bytes;
use line::{two_capitals, write_line};
use report::read::read;
use rows::question::unless;
use rows::refusal::Refusal;

// What writing answers, to a buffer of so many bytes: 20, then all that reading the frame refuses, then 16. The frame is read
// and not looked at: with both in one library the compiler no longer makes reading one function, which took nearly half as much stack again.
#[tactic(auto, using(report::proofs::Reading::ReadSteps::answer_found, rows::proofs::Rules::Outcomes::made_outcome, rows::proofs::Rules::Outcomes::refused_outcome), unfolding(crate::specs::Sentences::send_answer))]
pub fn send_answer(satellite: u32, frame: &[u8], room: usize) -> Result<(), Refusal>
    ensures value { result ≡ send_answer satellite frame.now room }
    ensures result_value { answers result ≡ send_says satellite frame.now room }
{
    unless(is_satellite(satellite), Refusal::Satellite)?;
    read(frame)?;
    unless(room >= 78, Refusal::Short)
}

// Puts the sentence of a frame, and leaves the bytes behind it.
fn put_sentence(satellite: u8, frame: &[u8], buffer: &mut [u8])
    requires { (satellite ≤ 99) × (length frame.now ≡ 32) × (field_of frame.now 250 6 ≡ 0) × (78 ≤ length buffer.old) }
    ensures { buffer.new ≡ sentence_of satellite frame.now ++ drop 78 buffer.old }
{
    put_bytes(buffer, 0, &HEAD);
    put_bytes(
        buffer,
        7,
        &[b'0' + satellite / 10, b'0' + satellite % 10, b','],
    );
    let _ = write_line(frame, &mut buffer[10..73]);
    let sum = two_capitals(checksum(buffer));
    put_bytes(buffer, 73, &[b'*', sum[0], sum[1], b'\r', b'\n']);
}

// Writes a frame as a sentence of this satellite to the first 78 bytes of a lent buffer, and touches no other. A refusal
// touches nothing.
pub fn write_sentence(satellite: u32, frame: &[u8], buffer: &mut [u8]) -> Result<(), Refusal>
    ensures value { (result ≡ send_answer satellite frame.now (length buffer.old)) × (buffer.new ≡ sent_into satellite frame.now buffer.old) }
    ensures result_value { answers result ≡ send_says satellite frame.now (length buffer.old) }
{
    send_answer(satellite, frame, buffer.len())?;
    put_sentence(satellite as u8, frame, buffer);
    Ok(())
}
