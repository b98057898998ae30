// The parity of a frame, reading a frame, writing a record.
ghost use Rattle.std.specs.Prelude.{◌≡◌};
ghost use Rattle.inserter.specs.Answers.{parity_answer, call_result, record_into, read_into, write_into};

use crate::words::{WRONG_CALL, refusal_word, word_of};
use record_bytes::sizes::RECORD_SIZE;
use report::record::Record;
use rows::refusal::Refusal;

pub(crate) const FRAME_SIZE: usize = 32;

// The parity of a lent frame in the low three bytes. A slice that is no frame has 1, the number of
// that refusal, in the high byte, and zeros below it.
#[tactic(auto, unfolding(crate::specs::Answers::parity_answer))]
pub fn lz_parity(frame: &[u8]) -> u32
    ensures { result ≡ parity_answer frame.now }
{
    if frame.len() != FRAME_SIZE {
        return 0x100_0000;
    }
    parity::parity(frame)
}

// A record that was read goes into a lent buffer of 251 bytes; a refusal leaves the buffer as it was.
#[tactic(auto, unfolding(crate::specs::Answers::record_into, record_bytes::specs::Packed::packed_into))]
pub(crate) fn hand_over(reading: Result<Record, Refusal>, record_bytes: &mut [u8]) -> u32
    ensures { call_result result record_bytes.new ≡ record_into reading record_bytes.old }
{
    if record_bytes.len() != RECORD_SIZE {
        return WRONG_CALL;
    }
    match reading {
        Ok(found) => {
            record_bytes::pack(&found, record_bytes);
            0
        }
        Err(refusal) => refusal_word(refusal),
    }
}

// Reads a lent frame. The answer has the number of the refusal in the high byte, its place in the
// next, and is 0 where nothing is refused: then the buffer holds the record's bytes, and otherwise
// it stays as it was. A buffer that is not 251 bytes long is 255, whatever the frame is.
#[tactic(auto, using(crate::proofs::Reading::handed_back))]
pub fn lz_read(frame: &[u8], record_bytes: &mut [u8]) -> u32
    ensures { call_result result record_bytes.new ≡ read_into frame.now record_bytes.old }
{
    hand_over(report::read::read(frame), record_bytes)
}

// Writes the record of lent bytes to a lent frame. The answer is as that of `lz_read`; where
// something is refused the frame stays as it was. Bytes that are not 251 are a record of zeros, which
// is never written: 1 or 3.
#[tactic(auto, unfolding(crate::specs::Answers::write_result))]
pub fn lz_write(record_bytes: &[u8], frame: &mut [u8]) -> u32
    ensures { call_result result frame.new ≡ write_into record_bytes.now frame.old }
{
    let record = record_bytes::unpack(record_bytes);
    word_of(report::write::write(&record, frame), |()| 0)
}
