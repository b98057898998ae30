// A frame as the sentence of a receiver.
ghost use Rattle.std.specs.Prelude.{◌≡◌};
ghost use Rattle.inserter.specs.Answers.{call_result, read_sentence_into, write_sentence_into};

use crate::lines::lz_read_line;
use crate::words::{WRONG_CALL, refusal_word, word_of};
use record_bytes::sizes::RECORD_SIZE;

pub(crate) const SENTENCE_SIZE: usize = 78;

// Reads a sentence of 78 characters, carriage return and line feed among them: 18, 19, 20, 17, then as `lz_read`. The answer to
// one that is read is its satellite, which is in the low byte; a refusal has 0 there.
#[tactic(auto, using(sentence::proofs::Hearing::long_around, crate::proofs::Received::no_record, crate::proofs::Received::not_read))]
pub fn lz_read_sentence(sentence: &[u8], record_bytes: &mut [u8]) -> u32
    ensures { call_result result record_bytes.new ≡ read_sentence_into sentence.now record_bytes.old }
{
    if record_bytes.len() != RECORD_SIZE {
        return WRONG_CALL;
    }
    match sentence::around(sentence) {
        Ok(satellite) => {
            let answer = lz_read_line(&sentence[10..73], record_bytes);
            if answer == 0 {
                u32::from(satellite)
            } else {
                answer
            }
        }
        Err(refusal) => refusal_word(refusal),
    }
}

// Writes a lent frame as a sentence of this satellite to the front of a lent buffer: 20, all that `lz_read` refuses of the
// frame, 16. Bytes behind the sentence stay as they were, and where something is refused all of them do.
pub fn lz_write_sentence(satellite: u32, frame: &[u8], sentence: &mut [u8]) -> u32
    ensures { call_result result sentence.new ≡ write_sentence_into satellite frame.now sentence.old }
{
    word_of(sentence::write_sentence(satellite, frame, sentence), |()| 0)
}
