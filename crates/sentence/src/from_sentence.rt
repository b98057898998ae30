// From a sentence to its satellite and to what its frame says.
ghost use Rattle.std.specs.Prelude.{◌≡◌};
ghost use Rattle.std.specs.Result.{result_unwrap_or};
ghost use Rattle.rows.specs.Refusals.{answers, outcome};
ghost use Rattle.sentence.specs.Sentences.{around_of, sentence_reading, sentence_says, reception, received_told, no_reception, heard_of, hearing, heard_told, no_hearing, fed, is_another};

use crate::form::{HEAD, around_in};
use line::{look_line, read_line};
use report::look::Looked;
use report::record::Record;
use rows::refusal::Refusal;

// A satellite and what its frame says.
#[derive(Clone, Copy)]
pub struct Reception {
    pub satellite: u8,
    pub record: Record,
}

// The same as a listing needs it, without the record.
#[derive(Clone, Copy)]
pub struct Hearing {
    pub satellite: u8,
    pub look: Looked,
}

// What stands around the digits of a sentence, whatever it holds: 18, 19, 20, or its satellite.
#[tactic(auto, using(crate::proofs::Hearing::nothing_there, crate::proofs::Hearing::no_feed, crate::proofs::Hearing::satellite_or_zero))]
pub fn around(sentence: &[u8]) -> Result<u8, Refusal>
    ensures value { result ≡ outcome (around_of sentence.now).answer (around_of sentence.now).satellite }
    ensures zeros { result_unwrap_or result 0 ≡ (around_of sentence.now).satellite }
{
    match sentence {
        [line @ .., b'\n'] => around_in(line),
        _ => Err(Refusal::Sentence),
    }
}

// What a sentence says, whatever it holds: 18, 19, 20, 17, then as its frame.
#[tactic(auto, using(crate::proofs::Hearing::reads_on, crate::proofs::Hearing::reads_no_more, crate::proofs::Hearing::received_not, crate::proofs::Hearing::received_with, crate::proofs::Hearing::sentence_found, crate::proofs::Read::reception_or_zeros, rows::proofs::Rules::Outcomes::refused_outcome, rows::proofs::Rules::Outcomes::said_outcome))]
pub fn read_sentence(sentence: &[u8]) -> Result<Reception, Refusal>
    ensures value { result ≡ received_told (sentence_reading sentence.now) }
    ensures answer_value { answers result ≡ sentence_says sentence.now }
    ensures zeros { result_unwrap_or result no_reception ≡ reception (sentence_reading sentence.now) }
{
    let satellite = around(sentence)?;
    let record = read_line(&sentence[10..73])?;
    Ok(Reception { satellite, record })
}

// What is seen of a line of a receiver's output, lent without its line feed: of the sentence that it is with one.
// It is no instance of reading, since a listing makes no record, and its line has no line feed.
#[tactic(auto, using(crate::proofs::Hearing::hears_on, crate::proofs::Hearing::reads_no_more, crate::proofs::Hearing::heard_not, crate::proofs::Hearing::heard_with, crate::proofs::Hearing::sentence_found, crate::proofs::Read::hearing_or_zeros, rows::proofs::Rules::Outcomes::refused_outcome, rows::proofs::Rules::Outcomes::said_outcome))]
pub fn hear_line(line: &[u8]) -> Result<Hearing, Refusal>
    ensures value { result ≡ heard_told (heard_of (sentence_reading (fed line.now))) }
    ensures answer_value { answers result ≡ sentence_says (fed line.now) }
    ensures zeros { result_unwrap_or result no_hearing ≡ hearing (heard_of (sentence_reading (fed line.now))) }
{
    let satellite = around_in(line)?;
    let look = look_line(&line[10..73])?;
    Ok(Hearing { satellite, look })
}

// Whether a line begins as another sentence than ours does, `$GPGGA` and the like: with `$`, and not with our header.
pub fn is_another(line: &[u8]) -> bool
    ensures { result ≡ is_another line.now }
{
    line.starts_with(&HEAD[..1]) & !line.starts_with(&HEAD[..6])
}
