// The value that a call refuses with 8, asked beside the call: a refused call writes to no lent buffer, and a word has no
// room for 64 bits. It is 0 where the call refuses with another number, or not at all.
ghost use Rattle.std.specs.Prelude.{◌≡◌};
ghost use Rattle.rows.specs.Refusals.{answers};
ghost use Rattle.inserter.specs.Answers.{read_value, read_line_value, read_sentence_value, write_value, write_sentence_value, open_value, take_value};

use crate::frames::FRAME_SIZE;
use crate::sentences::SENTENCE_SIZE;
use rows::refusal::Refusal;
use store_bytes::sizes::NAME_SIZE;

fn refused_value<T: Copy>(answer: Result<T, Refusal>) -> u64
    ensures { result ≡ (answers answer).value }
{
    match answer {
        Ok(_) => 0,
        Err(refusal) => refusal.says().value,
    }
}

// Of reading a lent frame.
pub fn lz_read_value(frame: &[u8]) -> u64
    ensures { result ≡ read_value frame.now }
{
    refused_value(report::read::read(frame))
}

// Of reading a lent line.
pub fn lz_read_line_value(line: &[u8]) -> u64
    ensures { result ≡ read_line_value line.now }
{
    refused_value(line::read_line(line))
}

// Of reading a lent sentence.
pub fn lz_read_sentence_value(sentence: &[u8]) -> u64
    ensures { result ≡ read_sentence_value sentence.now }
{
    refused_value(sentence::read_sentence(sentence))
}

// Of writing a lent frame as a sentence of this satellite. A buffer that is too short is asked for behind the frame, and has
// no value, so its length plays no part.
pub fn lz_write_sentence_value(satellite: u32, frame: &[u8]) -> u64
    ensures { result ≡ write_sentence_value satellite frame.now }
{
    refused_value(sentence::send_answer(satellite, frame, SENTENCE_SIZE))
}

// Of writing the record of lent bytes to a frame of so many bytes.
pub fn lz_write_value(record_bytes: &[u8], size: usize) -> u64
    ensures { result ≡ write_value record_bytes.now size }
{
    refused_value(report::write::write_answer(&record_bytes::unpack(record_bytes), size))
}

// Of opening a store for the bulletin that 8 bytes name; other lengths name none, and have no value.
#[tactic(auto, unfolding(crate::specs::Answers::open_value, store_bytes::specs::Stores::name_or_zeros))]
pub fn lz_open_value(name: &[u8]) -> u64
    ensures { result ≡ open_value name.now }
{
    if name.len() != NAME_SIZE {
        return 0;
    }
    refused_value(store_bytes::unpack_name(name).verdict())
}

// Of taking the page of a record into a store, which stays as it is. 14 comes first; of what follows, writing alone has a
// value.
#[tactic(auto, using(crate::proofs::ValuesSaid::take_value_lem, crate::proofs::ValuesSaid::no_take_value))]
pub fn lz_take_value(store: &[u8], record_bytes: &[u8]) -> u64
    ensures { result ≡ take_value store.now record_bytes.now }
{
    if store_bytes::unpack_store(store).is_sound() {
        return lz_write_value(record_bytes, FRAME_SIZE);
    }
    0
}
