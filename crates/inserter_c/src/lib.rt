// The functions of the crate `inserter` as a library for C and Rust. Each calls the one of its name and promises the same; none has
// a `requires`, since nobody proves what a caller in another language passes. A slice is passed as a pointer and a length, as
// include/lavendelzug.h declares it, where also stands what each answers.
#![tactic(auto)]

ghost use Rattle.std.specs.Prelude.{◌≡◌};
ghost use Rattle.inserter.specs.Answers.{parity_answer, call_result, read_into, write_into, read_line_into, write_line_into, read_sentence_into, write_sentence_into, open_into, take_into, merge_into, count_answer, text_into, read_value, read_line_value, read_sentence_value, write_value, write_sentence_value, open_value, take_value};
ghost use Rattle.inserter.specs.Meanings.{depth_answer, magnitude_answer, prefecture_answer, standing_answer, arrival_answer, height_answer, activity_answer, validity_answer, slots_answer};

use inserter::{frames, lines, meanings, sentences, stores, values};

// ---- Frames as bytes.

#[unsafe(no_mangle)]
pub extern "C" fn lz_parity(frame: &[u8]) -> u32
    ensures { result ≡ parity_answer frame.now }
{
    frames::lz_parity(frame)
}

#[unsafe(no_mangle)]
pub extern "C" fn lz_read(frame: &[u8], record_bytes: &mut [u8]) -> u32
    ensures { call_result result record_bytes.new ≡ read_into frame.now record_bytes.old }
{
    frames::lz_read(frame, record_bytes)
}

#[unsafe(no_mangle)]
pub extern "C" fn lz_write(record_bytes: &[u8], frame: &mut [u8]) -> u32
    ensures { call_result result frame.new ≡ write_into record_bytes.now frame.old }
{
    frames::lz_write(record_bytes, frame)
}

// ---- Frames as lines of digits.

#[unsafe(no_mangle)]
pub extern "C" fn lz_read_line(line: &[u8], record_bytes: &mut [u8]) -> u32
    ensures { call_result result record_bytes.new ≡ read_line_into line.now record_bytes.old }
{
    lines::lz_read_line(line, record_bytes)
}

#[unsafe(no_mangle)]
pub extern "C" fn lz_write_line(frame: &[u8], line: &mut [u8]) -> u32
    ensures { call_result result line.new ≡ write_line_into frame.now line.old }
{
    lines::lz_write_line(frame, line)
}

// ---- Frames as a receiver's sentences.

#[unsafe(no_mangle)]
pub extern "C" fn lz_read_sentence(sentence: &[u8], record_bytes: &mut [u8]) -> u32
    ensures { call_result result record_bytes.new ≡ read_sentence_into sentence.now record_bytes.old }
{
    sentences::lz_read_sentence(sentence, record_bytes)
}

#[unsafe(no_mangle)]
pub extern "C" fn lz_write_sentence(satellite: u32, frame: &[u8], sentence: &mut [u8]) -> u32
    ensures { call_result result sentence.new ≡ write_sentence_into satellite frame.now sentence.old }
{
    sentences::lz_write_sentence(satellite, frame, sentence)
}

// ---- The page store of a bulletin.

#[unsafe(no_mangle)]
pub extern "C" fn lz_open(name: &[u8], store: &mut [u8]) -> u32
    ensures { call_result result store.new ≡ open_into name.now store.old }
{
    stores::lz_open(name, store)
}

#[unsafe(no_mangle)]
pub extern "C" fn lz_take(store: &mut [u8], record_bytes: &[u8]) -> u32
    ensures { call_result result store.new ≡ take_into store.old record_bytes.now }
{
    stores::lz_take(store, record_bytes)
}

#[unsafe(no_mangle)]
pub extern "C" fn lz_merge(store: &mut [u8], other: &[u8]) -> u32
    ensures { call_result result store.new ≡ merge_into store.old other.now }
{
    stores::lz_merge(store, other)
}

#[unsafe(no_mangle)]
pub extern "C" fn lz_count(store: &[u8]) -> u32
    ensures { result ≡ count_answer store.now }
{
    stores::lz_count(store)
}

#[unsafe(no_mangle)]
pub extern "C" fn lz_text(store: &[u8], text: &mut [u8]) -> u32
    ensures { call_result result text.new ≡ text_into store.now text.old }
{
    stores::lz_text(store, text)
}

// ---- The value that a call refuses with 8.

#[unsafe(no_mangle)]
pub extern "C" fn lz_read_value(frame: &[u8]) -> u64
    ensures { result ≡ read_value frame.now }
{
    values::lz_read_value(frame)
}

#[unsafe(no_mangle)]
pub extern "C" fn lz_read_line_value(line: &[u8]) -> u64
    ensures { result ≡ read_line_value line.now }
{
    values::lz_read_line_value(line)
}

#[unsafe(no_mangle)]
pub extern "C" fn lz_read_sentence_value(sentence: &[u8]) -> u64
    ensures { result ≡ read_sentence_value sentence.now }
{
    values::lz_read_sentence_value(sentence)
}

#[unsafe(no_mangle)]
pub extern "C" fn lz_write_sentence_value(satellite: u32, frame: &[u8]) -> u64
    ensures { result ≡ write_sentence_value satellite frame.now }
{
    values::lz_write_sentence_value(satellite, frame)
}

#[unsafe(no_mangle)]
pub extern "C" fn lz_write_value(record_bytes: &[u8], size: usize) -> u64
    ensures { result ≡ write_value record_bytes.now size }
{
    values::lz_write_value(record_bytes, size)
}

#[unsafe(no_mangle)]
pub extern "C" fn lz_open_value(name: &[u8]) -> u64
    ensures { result ≡ open_value name.now }
{
    values::lz_open_value(name)
}

#[unsafe(no_mangle)]
pub extern "C" fn lz_take_value(store: &[u8], record_bytes: &[u8]) -> u64
    ensures { result ≡ take_value store.now record_bytes.now }
{
    values::lz_take_value(store, record_bytes)
}

// ---- What a number of a record says.

#[unsafe(no_mangle)]
pub extern "C" fn lz_depth(code: u16) -> u32
    ensures { result ≡ depth_answer code }
{
    meanings::lz_depth(code)
}

#[unsafe(no_mangle)]
pub extern "C" fn lz_magnitude(code: u8) -> u32
    ensures { result ≡ magnitude_answer code }
{
    meanings::lz_magnitude(code)
}

#[unsafe(no_mangle)]
pub extern "C" fn lz_prefecture(place: u64) -> u32
    ensures { result ≡ prefecture_answer place }
{
    meanings::lz_prefecture(place)
}

#[unsafe(no_mangle)]
pub extern "C" fn lz_standing(place: u64) -> u32
    ensures { result ≡ standing_answer place }
{
    meanings::lz_standing(place)
}

#[unsafe(no_mangle)]
pub extern "C" fn lz_arrival(hour: u8, minute: u8) -> u32
    ensures { result ≡ arrival_answer hour minute }
{
    meanings::lz_arrival(hour, minute)
}

#[unsafe(no_mangle)]
pub extern "C" fn lz_height(code: u8) -> u32
    ensures { result ≡ height_answer code }
{
    meanings::lz_height(code)
}

#[unsafe(no_mangle)]
pub extern "C" fn lz_activity(day: u8, hour: u8, minute: u8) -> u32
    ensures { result ≡ activity_answer day hour minute }
{
    meanings::lz_activity(day, hour, minute)
}

#[unsafe(no_mangle)]
pub extern "C" fn lz_validity(ambiguity: u8) -> u32
    ensures { result ≡ validity_answer ambiguity }
{
    meanings::lz_validity(ambiguity)
}

#[unsafe(no_mangle)]
pub extern "C" fn lz_slots_used(record_bytes: &[u8]) -> u32
    ensures { result ≡ slots_answer record_bytes.now }
{
    meanings::lz_slots_used(record_bytes)
}
