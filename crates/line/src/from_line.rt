// From a line to a frame, and to what the frame says.
ghost use Rattle.std.specs.Prelude.{◌≡◌, ℕ, [], ◌∷◌, ◌++◌, ◌<◌, get_or, length, replicate};
ghost use Rattle.std.specs.Result.{result_unwrap_or};
ghost use Rattle.line.specs.Lines.{digit_of, paired, frame_in, framing, framing_says, line_reading, line_says};
ghost use Rattle.report.specs.Records.{zeros};
ghost use Rattle.report.specs.Runs.Reading.{look_told, looked, nothing_looked, seen};
ghost use Rattle.rows.specs.Refusals.{answers, outcome};

use report::look::Looked;
use report::record::Record;
use rows::refusal::Refusal;

// The number that a byte stands for as a digit. A letter with 32 set is the small letter: a third range takes the loop below a third
// of its instructions more.
#[tactic(auto, using(crate::proofs::DigitValues::figure_digit, crate::proofs::DigitValues::letter_digit, crate::proofs::DigitValues::no_digit))]
pub fn digit(byte: u8) -> Option<u8>
    ensures { result ≡ digit_of byte }
{
    match (byte, byte | 32) {
        (b'0'..=b'9', _) => Some(byte - b'0'),
        (_, small @ b'a'..=b'f') => Some(small - b'a' + 10),
        _ => None,
    }
}

// A line with a digit of zero behind it, so that each byte of its frame has two. This loop takes fewer instructions than a copy by the
// library, whose call stays one.
#[tactic(auto, using(crate::proofs::DigitLoop::padded_each))]
fn padded(line: &[u8]) -> [u8; 64]
    requires { length line.now ≡ 63 }
    ensures { result ≡ line.now ++ 48 ∷ [] }
{
    let mut text = [b'0'; 64];
    for i in 0..63 {
        text[i] = line[i];
    }
    text
}

#[tactic(auto, using(crate::proofs::Pairs::paired_each))]
fn pairs(values: [u8; 64]) -> [u8; 32]
    requires { (k : ℕ) → get_or values k 0 < 16 }
    ensures { result ≡ paired values }
{
    let mut frame = [0u8; 32];
    for i in 0..32 {
        frame[i] = values[2 * i] * 16 + values[2 * i + 1];
    }
    frame
}

// The frame of a line, where it is one. The loops make a fixed number of turns and have no way out, so that the compiler
// takes sixteen bytes at a time.
#[tactic(auto, using(crate::proofs::DigitLoop::frame_asks, crate::proofs::DigitLoop::digits_told, crate::proofs::DigitLoop::framed))]
fn frame_in(line: &[u8]) -> Option<[u8; 32]>
    ensures { result ≡ frame_in line.now }
{
    if line.len() != 63 {
        return None;
    }
    let text = padded(line);
    let mut values = [0u8; 64];
    let mut all = true;
    for i in 0..64 {
        let value = digit(text[i]);
        values[i] = value.unwrap_or(0);
        all = all & value.is_some();
    }
    if !all {
        return None;
    }
    Some(pairs(values))
}

// The frame of a line, whatever it holds. What it takes of the stack is given back before the frame is read.
#[inline(never)]
#[tactic(auto, using(crate::proofs::LineEnds::framing_told, crate::proofs::LineEnds::framing_said, crate::proofs::LineEnds::frame_or_zeros))]
pub fn frame_of_line(line: &[u8]) -> Result<[u8; 32], Refusal>
    ensures value { result ≡ outcome (framing line.now).answer (framing line.now).frame }
    ensures answer_value { answers result ≡ framing_says line.now }
    ensures zeros { result_unwrap_or result (replicate 32 0) ≡ (framing line.now).frame }
{
    frame_in(line).ok_or(Refusal::Line)
}

// What a line says, whatever it holds. Here and below no other refusal than 17 can come of the frame: said so, the compiler need not
// move the bytes of one.
#[tactic(auto, using(crate::proofs::LineEnds::reads_on, crate::proofs::LineEnds::reads_no_more, crate::proofs::LineEnds::line_said))]
pub fn read_line(line: &[u8]) -> Result<Record, Refusal>
    ensures value { result ≡ outcome (line_reading line.now).answer (line_reading line.now).record }
    ensures answer_value { answers result ≡ line_says line.now }
    ensures zeros { result_unwrap_or result zeros ≡ (line_reading line.now).record }
{
    let Ok(frame) = frame_of_line(line) else {
        return Err(Refusal::Line);
    };
    report::read::read(&frame)
}

// What is seen of a line, whatever it holds. One function for both would take what it calls as a closure, with a clause for each
// of the two results, and be longer than either.
#[tactic(auto, using(crate::proofs::LineEnds::reads_on, crate::proofs::LineEnds::reads_no_more, crate::proofs::LineEnds::looks_no_more, crate::proofs::LineEnds::look_said))]
pub fn look_line(line: &[u8]) -> Result<Looked, Refusal>
    ensures value { result ≡ look_told (seen (line_reading line.now)) }
    ensures answer_value { answers result ≡ line_says line.now }
    ensures zeros { result_unwrap_or result nothing_looked ≡ looked (seen (line_reading line.now)) }
{
    match frame_of_line(line) {
        Ok(frame) => report::look::look(&frame),
        Err(_) => Err(Refusal::Line),
    }
}
