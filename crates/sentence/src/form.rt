// What stands around the digits of a sentence, at fixed places from 0 on: the head from 0, the satellite at 7 and 8, a comma
// at 9, a star at 73, the checksum at 74 and 75, and the end of the line.
ghost use Rattle.std.specs.Prelude.{◌≡◌, ◌≤◌, length};
ghost use Rattle.rows.specs.Refusals.{outcome};
ghost use Rattle.rows.specs.Runs.Verdict.{allowed};
ghost use Rattle.sentence.specs.Sentences.{satellites, checksum, between, around_of, fed};
ghost use Rattle.sentence.specs.Pieces.{figure_of, marked, named_in, summed_in};

use line::digit;
use rows::question::unless;
use rows::refusal::Refusal;

// The header and the comma behind it.
pub(crate) const HEAD: [u8; 7] = *b"$QZQSM,";

// Those which section 4.3 lists.
#[tactic(auto, using(std::proofs::lemmas::Bool::Decides::nat_tests), unfolding(rows::specs::Runs::Verdict::allowed))]
pub(crate) fn is_satellite(number: u32) -> bool
    ensures { result ≡ allowed satellites number }
{
    matches!(number, 55..=58 | 61)
}

// The exclusive or of all characters between `$` and `*`.
pub(crate) fn checksum(s: &[u8]) -> u8
    requires { 73 ≤ length s.now }
    ensures { result ≡ checksum (between s.now) }
{
    s[1..73].iter().fold(0, |sum, byte| sum ^ byte)
}

fn figure(byte: u8) -> Option<u8>
    ensures { result ≡ figure_of byte }
{
    match byte {
        b'0'..=b'9' => Some(byte - b'0'),
        _ => None,
    }
}

// The number of the satellite, where its characters are one.
fn satellite_in(line: &[u8]) -> Option<u8>
    requires { 9 ≤ length line.now }
    ensures { result ≡ named_in line.now }
{
    let tens = figure(line[7])?;
    let ones = figure(line[8])?;
    Some(tens * 10 + ones)
}

// The number of the two digits of the checksum.
#[tactic(auto, using(line::proofs::DigitValues::digit_small))]
fn checksum_in(line: &[u8]) -> Option<u8>
    requires { 76 ≤ length line.now }
    ensures { result ≡ summed_in line.now }
{
    let high = digit(line[74])?;
    let low = digit(line[75])?;
    Some(high * 16 + low)
}

// Whether a line that lacks its line feed has the length of a sentence, its head, comma and star, and a carriage return.
fn is_marked(line: &[u8]) -> bool
    ensures { result ≡ marked line.now }
{
    if line.len() != 77 {
        return false;
    }
    line.starts_with(&HEAD) & (line[9] == b',') & (line[73] == b'*') & (line[76] == b'\r')
}

// The satellite of a sentence, which is lent without its line feed: 18, 19, or 20.
#[tactic(auto, using(crate::proofs::Inside::around_asks, crate::proofs::Inside::satellite_found))]
pub(crate) fn around_in(line: &[u8]) -> Result<u8, Refusal>
    ensures { result ≡ outcome (around_of (fed line.now)).answer (around_of (fed line.now)).satellite }
{
    unless(is_marked(line), Refusal::Sentence)?;
    let told = checksum_in(line).ok_or(Refusal::Sentence)?;
    unless(checksum(line) == told, Refusal::Checksum)?;
    let satellite = satellite_in(line).ok_or(Refusal::Satellite)?;
    unless(is_satellite(u32::from(satellite)), Refusal::Satellite)?;
    Ok(satellite)
}
