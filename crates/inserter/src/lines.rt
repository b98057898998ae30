// A frame as a line of 63 hexadecimal digits.
ghost use Rattle.std.specs.Prelude.{◌≡◌};
ghost use Rattle.inserter.specs.Answers.{call_result, read_line_into, write_line_into};

use crate::frames::hand_over;
use crate::words::word_of;

// Reads a line of 63 digits of either case, without a line feed: 17, then as `lz_read`.
#[tactic(auto, using(crate::proofs::Reading::handed_back))]
pub fn lz_read_line(line: &[u8], record_bytes: &mut [u8]) -> u32
    ensures { call_result result record_bytes.new ≡ read_line_into line.now record_bytes.old }
{
    hand_over(line::read_line(line), record_bytes)
}

// Writes a lent frame as 63 capital digits to the front of a lent buffer: 1, 2, 16. Bytes behind the
// digits stay as they were, and where something is refused all of them do.
pub fn lz_write_line(frame: &[u8], line: &mut [u8]) -> u32
    ensures { call_result result line.new ≡ write_line_into frame.now line.old }
{
    word_of(line::write_line(frame, line), |()| 0)
}
