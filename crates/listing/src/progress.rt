// What a listing keeps from one chunk of its input to the next.
ghost use Rattle.std.specs.Prelude.{◌≡◌, [], ◌++◌, take};
ghost use Rattle.listing.specs.Scanning.{progress_of, begun_in};

use lent::put_bytes;

// How many lines have ended, and the first 64 bytes of the line that has not, with zeros behind them.
// A frame's line has 63, so these settle what is said of a line of any length. They are an array with a length, since there is no heap.
#[derive(Clone, Copy)]
pub struct Progress {
    pub lines: u32,
    pub length: usize,
    pub begun: [u8; 64],
}

impl Progress {
    // Behind so many lines, with none begun.
    #[tactic(auto, unfolding(crate::specs::Scanning::progress_of, crate::specs::Scanning::sized_to))]
    pub fn behind(lines: u32) -> Progress
        ensures { result ≡ progress_of lines [] }
    {
        Progress {
            lines,
            length: 0,
            begun: [0u8; 64],
        }
    }

    // The line that was begun goes on with these bytes, and does not end.
    pub fn with(self, bytes: &[u8]) -> Progress
        ensures { result ≡ progress_of self.lines (take 64 (begun_in self ++ bytes.now)) }
    {
        let kept = self.length.min(64);
        let more = bytes.len().min(64 - kept);
        let mut begun = [0u8; 64];
        put_bytes(&mut begun, 0, &self.begun[..kept]);
        let length = put_bytes(&mut begun, kept, &bytes[..more]);
        Progress {
            lines: self.lines,
            length,
            begun,
        }
    }
}
