// A chunk of the input, and its end.
ghost use Rattle.std.specs.Prelude.{◌≡◌, true, [], ◌+◌, ◌-◌, ◌*◌, ◌≤◌, ◌<◌, length, drop};
ghost use Rattle.listing.specs.Rows.{filled};
ghost use Rattle.listing.specs.Listing.{limit};
ghost use Rattle.listing.specs.Scanning.{begun_in, after_scan, scanned, finished};
ghost use Rattle.listing.specs.Pieces.{NoFeed, Found, Scanned};

use crate::progress::Progress;
use crate::row::{LONGEST, Row, put_cut, put_row, write_one};
use line::look_line;

// So many lines are read.
pub const LIMIT: u32 = 1000000;

// What a chunk came to: where the listing is behind it, how long the text is that it gave, and how
// many of its bytes were taken.
#[derive(Clone, Copy)]
pub struct Step {
    pub progress: Progress,
    pub written: usize,
    pub used: usize,
}

// Whether no line feed is among the 63 bytes from here on. The byte behind them is passed over so that
// the loop makes 64 turns, which the compiler takes sixteen at a time.
fn no_feed(s: &[u8], from: usize) -> bool
    requires { from + 64 ≤ length s.now }
    ensures { result ≡ true → NoFeed s.now from (from + 63) }
{
    let mut none = true;
    for i in 0..64 {
        none = none & ((s[from + i] != b'\n') | (i == 63));
    }
    none
}

// The index of the first line feed from here on, or the length. Most lines are those of frames, of 63
// bytes, so these are asked for first.
fn find(s: &[u8], from: usize) -> usize
    requires { from ≤ length s.now }
    ensures { Found s.now from result }
{
    if s.len() - from >= 64 && s[from + 63] == b'\n' && no_feed(s, from) {
        return from + 63;
    }
    for i in from..s.len() {
        if s[i] == b'\n' {
            return i;
        }
    }
    s.len()
}

// The chunk from index `from` on, where a line begins. Lines are read where they stand; what is left
// of the last is copied.
fn scan_lines(lines: u32, chunk: &[u8], from: usize, out: &mut [u8], to: usize) -> Step
    requires { (lines ≤ limit) × (from ≤ length chunk.now) × (to + 48 * (length chunk.now - from) ≤ length out.old) }
    ensures { Scanned lines [] (drop from chunk.now) out.old out.new to result }
{
    let used = chunk.len() - from;
    let mut at = from;
    let mut put = to;
    for n in lines..LIMIT {
        let end = find(chunk, at);
        if end == chunk.len() {
            return Step {
                progress: Progress::behind(n).with(&chunk[at..]),
                written: put,
                used,
            };
        }
        put = put_row(out, put, n + 1, Row::seen(look_line(&chunk[at..end])));
        at = end + 1;
    }
    if at < chunk.len() {
        return Step {
            progress: Progress::behind(LIMIT + 1),
            written: put_cut(out, put),
            used,
        };
    }
    Step {
        progress: Progress::behind(LIMIT),
        written: put,
        used,
    }
}

// A chunk that goes on with a line, where out has room for a row of each of its bytes.
fn scan_first(from: Progress, chunk: &[u8], out: &mut [u8]) -> Step
    requires { (from.lines < limit) × (48 * length chunk.now ≤ length out.old) }
    ensures { Scanned from.lines (begun_in from) chunk.now out.old out.new 0 result }
{
    let used = chunk.len();
    let end = find(chunk, 0);
    let first = from.with(&chunk[..end]);
    if end == used {
        return Step {
            progress: first,
            written: 0,
            used,
        };
    }
    let number = from.lines + 1;
    let said = Row::seen(look_line(&first.begun[..first.length]));
    let put = put_row(out, 0, number, said);
    let rest = scan_lines(number, chunk, end + 1, out, put);
    Step { used, ..rest }
}

// A whole chunk, with that room. Behind the last line that is read, its first byte is answered once.
fn scan_all(from: Progress, chunk: &[u8], out: &mut [u8]) -> Step
    requires { 48 * length chunk.now ≤ length out.old }
    ensures { Scanned from.lines (begun_in from) chunk.now out.old out.new 0 result }
{
    let used = chunk.len();
    if from.lines < LIMIT {
        return scan_first(from, chunk, out);
    }
    if from.lines == LIMIT && 0 < used {
        return Step {
            progress: Progress::behind(LIMIT + 1),
            written: put_cut(out, 0),
            used,
        };
    }
    Step {
        progress: from.with(&chunk[..0]),
        written: 0,
        used,
    }
}

// Takes bytes of a chunk of the input, of any length, and puts the rows of the lines that end in them
// at the start of out. It takes as many as out has room for, at 48 bytes a row, or all of them: an out
// of 48 times the chunk's length leaves no byte.
pub fn scan(from: Progress, chunk: &[u8], out: &mut [u8]) -> Step
    ensures is { after_scan result out.new ≡ scanned from chunk.now out.old }
    ensures fits { result.written ≤ length out.old }
{
    let most = chunk.len().min(out.len() / LONGEST);
    scan_all(from, &chunk[..most], out)
}

// The end of the input: puts the row of a last line that lacks its line feed at the start of out, and
// answers its length, 0 where there is none. An out of less than 48 bytes is left as it is.
pub fn finish(from: Progress, out: &mut [u8]) -> usize
    ensures is { filled result out.new ≡ finished from out.old }
    ensures fits { result ≤ length out.old }
{
    let length = from.length.min(64);
    if from.lines < LIMIT && 0 < length {
        let said = Row::seen(look_line(&from.begun[..length]));
        return write_one(from.lines + 1, said, out);
    }
    0
}
