// Lists the frames of standard input, one a line, on standard output. What is written is settled by the
// crate `listing`; here bytes go in and out, in blocks.
#![tactic(auto)]

ghost use Rattle.std.specs.Prelude.{◌≡◌, ◌≤◌, length, IfOk};

use listing::progress::Progress;
use listing::scan::LIMIT;
use std::fmt::Debug;
use std::io::{ErrorKind, Read, Write};
use std::process::ExitCode;
use std::{fmt, io};

const CHUNK: usize = 8192;

// 48 times as many, the longest row for each byte of a chunk.
const TEXT: usize = 393216;

// The contracts of these two say the length alone, so that no proof above them unfolds so many zeros.
fn chunk() -> [u8; CHUNK]
    ensures { 8192 ≡ length result }
{
    [0u8; CHUNK]
}

fn text() -> [u8; TEXT]
    ensures { 393216 ≡ length result }
{
    [0u8; TEXT]
}

// The status of a program whose output nobody reads any more, as a shell tells it of one that the signal
// for this has ended. Std has that signal ignored, so a write fails in its place.
const UNREAD: u8 = 141;

// Why a listing broke off: standard input or output failed, or nobody reads the output any more.
#[derive(Drop)]
enum Fault {
    Input(io::Error),
    Output(io::Error),
    Unread,
}

impl Debug for Fault {
    fn fmt<W: fmt::Write>(&self, f: &mut fmt::Formatter<W>) -> fmt::Result {
        match self {
            Fault::Input(e) => write!(f, "standard input: {e}"),
            Fault::Output(e) => write!(f, "standard output: {e}"),
            Fault::Unread => write!(f, "standard output: nobody reads it"),
        }
    }
}

fn write(output: &mut impl Write, text: &[u8]) -> Result<(), Fault> {
    match output.write_all(text) {
        Ok(()) => Ok(()),
        Err(e) if e.kind() == ErrorKind::BrokenPipe => Err(Fault::Unread),
        Err(e) => Err(Fault::Output(e)),
    }
}

// Reads once. Behind a fault nothing is listed, since the line that was begun may not be whole.
fn read(input: &mut impl Read, chunk: &mut [u8]) -> Result<usize, Fault>
    ensures { IfOk result (λ n. n ≤ length chunk.new) }
{
    input.read(chunk).map_err(Fault::Input)
}

// Reads once and writes the rows of the lines that ended; at the end of the input, that of a last line which lacks its line
// feed. None where nothing is left to list.
fn pass(
    from: Progress,
    input: &mut impl Read,
    output: &mut impl Write,
    chunk: &mut [u8],
    text: &mut [u8],
) -> Result<Option<Progress>, Fault> {
    let n = read(input, chunk)?;
    if n == 0 {
        let written = listing::scan::finish(from, text);
        write(output, &text[..written])?;
        return Ok(None);
    }
    let step = listing::scan::scan(from, &chunk[..n], text);
    write(output, &text[..step.written])?;
    if step.progress.lines > LIMIT {
        return Ok(None);
    }
    Ok(Some(step.progress))
}

// All of the input. A proved loop has to end, and nothing says that the input does: so it counts.
fn all(
    input: &mut impl Read,
    output: &mut impl Write,
    chunk: &mut [u8],
    text: &mut [u8],
) -> Result<(), Fault> {
    let mut progress = Progress::behind(0);
    for _ in 0..u64::MAX {
        let Some(next) = pass(progress, input, output, chunk, text)? else {
            return Ok(());
        };
        progress = next;
    }
    Ok(())
}

fn list_input(input: &mut impl Read, output: &mut impl Write) -> Result<(), Fault> {
    let mut chunk = chunk();
    let mut text = text();
    let written = listing::row::write_heading(&mut text);
    write(output, &text[..written])?;
    all(input, output, &mut chunk, &mut text)
}

// An output that nobody reads any more is no fault, and nothing is said of it.
fn main(rt: HostRuntime) -> Result<ExitCode, Fault> {
    match list_input(&mut rt.stdin(), &mut rt.stdout()) {
        Ok(()) => Ok(ExitCode::SUCCESS),
        Err(Fault::Unread) => Ok(ExitCode::from(UNREAD)),
        Err(fault) => Err(fault),
    }
}
