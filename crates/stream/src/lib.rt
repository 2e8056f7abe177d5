#![tactic(auto)]
// Event lines from a reader, what is printed of them to a writer.
ghost use Rattle.std.specs.Prelude.{◌+◌, ◌≤◌, length};
ghost use Rattle.pieces.specs.Pieces.{Kept};
ghost use Rattle.pieces.specs.Answers.{Over};
ghost use Rattle.reports.specs.Tasks.{Fits};
ghost use Rattle.stream.specs.Texts.{Reads, Next};

use feeder::feed;
use pieces::{Stop, meaning_of};
use reports::Task;
use rest::play_rest;
use std::io;
use std::io::{Read, Write};

// Why playing ended early: a read or a write failed, with this error.
#[derive(Clone, Copy)]
pub enum Failure {
    Input(io::Error),
    Output(io::Error),
}

// Reads at most `size` characters behind those that are held.
fn read_behind<R: Read>(
    from: &mut R,
    size: usize,
    input: &mut [u8],
    held: usize,
) -> io::Result<Option<usize>>
    requires { held + size ≤ length input.old }
    ensures { Reads result held input.old input.new }
{
    let end = held + size;
    let read = from.read(&mut input[held..end]);
    meaning_of(read.map(|n| held + n), held)
}

// Where the text for the next turn ends, or none at the input's end, or where no next line is played. The text is what
// is held where more of it is to be played, else what is read behind it.
pub fn next_text<R: Read>(
    from: &mut R,
    size: usize,
    input: &mut [u8],
    held: usize,
    stop: Stop,
) -> io::Result<Option<usize>>
    requires { (161 + size ≤ length input.old) × (Kept stop held input.old) }
    ensures { Next result held input.new }
{
    match stop {
        Stop::Unfinished => read_behind(from, size, input, held),
        Stop::Full => Ok(Some(held)),
        Stop::Limit => Ok(None),
    }
}

// No text comes any more: what is left is played and written.
fn close<W: Write>(
    got: io::Result<Option<usize>>,
    to: &mut W,
    rest: &[u8],
    area: &mut [u8],
    task: Task,
    out: &mut [u8],
) -> Result<(), Failure>
    requires { (Over got rest.now) × Fits task × (35852 ≤ length area.old) × (400 ≤ length out.old) }
{
    let n = play_rest(got, rest, area, task, out);
    to.write_all(&out[..n]).map_err(Failure::Output)?;
    got.map_err(Failure::Input)?;
    Ok(())
}

// Plays the lines that are read, at most `size` characters at a time, and writes what the task prints of them, to the
// input's end or until no next line is played. `size` is at least 1, since a read of no characters would look like the
// input's end. A proved loop has to end, and nothing says that an input does: the loop has a number of turns that no
// run uses up.
pub fn play<R: Read, W: Write>(
    from: &mut R,
    to: &mut W,
    size: usize,
    first: Task,
    input: &mut [u8],
    area: &mut [u8],
    out: &mut [u8],
) -> Result<(), Failure>
    requires { (1 ≤ size) × Fits first × (161 + size ≤ length input.old) × (35852 ≤ length area.old)
        × (400 ≤ length out.old) }
{
    let mut task = first;
    let mut held = 0;
    let mut stop = Stop::Unfinished;
    for _ in 0..u64::MAX {
        let got = next_text(from, size, input, held, stop);
        let Ok(Some(end)) = got else {
            return close(got, to, &input[..held], area, task, out);
        };
        let fed = feed(input, end, area, task, out);
        to.write_all(&out[..fed.progress.written])
            .map_err(Failure::Output)?;
        task = fed.progress.task;
        stop = fed.progress.stop;
        held = fed.held;
    }
    Ok(())
}

// Writes a line: what failed, as the caller names it, a colon and the system's text for the error. An error prints its
// number in brackets behind that text, so the text ends at the first bracket; the buffer is full of brackets, so that
// there is one.
fn fail<W: Write>(to: &mut W, what: &[u8], error: io::Error) {
    let mut text = [b'('; 96];
    let mut rest = &mut text[..];
    let _ = write!(rest, "{error}");
    let n = text.iter().position(|b| *b == b'(').unwrap_or(text.len());
    let _ = to.write_all(what);
    let _ = to.write_all(b": ");
    let _ = to.write_all(text[..n].trim_ascii_end());
    let _ = to.write_all(b"\n");
}

// An error of the system is told in one line on standard error.
fn tell<W: Write>(failure: Failure, to: &mut W, input: &[u8], output: &[u8]) {
    match failure {
        Failure::Input(error) => fail(to, input, error),
        Failure::Output(error) => fail(to, output, error),
    }
}

// A whole program: plays `from` to `to`, and tells an error to `errors`; for a program these are its standard streams.
// `input` and `output` name the first two in a message. The input has room for 161 characters that are kept and 4,096
// that are read; the output for what most pieces answer, so that few are played in two turns.
pub fn run<R: Read, W: Write, E: Write>(
    from: &mut R,
    to: &mut W,
    errors: &mut E,
    first: Task,
    input: &[u8],
    output: &[u8],
)
    requires { Fits first }
{
    let mut area = [0u8; 35852];
    let mut text = [0u8; 4257];
    let mut out = [0u8; 16384];
    if let Err(failure) = play(from, to, 4096, first, &mut text, &mut area, &mut out) {
        tell(failure, errors, input, output);
    }
}
