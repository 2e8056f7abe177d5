#![tactic(auto)]
// Plays the event file of each name that the arguments give, read in pieces of several sizes, and compares what is
// printed with what is stored. NAME stands for NAME.events, NAME.answers as `rsmrun` prints them, NAME.page as
// `rsmpage` does and NAME.order as `rsmorder` does, in the folder that the program is run in; what is printed goes
// through a file of that folder. A file that can't be read is not as expected.
ghost use Rattle.std.specs.Prelude.{◌≤◌, length};
ghost use Rattle.std.specs.Result.{IfOk};
ghost use Rattle.reports.specs.Tasks.{Fits};

use reports::Task;
use std::env::FillError;
use std::fs::File;
use std::io::{ErrorKind, Read, Write};
use std::rt::{Env, Files};
use std::{io, str};

// The longest path. A longer name is taken as none, and one without room for an ending stays as it is.
const LONGEST: usize = 256;

// How many bytes of a file are looked at. One that has as many may go on behind them.
const MOST: usize = 65536;

// The sizes of the pieces that each file is read in.
const SIZES: [usize; 5] = [1, 7, 161, 162, 8192];

// What was read of a file, and whether that is all of it.
#[derive(Drop)]
struct Got<'a> {
    text: &'a [u8],
    is_whole: bool,
}

// The path of a name with an ending, put into a buffer.
fn path_of<'a>(name: &'a [u8], ending: &str, path: &'a mut [u8; LONGEST]) -> io::Result<&'a str> {
    let end = name.len() + ending.len();
    let bytes = if end > LONGEST {
        name
    } else {
        path[..name.len()].copy_from_slice(name);
        path[name.len()..end].copy_from_slice(ending.as_bytes());
        &path[..end]
    };
    str::from_utf8(bytes).map_err(|_| io::Error::from(ErrorKind::InvalidInput))
}

// Reads an open file to its end. One that fills the buffer may go on behind it: it is not read whole.
fn read_all<'a, R: Read>(from: &mut R, buffer: &'a mut [u8; MOST]) -> Got<'a>
    ensures { length result.text.now ≤ 65536 }
{
    let mut n = 0;
    while n < MOST {
        match from.read(&mut buffer[n..]) {
            Ok(0) => {
                return Got {
                    text: &buffer[..n],
                    is_whole: true,
                };
            }
            Ok(more) => n += more,
            Err(_) => break,
        }
    }
    Got {
        text: &buffer[..n],
        is_whole: false,
    }
}

// Reads the file of a path.
fn load<'a, R: Files>(rt: &R, path: &str, buffer: &'a mut [u8; MOST]) -> io::Result<Got<'a>>
    ensures { IfOk result (λ got. length got.text.now ≤ 65536) }
{
    let mut file = File::open(rt, path)?;
    Ok(read_all(&mut file, buffer))
}

// How many lines a text has: as many as line feeds, and one more if something follows the last.
fn line_count(text: &[u8]) -> usize
    ensures { result ≤ length text.now }
{
    text.split_inclusive(|byte| *byte == b'\n').count()
}

// How many lines the events of a name have.
fn lines_of<R: Files>(rt: &R, name: &[u8]) -> io::Result<usize> {
    let mut path = [0u8; LONGEST];
    let mut buffer = [0u8; MOST];
    let events = load(rt, path_of(name, ".events", &mut path)?, &mut buffer)?;
    Ok(line_count(events.text))
}

// Plays from one open file to another, on an area that holds anything; whether all was played. The input is no longer
// than what may be kept and a piece; the output is small, so that many pieces take several turns.
fn play_files<R: Read, W: Write>(size: usize, task: Task, from: &mut R, to: &mut W) -> bool
    requires { (1 ≤ size) × (size ≤ 8192) × Fits task }
{
    let mut input = [0u8; 8353];
    let mut area = [238u8; 35852];
    let mut out = [0u8; 1024];
    let text = &mut input[..161 + size];
    stream::play(from, to, size, task, text, &mut area, &mut out).is_ok()
}

// Plays the events of a name by pieces of a size, into the file `played`; whether all was played.
fn is_played<R: Files>(rt: &R, name: &[u8], size: usize, task: Task) -> io::Result<bool>
    requires { (1 ≤ size) × (size ≤ 8192) × Fits task }
{
    let mut path = [0u8; LONGEST];
    let mut from = File::open(rt, path_of(name, ".events", &mut path)?)?;
    let mut to = File::create(rt, "played")?;
    Ok(play_files(size, task, &mut from, &mut to))
}

// Whether the file `played` holds what the file of a name with an ending holds.
fn is_same<R: Files>(rt: &R, name: &[u8], ending: &str) -> io::Result<bool> {
    let mut path = [0u8; LONGEST];
    let mut wanted = [0u8; MOST];
    let mut printed = [0u8; MOST];
    let stored = load(rt, path_of(name, ending, &mut path)?, &mut wanted)?;
    let played = load(rt, "played", &mut printed)?;
    Ok(stored.is_whole && played.is_whole && stored.text == played.text)
}

// Plays the events of a name by pieces of a size; whether what is printed is what the file with an ending holds.
// The files that are played from and to are closed before `played` is read.
fn is_stored<R: Files>(
    rt: &R,
    name: &[u8],
    size: usize,
    task: Task,
    ending: &str,
) -> io::Result<bool>
    requires { (1 ≤ size) × (size ≤ 8192) × Fits task }
{
    Ok(is_played(rt, name, size, task)? && is_same(rt, name, ending)?)
}

// Whether answers, page and order of a name are as expected by pieces of a size.
fn is_expected<R: Files>(rt: &R, name: &[u8], size: usize) -> io::Result<bool>
    requires { (1 ≤ size) × (size ≤ 8192) }
{
    Ok(
        is_stored(rt, name, size, Task::rows(), ".answers")?
            && is_stored(rt, name, size, Task::page(), ".page")?
            && is_stored(rt, name, size, Task::order(), ".order")?,
    )
}

// The first size by whose pieces a name is not as expected.
fn differing_size<R: Files>(rt: &R, name: &[u8]) -> Option<usize> {
    SIZES
        .into_iter()
        .find(|size| !is_expected(rt, name, *size).unwrap_or(false))
}

// Plays the files of a name; whether they are as expected.
fn replay<R: Files + Print>(rt: &R, name: &[u8]) -> bool {
    let _ = rt.write_all(name);
    let lines = lines_of(rt, name).unwrap_or(0);
    match differing_size(rt, name) {
        None => {
            let _ = println!(rt; ": {lines} lines, as expected");
            true
        }
        Some(size) => {
            let _ = println!(rt; ": not as expected by pieces of {size}");
            false
        }
    }
}

// An argument, empty where it is longer than a path; none behind the last. It need not be text.
fn argument<'a>(rt: &impl Env, i: usize, buffer: &'a mut [u8; LONGEST]) -> Option<&'a [u8]> {
    match rt.arg(i, buffer) {
        Ok(length) => Some(&buffer[..length]),
        Err(FillError::TooLong) => Some(&[]),
        Err(FillError::NotPresent) => None,
    }
}

fn main(rt: HostRuntime) {
    let mut buffer = [0u8; LONGEST];
    let mut files = 0usize;
    let mut differ = 0usize;
    for i in 1..usize::MAX {
        let Some(name) = argument(&rt, i, &mut buffer) else {
            break;
        };
        files = i;
        if !replay(&rt, name) {
            differ = differ.saturating_add(1);
        }
    }
    let _ = println!(rt; "{files} files, {differ} differ");
}
