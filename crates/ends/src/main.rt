#![tactic(auto)]
// How a run ends: at the limit of 99,999 lines, whose last is cut, by errors of the system, a page at these and at its
// limit of 9,999 commits, and an order. Each run is told in a line, and the last lines of some follow. The long events
// and what is printed of them are files of the folder that the program is run in.
ghost use Rattle.std.specs.Prelude.{◌≤◌, length};
ghost use Rattle.reports.specs.Tasks.{Fits};

use reports::Task;
use std::fs::{File, OpenOptions};
use std::io;
use std::io::{Read, Seek, SeekFrom, Write};
use std::rt::Files;
use stream::Failure;

// Opens the file of a name for appending; it can't be read.
fn open_append<R: Files>(rt: &R, name: &str) -> io::Result<R::File> {
    OpenOptions::new().append(true).open(rt, name)
}

// Reads until the buffer is full, the input ends or a read fails; how many bytes it put at the buffer's start.
fn read_full<R: Read>(from: &mut R, buffer: &mut [u8]) -> usize
    ensures { result ≤ length buffer.new }
{
    let mut done = 0;
    while done < buffer.len() {
        let n = from.read(&mut buffer[done..]).unwrap_or(0);
        if n == 0 {
            break;
        }
        done += n;
    }
    done
}

// Writes a text so many times.
fn repeat<W: Write>(to: &mut W, text: &[u8], times: usize) -> io::Result<()> {
    for _ in 0..times {
        to.write_all(text)?;
    }
    Ok(())
}

// Writes texts, each so many times, and a last line that is longer than two pieces of what is read.
fn write_events<R: Files>(rt: &R, name: &str, texts: &[(&[u8], usize)]) -> io::Result<()> {
    let mut to = File::create(rt, name)?;
    for (text, times) in texts {
        repeat(&mut to, text, *times)?;
    }
    repeat(&mut to, b"0123456789", 2000)
}

fn name_of(ended: Result<(), Failure>) -> &'static str {
    match ended {
        Ok(()) => "played",
        Err(Failure::Input(_)) => "input failed",
        Err(Failure::Output(_)) => "output failed",
    }
}

// Plays from one open file to another.
fn play_files<R: Read, W: Write>(task: Task, from: &mut R, to: &mut W) -> Result<(), Failure>
    requires { Fits task }
{
    let mut input = [0u8; 8353];
    let mut area = [0u8; 35852];
    let mut out = [0u8; 32768];
    stream::play(from, to, 8192, task, &mut input, &mut area, &mut out)
}

// Plays; tells how that ended, and the next two bytes of the input, if any are left.
fn play<R: Files + Print>(
    rt: &R,
    name: &str,
    task: Task,
    mut from: R::File,
    mut to: R::File,
) -> io::Result<()>
    requires { Fits task }
{
    print!(rt; "{name}: ")?;
    let ended = name_of(play_files(task, &mut from, &mut to));
    print!(rt; "{ended}")?;
    let mut next = [0u8; 2];
    let n = read_full(&mut from, &mut next);
    rt.write_all(b", left: ")?;
    rt.write_all(&next[..n])?;
    rt.write_all(b"\n")
}

// The last bytes that were printed; a shorter text is told from its first byte on.
fn tell_last<R: Files + Print>(rt: &R, count: u8) -> io::Result<()> {
    let mut file = File::open(rt, "played")?;
    let _ = file.seek(SeekFrom::End(-i64::from(count)));
    let mut text = [0u8; 96];
    let n = read_full(&mut file, &mut text);
    rt.write_all(&text[..n])
}

// Plays, and tells the last bytes that were printed.
fn play_to_last<R: Files + Print>(
    rt: &R,
    name: &str,
    task: Task,
    from: &str,
    count: u8,
) -> io::Result<()>
    requires { Fits task }
{
    let from = File::open(rt, from)?;
    play(rt, name, task, from, File::create(rt, "played")?)?;
    tell_last(rt, count)
}

// `rsmrun` at the limit of lines, by errors of the system; after a write that failed nothing more is read. A file that
// is open for writing alone stands for a closed input, one for reading alone for a closed output: the system answers
// the same.
fn play_rows<R: Files + Print>(rt: &R) -> io::Result<()> {
    // 100,001 lines, of which the fault in line 99,999 is cut.
    write_events(
        rt,
        "long",
        &[
            (b"F,1,1,1,0\n", 1),
            (b"U\n", 99995),
            (b"W,0,0,07\nZ,1\nX,0\nR,0,0,1\n", 1),
        ],
    )?;
    let rows = Task::rows();
    let (from, to) = (File::open(rt, "long")?, File::create(rt, "played")?);
    play(rt, "100,001 lines", rows, from, to)?;
    let (from, to) = (File::open(rt, ".")?, open_append(rt, "played")?);
    play(rt, "a directory as input", rows, from, to)?;
    let (from, to) = (open_append(rt, "played")?, open_append(rt, "played")?);
    play(rt, "closed input", rows, from, to)?;
    let (from, to) = (File::open(rt, "long")?, File::create(rt, "/dev/full")?);
    play(rt, "full output", rows, from, to)?;
    let (from, to) = (File::open(rt, "long")?, File::open(rt, "played")?);
    play(rt, "closed output", rows, from, to)?;
    tell_last(rt, 80)
}

// So many commits, each of which saves a cell.
fn write_commits<R: Files>(rt: &R, times: usize) -> io::Result<()> {
    write_events(
        rt,
        "commits",
        &[(b"F,1,1,1,0\n", 1), (b"W,0,0,07\nC,0,\n", times)],
    )
}

// `rsmpage` at the limits of commits and of lines; after a read that failed there is no total line. The last three
// lines of each page are told.
fn play_pages<R: Files + Print>(rt: &R) -> io::Result<()> {
    let page = Task::page();
    write_commits(rt, 9999)?;
    play_to_last(rt, "page of 9,999 commits", page, "commits", 96)?;
    write_commits(rt, 10000)?;
    play_to_last(rt, "page of 10,000 commits", page, "commits", 96)?;
    // A commit in line 99,999 and one in line 100,000.
    write_events(
        rt,
        "commits",
        &[(b"F,1,1,1,0\n", 1), (b"U\n", 99997), (b"C,0,\n", 2)],
    )?;
    play_to_last(rt, "page of 100,001 lines", page, "commits", 96)?;
    play_to_last(rt, "page of a directory", page, ".", 96)
}

// `rsmorder` at the limit of lines; after a read that failed there is no order. The last three lines are told.
fn play_orders<R: Files + Print>(rt: &R) -> io::Result<()> {
    // In line 99,999 board 0 comes to depend on board 1, and in line 100,000 neither would depend on the other any
    // more.
    write_events(
        rt,
        "links",
        &[
            (b"F,3,1,1,0\n", 1),
            (b"U\n", 99996),
            (b"W,1,0,07\nR,0,0,1\nX,1\n", 1),
        ],
    )?;
    let order = Task::order();
    play_to_last(rt, "order of 100,001 lines", order, "links", 15)?;
    play_to_last(rt, "order of a directory", order, ".", 15)
}

fn main(rt: HostRuntime) -> io::Result<()> {
    play_rows(&rt)?;
    play_pages(&rt)?;
    play_orders(&rt)
}
