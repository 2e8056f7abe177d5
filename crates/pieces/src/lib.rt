#![tactic(auto)]
// An input that is read piece by piece: what an answer of the system means, where the next line ends, what is kept.
ghost use Rattle.std.specs.Prelude.{◌≡◌, ◌≤◌, length, take, drop};
ghost use Rattle.pieces.specs.Answers.{meaning};
ghost use Rattle.pieces.specs.Pieces.{IsNextLine, kept_length, Keeps};

use fields::find;
use std::io;
use std::io::ErrorKind;

// Why the lines of a piece stop: no line feed is left in it, the output has no room for one more line, or the program
// ends before the next line.
#[derive(Clone, Copy)]
pub enum Stop {
    Unfinished,
    Full,
    Limit,
}

// Where the text that is to be played next ends, none at the input's end, or the error of the read: what a read behind
// the characters that are held means, after which the text ends at `end`. An interrupted one leaves the text as it is,
// to be read on.
pub fn meaning_of(end: io::Result<usize>, held: usize) -> io::Result<Option<usize>>
    ensures { result ≡ meaning end held }
{
    match end {
        Ok(end) if end == held => Ok(None),
        Ok(end) => Ok(Some(end)),
        Err(e) if e.kind() == ErrorKind::Interrupted => Ok(Some(held)),
        Err(e) => Err(e),
    }
}

// Where the next whole line of a piece ends, of which so much was read; none if no line feed is left.
pub fn next_line(piece: &[u8], read: usize) -> Option<usize>
    requires { read ≤ length piece.now }
    ensures { IsNextLine piece.now read result }
{
    let end = read + find(&piece[read..], b'\n');
    if end >= piece.len() {
        return None;
    }
    Some(end)
}

// How much is kept of a rest of n characters. Of a line that is not finished the first 161 stand for it, since a
// longer line can't be taken apart whatever follows; where lines are still to be played, all; behind the last, none.
#[tactic(auto, unfolding(crate::specs::Pieces::kept_length))]
fn kept(stop: Stop, n: usize) -> usize
    ensures { result ≡ kept_length stop n }
{
    match stop {
        Stop::Unfinished => n.min(161),
        Stop::Full => n,
        Stop::Limit => 0,
    }
}

// What is kept of a piece that ends at `end`, of which so much was read, is moved to the input's start; how much it is.
#[tactic(auto, using(crate::proofs::Pieces::kept_most))]
pub fn keep(input: &mut [u8], read: usize, end: usize, stop: Stop) -> usize
    requires { (read ≤ end) × (end ≤ length input.old) }
    ensures { Keeps stop (drop read (take end input.old)) result input.new }
{
    let held = kept(stop, end - read);
    input.copy_within(read..read + held, 0);
    held
}
