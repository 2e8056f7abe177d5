#![tactic(auto)]
// The lines of one piece of input, played and printed as a task says, behind what is kept of the pieces before it.
ghost use Rattle.std.specs.Prelude.{◌≤◌, length, take};
ghost use Rattle.reports.specs.Tasks.{state_of, Fits};
ghost use Rattle.feeder.specs.Feeding.{Progresses, Feeds};

use pieces::{Stop, keep, next_line};
use reports::{Task, step};

// The room that the output of one line takes at most.
const ROOM: usize = 320;

// The task after the lines of a piece, how much of the piece they are, how much output they gave, and why they stopped.
#[derive(Clone, Copy)]
pub struct Progress {
    pub task: Task,
    pub read: usize,
    pub written: usize,
    pub stop: Stop,
}

// How far the whole lines of a piece were played, and how many characters are kept at the input's start: where the
// lines stopped with `Full`, there are more to play in these.
#[derive(Clone, Copy)]
pub struct Fed {
    pub progress: Progress,
    pub held: usize,
}

// Plays and prints the whole lines of a piece, as long as the output has room.
fn play_lines(piece: &[u8], area: &mut [u8], task: Task, out: &mut [u8]) -> Progress
    requires { Fits task × (35852 ≤ length area.old) }
    ensures { Progresses (state_of task area.old) piece.now result
        area.new out.new }
{
    let mut buffer = [0u8; 80];
    let mut current = task;
    let mut read = 0;
    let mut written = 0;
    while current.goes_on() {
        let Some(end) = next_line(piece, read) else {
            return Progress {
                task: current,
                read,
                written,
                stop: Stop::Unfinished,
            };
        };
        if out.len() - written < ROOM {
            return Progress {
                task: current,
                read,
                written,
                stop: Stop::Full,
            };
        }
        let stepped = step(&piece[read..end], area, current, out, written, &mut buffer);
        current = stepped.task;
        written = stepped.written;
        read = end + 1;
    }
    Progress {
        task: current,
        read,
        written,
        stop: Stop::Limit,
    }
}

// Plays the whole lines of the input's first `end` characters: those that were kept, and a piece read behind them.
pub fn feed(input: &mut [u8], end: usize, area: &mut [u8], task: Task, out: &mut [u8]) -> Fed
    requires { (end ≤ length input.old) × Fits task × (35852 ≤ length area.old) }
    ensures { Feeds (state_of task area.old) (take end input.old) result
        input.new area.new out.new }
{
    let progress = play_lines(&input[..end], area, task, out);
    let held = keep(input, progress.read, end, progress.stop);
    Fed { progress, held }
}
