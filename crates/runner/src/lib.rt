#![tactic(auto)]
// A line of a run that was taken apart, played; what stands between two lines of a run; how many it takes.
ghost use Rattle.std.specs.Prelude.{◌≡◌, List, ℕ, ◌≤◌, ◌<◌, length};
ghost use Rattle.text.specs.Events.{meant, counted};
ghost use Rattle.text.specs.Whole.{start};
ghost use Rattle.turns.specs.Turned.{Ready};
ghost use Rattle.runner.specs.OneLine.{run_of, EventPlayed};

use player::play;
use protocol::Refusal;
use text::{Event, Rows};
use turns::{Session, UNCUT};
use volatile::Record;

// The lines that a run takes at most.
pub const MOST_LINES: usize = 99999;

// How many lines were played, and what stands between two lines.
#[derive(Clone, Copy)]
pub struct Run {
    pub played: usize,
    pub session: Session,
}

// The run after a line, and the rows of that line.
#[derive(Clone, Copy)]
pub struct Played {
    pub run: Run,
    pub rows: Rows,
}

impl Run {
    // Before the first line the image is empty, the record off.
    pub fn new() -> Run
        ensures { (result.session.length ≡ 0) × ((area : List ℕ) → run_of result area ≡ start) }
    {
        let state = Record::off();
        let session = Session {
            length: 0,
            state,
            k: UNCUT,
        };
        Run { played: 0, session }
    }
}

// A line that was taken apart; its bytes stand at the buffer's start, and those of its rows do so afterwards.
pub fn play_event(
    line: Result<Event, Refusal>,
    area: &mut [u8],
    run: Run,
    buffer: &mut [u8],
) -> Played
    requires { (Ready run.session area.old) × (run.played < 99999) × (counted line ≤ length buffer.old)
        × (64 ≤ length buffer.old) }
    ensures { EventPlayed (run_of run area.old) (meant line buffer.old) result
        area.new buffer.new }
{
    let session = run.session;
    let turned = play(area, session, line, buffer);
    let next = turned.next;
    let rows = turned.rows;
    let after = Run {
        played: run.played + 1,
        session: next,
    };
    Played { run: after, rows }
}
