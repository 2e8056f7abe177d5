#![tactic(auto)]
// What the calls of a board test before anything else, in the stated order, and what a call that passes then knows.
pub mod checks;

ghost use Rattle.std.specs.Prelude.{◌≡◌, true};
ghost use Rattle.protocol.specs.Image.{allowed, shape_of};
ghost use Rattle.protocol.specs.Accesses.{board_of};
ghost use Rattle.protocol.specs.Calls.{first, entry_tests};
ghost use Rattle.entry.specs.Tested.{Tested, EntryPassed};

use crate::checks::bad_record;
use layout::read_header;
use protocol::{Refusal, Requester, Shape};
use volatile::Record;

// The board of a requester: the port's is the last, P - 1.
pub fn board_of(s: Shape, who: Requester) -> usize
    requires { allowed s ≡ true }
    ensures { result ≡ board_of s who }
{
    match who {
        Requester::Board(i) => i,
        Requester::Port => s.boards - 1,
    }
}

// 11 for the header, 12, 1, for the board of a requester.
pub fn enter_by(image: &[u8], state: Record, who: Requester) -> Result<Shape, Refusal>
    ensures { Tested (first (entry_tests image.now state
        (board_of (shape_of image.now) who)))
        (EntryPassed image.now state (board_of (shape_of image.now) who)) result }
{
    let s = read_header(image, 0)?;
    if bad_record(s.boards as u8, state) {
        return Err(Refusal::RecordDisordered);
    }
    if board_of(s, who) >= s.boards {
        return Err(Refusal::NoSuchBoard);
    }
    Ok(s)
}

// The same for a board.
pub fn enter(image: &[u8], state: Record, board: usize) -> Result<Shape, Refusal>
    ensures { Tested (first (entry_tests image.now state board))
        (EntryPassed image.now state board) result }
{
    enter_by(image, state, Requester::Board(board))
}
