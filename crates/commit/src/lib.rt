#![tactic(auto)]
// The calls of a commit: its start, and the acknowledgements of its members, the last of which decides it.
ghost use Rattle.std.specs.Prelude.{length};
ghost use Rattle.protocol.specs.Calls.{Start, Acknowledge, first, refusal_at};
ghost use Rattle.store.specs.Promise.{Performed};
ghost use Rattle.entry.specs.Tested.{Tested};
ghost use Rattle.commit.specs.Begin.{begin_tests, Offered};

use boards::rows::without;
use boards::sets::has;
use decision::give;
use entry::enter;
use groups::commit_closure;
use protocol::{Refusal, Reply, Shape};
use store::answers::refusal;
use volatile::Record;

// How both begin: the first tests of a board's call, then 3.
fn begin(image: &[u8], state: Record, board: usize, context: &[u8]) -> Result<Shape, Refusal>
    ensures { Tested (first (begin_tests image.now state board (length context.now)))
        (Offered image.now state board (length context.now)) result }
{
    let s = enter(image, state, board)?;
    if context.len() != s.context {
        return Err(Refusal::WrongContext);
    }
    Ok(s)
}

// All tests of a start: how both begin, then 14.
pub fn start_entry(
    image: &[u8],
    state: Record,
    board: usize,
    context: &[u8],
) -> Result<Shape, Refusal>
    ensures { Tested (refusal_at image.now state (Start board context.now))
        (Offered image.now state board (length context.now)) result }
{
    let s = begin(image, state, board, context)?;
    if state.engaged() != 0 {
        return Err(Refusal::CommitOpen);
    }
    Ok(s)
}

// All tests of an acknowledgement: how both begin, then 15 and 16.
pub fn acknowledge_entry(
    image: &[u8],
    state: Record,
    board: usize,
    context: &[u8],
) -> Result<Shape, Refusal>
    ensures { Tested (refusal_at image.now state (Acknowledge board context.now))
        (Offered image.now state board (length context.now)) result }
{
    let s = begin(image, state, board, context)?;
    let i = board as u8;
    let engaged = state.engaged();
    if !has(engaged, i) {
        return Err(Refusal::NoMember);
    }
    let open = state.commit_of(i);
    if has(open.acknowledged, i) {
        return Err(Refusal::Acknowledged);
    }
    Ok(s)
}

pub fn start(image: &mut [u8], state: Record, board: usize, context: &[u8], k: usize) -> Reply
    ensures { Performed (Start board context.now) k
        image.old state result image.new }
{
    let s = match start_entry(image, state, board, context) {
        Ok(s) => s,
        Err(why) => return refusal(why, state),
    };
    let i = board as u8;
    let rows = state.rows;
    let group = commit_closure(rows, i);
    let next = state.start(i, group.members);
    give(image, s, next, group, board, context, k)
}

pub fn acknowledge(image: &mut [u8], state: Record, board: usize, context: &[u8], k: usize) -> Reply
    ensures { Performed (Acknowledge board context.now) k
        image.old state result image.new }
{
    let s = match acknowledge_entry(image, state, board, context) {
        Ok(s) => s,
        Err(why) => return refusal(why, state),
    };
    let i = board as u8;
    let open = state.commit_of(i);
    let next = state.acknowledge(i);
    let rows = next.rows;
    let group = without(rows, open.members);
    give(image, s, next, group, board, context, k)
}
