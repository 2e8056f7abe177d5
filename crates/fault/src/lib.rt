#![tactic(auto)]
// The fault of a board, which rolls back all who depend on it.
ghost use Rattle.protocol.specs.Calls.{Fault};
ghost use Rattle.store.specs.Promise.{Performed};

use blocks::{Copying, copy_blocks};
use entry::enter;
use groups::fault_closure;
use protocol::Reply;
use store::Budget;
use store::answers::{finish, refusal};
use volatile::Record;

// The blocks of the fault group are restored and its boards cleared from the record.
pub fn fault(image: &mut [u8], state: Record, board: usize, k: usize) -> Reply
    ensures { Performed (Fault board) k image.old state result image.new }
{
    let s = match enter(image, state, board) {
        Ok(s) => s,
        Err(why) => return refusal(why, state),
    };
    let rows = state.rows;
    let group = fault_closure(rows, board as u8);
    let g = group.members;
    let whole = Budget::new(k);
    let left = copy_blocks(image, s, g, Copying::Restore, whole);
    let next = state.clear(group);
    finish(k, left, false, g, next)
}
