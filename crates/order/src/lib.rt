#![tactic(auto)]
// In which order the boards shall commit (document 02, Req 07): the strongly connected components of the dependences,
// each after all that it depends on. Nothing is stored, and the record stays as it is.
ghost use Rattle.std.specs.Prelude.{◌≡◌, Some, None, cond, ◌+◌, ◌≤◌, ◌<◌, length};
ghost use Rattle.boards.specs.Lists.{count};
ghost use Rattle.boards.specs.Boards.{has};
ghost use Rattle.boards.specs.Rows.{links_of};
ghost use Rattle.components.specs.Components.{intersection, component, ready, lowest, all_boards};
ghost use Rattle.order.specs.Call.{AnswersOrder, ordered_says, WithDependents, PutFrom};

use boards::sets;
use entry::enter;
use groups::{commit_closure, fault_closure};
use protocol::Refusal;
use volatile::Record;

// The boards of both g and h.
fn intersection(g: u16, h: u16) -> u16
    ensures { result ≡ intersection g h }
{
    g & h
}

// The component of board i if it may go next.
fn ready_component(rows: [u16; 16], left: u16, i: u8) -> Option<u16>
    requires { i < 16 }
    ensures { result ≡ cond (ready (links_of rows) left i) (Some (component (links_of rows) i)) None }
{
    if !sets::has(left, i) {
        return None;
    }
    let needed = commit_closure(rows, i);
    let dependents = fault_closure(rows, i);
    let own = intersection(needed.members, dependents.members);
    if intersection(needed.members, left) != own {
        return None;
    }
    Some(own)
}

// The component of the lowest board that may go next.
fn next_component(rows: [u16; 16], left: u16) -> u16
    requires { (0 < left) × WithDependents (links_of rows) left }
    ensures { result ≡ component (links_of rows) (lowest 16 (ready (links_of rows) left)) }
{
    for i in 0..16 {
        if let Some(own) = ready_component(rows, left, i) {
            return own;
        }
    }
    // Not reached: some board left may go next.
    0
}

// Puts the components of the boards left into the masks, from a place on, and tells where they end: the next one, and
// then those of the boards that are still left, which are fewer.
fn order_from(rows: [u16; 16], left: u16, masks: &mut [u16], at: usize) -> usize
    requires { WithDependents (links_of rows) left × (at + count 16 (has left) ≤ length masks.old) }
    ensures { PutFrom (links_of rows) left at masks.old result masks.new }
{
    if left == 0 {
        return at;
    }
    let own = next_component(rows, left);
    masks[at] = own;
    let others = sets::minus(left, own);
    order_from(rows, others, masks, at + 1)
}

// The boards below p.
fn all_boards(p: u8) -> u16
    requires { (0 < p) × (p ≤ 16) }
    ensures { result ≡ all_boards p }
{
    65535u16 >> (16 - p)
}

// How many components there are. Refused 11, 12, 14, and then all masks stay; else those from the count on do.
pub fn order(image: &[u8], state: Record, masks: &mut [u16; 16]) -> Result<usize, Refusal>
    ensures { AnswersOrder image.now state masks.old (ordered_says result) masks.new }
{
    // Board 0 is below P in every header in order: 1 is never answered.
    let s = enter(image, state, 0)?;
    if state.engaged() != 0 {
        return Err(Refusal::CommitOpen);
    }
    let rows = state.rows;
    let all = all_boards(s.boards as u8);
    Ok(order_from(rows, all, masks, 0))
}
