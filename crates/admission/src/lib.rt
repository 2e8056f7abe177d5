#![tactic(auto)]
// What a read and a write test, and where an access that is taken lies.
ghost use Rattle.std.specs.Prelude.{◌≡◌, true, false, ◌+◌, ◌<◌, length};
ghost use Rattle.protocol.specs.Image.{allowed};
ghost use Rattle.protocol.specs.Calls.{Read, Write, refusal_at, bad_range, over_port_limit};
ghost use Rattle.layout.specs.Headers.{tags_at, Shaped};
ghost use Rattle.entry.specs.Tested.{Tested};
ghost use Rattle.admission.specs.Places.{block_at, place_at, Placed};

use boards::sets::{has, tagged_in};
use entry::{board_of, enter_by};
use layout::{TAGS, block_of, current_at};
use protocol::{Refusal, Requester, Shape};
use volatile::Record;

// The most cells of an access by the port.
const PORT_LIMIT: usize = 4;

// A block by its number, with its tag.
#[derive(Clone, Copy)]
pub struct Block {
    pub number: usize,
    pub tag: u8,
}

// The board whose access it is; where it begins in the image; the first and the last block; their size.
#[derive(Clone, Copy)]
pub struct Place {
    pub board: u8,
    pub at: usize,
    pub first: Block,
    pub last: Block,
    pub size: usize,
}

// 2: n is 0 or above S, or the access passes the last cell.
#[tactic(auto, using(crate::proofs::Tests::range_laws), unfolding(protocol::specs::Calls::bad_range))]
fn bad_range(s: Shape, cell: usize, n: usize) -> bool
    requires { allowed s ≡ true }
    ensures { result ≡ bad_range s cell n }
{
    if n == 0 {
        return true;
    }
    let size = s.size;
    if n > size {
        return true;
    }
    cell > s.blocks * size - n
}

// 17: the port asks for more cells than its limit.
#[tactic(auto, using(crate::proofs::Tests::range_laws), unfolding(protocol::specs::Calls::over_port_limit))]
fn over_port_limit(who: Requester, n: usize) -> bool
    ensures { result ≡ over_port_limit who n }
{
    if n <= PORT_LIMIT {
        return false;
    }
    match who {
        Requester::Board(_) => false,
        Requester::Port => true,
    }
}

// A block with its tag.
fn block_at(image: &[u8], number: usize) -> Block
    requires { tags_at + number < length image.now }
    ensures { result ≡ block_at image.now number }
{
    let tag = image[TAGS + number];
    Block { number, tag }
}

// Where a board's access of n cells lies: its first cell tells the first block, its last cell the last one.
#[tactic(auto, using(crate::proofs::Tests::place_laws))]
fn locate(image: &[u8], s: Shape, board: u8, cell: usize, n: usize) -> Place
    requires { Shaped image.now s × (bad_range s cell n ≡ false) }
    ensures { result ≡ place_at s image.now board cell n }
{
    let from = block_of(image, cell);
    let to = block_of(image, cell + n - 1);
    let first = block_at(image, from);
    let last = block_at(image, to);
    let at = current_at(s) + cell;
    Place {
        board,
        at,
        first,
        last,
        size: s.size,
    }
}

// A read: the first tests of a board's call, then 2, 17, 5, 11 for either block's tag, 13.
pub fn admit(
    image: &[u8],
    state: Record,
    who: Requester,
    cell: usize,
    n: usize,
    room: usize,
) -> Result<Place, Refusal>
    ensures { Tested (refusal_at image.now state (Read who cell n room))
        (Placed image.now state who cell n room) result }
{
    let s = enter_by(image, state, who)?;
    if bad_range(s, cell, n) {
        return Err(Refusal::OutOfRange);
    }
    if over_port_limit(who, n) {
        return Err(Refusal::OverPortLimit);
    }
    if n > room {
        return Err(Refusal::WrongLength);
    }
    let board = board_of(s, who) as u8;
    let p = locate(image, s, board, cell, n);
    if p.first.tag as usize > s.boards || p.last.tag as usize > s.boards {
        return Err(Refusal::Disordered);
    }
    let members = state.engaged();
    if has(members, board) {
        return Err(Refusal::Engaged);
    }
    Ok(p)
}

// A write: as a read with room enough, then 13 if either block is a member's.
pub fn admit_write(
    image: &[u8],
    state: Record,
    who: Requester,
    cell: usize,
    bytes: &[u8],
) -> Result<Place, Refusal>
    ensures { Tested (refusal_at image.now state (Write who cell bytes.now))
        (Placed image.now state who cell (length bytes.now)
        (length bytes.now)) result }
{
    let n = bytes.len();
    let p = admit(image, state, who, cell, n, n)?;
    let members = state.engaged();
    if tagged_in(members, p.first.tag) || tagged_in(members, p.last.tag) {
        return Err(Refusal::Engaged);
    }
    Ok(p)
}
