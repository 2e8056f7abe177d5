#![tactic(auto)]
// Reads and writes, by a board and by the port.
ghost use Rattle.std.specs.Prelude.{◌≡◌, ◌++◌, ◌+◌, ◌≤◌, ◌<◌, length};
ghost use Rattle.volatile.specs.Volatile.{depend};
ghost use Rattle.protocol.specs.Accesses.{bind_tag};
ghost use Rattle.protocol.specs.Calls.{Read, Write};
ghost use Rattle.protocol.specs.declared.Requester.TheVariants.{Board, Port};
ghost use Rattle.layout.specs.Headers.{tags_at};
ghost use Rattle.store.specs.Budget.{Makes};
ghost use Rattle.store.specs.Runs.{put_stores};
ghost use Rattle.store.specs.Promise.{Performed, Answered};
ghost use Rattle.access.specs.Leaves.{bound, filled_from, tag_store, first_tag_store, last_tag_store, binding_of};

use admission::{Block, Place, admit, admit_write};
use boards::sets::writer_of;
use layout::TAGS;
use protocol::{Binding, Reply, Requester};
use store::answers::{finish, refusal};
use store::{Budget, put_all, store};
use volatile::Record;

// An access of a block with this tag binds the board and the writer, if that is another board.
fn bind(state: Record, how: Binding, i: u8, tag: u8) -> Record
    requires { (i < 16) × (tag ≤ 16) }
    ensures { result ≡ bind_tag depend how state i tag }
{
    let Some(j) = writer_of(tag) else {
        return state;
    };
    if i == j {
        return state;
    }
    let forth = match how {
        Binding::OneWay => return state.depend(i, j),
        Binding::TwoWay => state.depend(i, j),
        Binding::Opposite => state,
    };
    forth.depend(j, i)
}

// An access binds its board in its first block and, if that is another, in the last.
fn bind_blocks(state: Record, how: Binding, p: Place) -> Record
    requires { (p.board < 16) × (p.first.tag ≤ 16) × (p.last.tag ≤ 16) }
    ensures { result ≡ bound how p state }
{
    let last = p.last;
    let next = bind(state, how, p.board, p.first.tag);
    if p.first.number == last.number {
        return next;
    }
    bind(next, how, p.board, last.tag)
}

// The first n bytes of the buffer become those of the image from `at` on.
fn fill(image: &[u8], at: usize, n: usize, buffer: &mut [u8])
    requires { (at + n ≤ length image.now) × (n ≤ length buffer.old) }
    ensures { buffer.new ≡ filled_from image.now at n buffer.old }
{
    buffer[..n].copy_from_slice(&image[at..at + n]);
}

// The first n bytes of the buffer become the current bytes from the cell on; the requester's board comes to depend on
// the active writer of each block.
fn read_by(
    image: &[u8],
    state: Record,
    who: Requester,
    cell: usize,
    n: usize,
    buffer: &mut [u8],
) -> Reply
    ensures { Answered (Read who cell n (length buffer.old)) image.now state
        buffer.old result buffer.new }
{
    let p = match admit(image, state, who, cell, n, buffer.len()) {
        Ok(p) => p,
        Err(why) => return refusal(why, state),
    };
    let next = bind_blocks(state, Binding::OneWay, p);
    fill(image, p.at, n, buffer);
    let none = Budget::new(0);
    finish(0, none, false, 0, next)
}

// A read by a board.
pub fn read(
    image: &[u8],
    state: Record,
    board: usize,
    cell: usize,
    n: usize,
    buffer: &mut [u8],
) -> Reply
    ensures { Answered (Read (Board board) cell n (length buffer.old)) image.now state
        buffer.old result buffer.new }
{
    read_by(image, state, Requester::Board(board), cell, n, buffer)
}

// A read by the port: at most 4 cells, as board P - 1.
pub fn port_read(image: &[u8], state: Record, cell: usize, n: usize, buffer: &mut [u8]) -> Reply
    ensures { Answered (Read Port cell n (length buffer.old)) image.now state
        buffer.old result buffer.new }
{
    read_by(image, state, Requester::Port, cell, n, buffer)
}

// The block's tag becomes the writer's, if it is another.
fn put_tag(image: &mut [u8], block: Block, own: u8, k: Budget) -> Budget
    requires { tags_at + block.number < length image.old }
    ensures { Makes (tag_store own block) k image.old result image.new }
{
    if block.tag == own {
        return k;
    }
    store(image, TAGS + block.number, own, k)
}

// The last block's tag, if that is another block than the first.
fn put_last_tag(image: &mut [u8], p: Place, k: Budget) -> Budget
    requires { (tags_at + p.last.number < length image.old) × (p.board < 16) }
    ensures { Makes (last_tag_store p) k image.old result image.new }
{
    let last = p.last;
    if last.number == p.first.number {
        return k;
    }
    put_tag(image, last, p.board + 1, k)
}

// The tags that differ, the first block's first; then the bytes, ascending.
fn put_bytes(image: &mut [u8], p: Place, bytes: &[u8], k: Budget) -> Budget
    requires { (tags_at + p.first.number < length image.old) × (tags_at + p.last.number < length image.old)
        × (p.at + length bytes.now ≤ length image.old) × (p.board < 16) }
    ensures { Makes ((first_tag_store p ++ last_tag_store p) ++ put_stores p.at bytes.now) k
        image.old result image.new }
{
    let first = p.first;
    let after_first = put_tag(image, first, p.board + 1, k);
    let after_tags = put_last_tag(image, p, after_first);
    put_all(image, p.at, bytes, after_tags)
}

// How a write of n bytes binds in each of its blocks: with at most S bytes it overwrites a block whole only if it
// touches no other.
fn binding_of(p: Place, n: usize) -> Binding
    ensures { result ≡ binding_of p n }
{
    if n < p.size {
        return Binding::TwoWay;
    }
    if p.first.number == p.last.number {
        return Binding::Opposite;
    }
    Binding::TwoWay
}

// The bytes become the current bytes from the cell on. If a block's active writer is another board than the
// requester's, each comes to depend on the other; if the whole block is written, only that writer on this board.
fn write_by(
    image: &mut [u8],
    state: Record,
    who: Requester,
    cell: usize,
    bytes: &[u8],
    k: usize,
) -> Reply
    ensures { Performed (Write who cell bytes.now) k image.old state
        result image.new }
{
    let p = match admit_write(image, state, who, cell, bytes) {
        Ok(p) => p,
        Err(why) => return refusal(why, state),
    };
    let how = binding_of(p, bytes.len());
    let next = bind_blocks(state, how, p);
    let budget = Budget::new(k);
    let left = put_bytes(image, p, bytes, budget);
    finish(k, left, false, 0, next)
}

// A write by a board.
pub fn write(
    image: &mut [u8],
    state: Record,
    board: usize,
    cell: usize,
    bytes: &[u8],
    k: usize,
) -> Reply
    ensures { Performed (Write (Board board) cell bytes.now) k image.old state
        result image.new }
{
    write_by(image, state, Requester::Board(board), cell, bytes, k)
}

// A write by the port: at most 4 cells, as board P - 1.
pub fn port_write(image: &mut [u8], state: Record, cell: usize, bytes: &[u8], k: usize) -> Reply
    ensures { Performed (Write Port cell bytes.now) k image.old state
        result image.new }
{
    write_by(image, state, Requester::Port, cell, bytes, k)
}
