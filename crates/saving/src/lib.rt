#![tactic(auto)]
// Before a line is played: the commit that it will decide, if it decides one, and what that saves (document 02, Req
// 05). Afterwards the tags are gone and, if the call was cut, the record too.
ghost use Rattle.std.specs.Prelude.{◌≡◌, true, ℕ, ◌≤◌, length};
ghost use Rattle.protocol.specs.Image.{allowed, total, view};
ghost use Rattle.protocol.specs.Calls.{Start, Acknowledge};
ghost use Rattle.text.specs.Events.{Make};
ghost use Rattle.page.specs.Saving.{saved, decided_by};
ghost use Rattle.saving.specs.Acknowledged.{if_all_acknowledged};
ghost use Rattle.saving.specs.Lines.{meant_by, counted_by};

use commit::{acknowledge_entry, start_entry};
use forecast::{member_count, tagged_count};
use groups::commit_closure;
use page::Saved;
use protocol::Shape;
use text::Event;
use volatile::Record;

// What a commit of the members g saves.
fn saved(image: &[u8], s: Shape, g: u16) -> Saved
    requires { (allowed s ≡ true) × (length image.now ≡ total s) }
    ensures { result ≡ saved s (view s image.now) g }
{
    let blocks = tagged_count(image, s, g);
    let members = member_count(s, g);
    Saved {
        members: g,
        blocks,
        bytes: blocks * s.size + members * s.context,
    }
}

// Board i has acknowledged, which gave the record r: its commit is decided if all members have, and the allowance lasts
// to the deciding store, the third after the context.
fn if_all_acknowledged(image: &[u8], s: Shape, r: Record, i: u8, k: usize) -> Option<Saved>
    requires { (allowed s ≡ true) × (length image.now ≡ total s) }
    ensures { result ≡ if_all_acknowledged s (view s image.now) r i k }
{
    let open = r.commit_of(i);
    let g = open.members;
    if open.acknowledged != g {
        return None;
    }
    if k < s.context + 3 {
        return None;
    }
    let amounts = saved(image, s, g);
    Some(amounts)
}

// A start: refused, it decides nothing.
fn by_start(image: &[u8], state: Record, board: usize, context: &[u8], k: usize) -> Option<Saved>
    ensures { result ≡ decided_by (record { image = image.entry.now; state = state; k = k })
        (Make (Start board context.now)) }
{
    let Ok(s) = start_entry(image, state, board, context) else {
        return None;
    };
    let i = board as u8;
    let rows = state.rows;
    let group = commit_closure(rows, i);
    let next = state.start(i, group.members);
    if_all_acknowledged(image, s, next, i, k)
}

// Likewise an acknowledgement.
fn by_acknowledgement(
    image: &[u8],
    state: Record,
    board: usize,
    context: &[u8],
    k: usize,
) -> Option<Saved>
    ensures { result ≡ decided_by (record { image = image.entry.now; state = state; k = k })
        (Make (Acknowledge board context.now)) }
{
    let Ok(s) = acknowledge_entry(image, state, board, context) else {
        return None;
    };
    let i = board as u8;
    let next = state.acknowledge(i);
    if_all_acknowledged(image, s, next, i, k)
}

// A line that was taken apart; its bytes stand at the start of the buffer. Only these two decide: a line that is
// refused does not, by whatever it is refused.
pub fn decided_by<E: Copy>(
    image: &[u8],
    state: Record,
    k: usize,
    line: Result<Event, E>,
    buffer: &[u8],
) -> Option<Saved>
    requires { counted_by line ≤ length buffer.now }
    ensures { (number : E → ℕ) → result ≡ decided_by (record { image = image.entry.now; state = state; k = k })
        (meant_by number line buffer.now) }
{
    let Ok(event) = line else {
        return None;
    };
    match event {
        Event::Start { board, count } => by_start(image, state, board, &buffer[0..count], k),
        Event::Acknowledge { board, count } => {
            by_acknowledgement(image, state, board, &buffer[0..count], k)
        }
        _ => None,
    }
}
