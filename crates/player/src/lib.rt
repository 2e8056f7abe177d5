#![tactic(auto)]
// Plays an event on image, record and pending allowance.
ghost use Rattle.std.specs.Prelude.{◌≡◌, List, ℕ, ◌≤◌, length, take, replicate};
ghost use Rattle.protocol.specs.Calls.{Read};
ghost use Rattle.protocol.specs.declared.Requester.TheVariants.{Board};
ghost use Rattle.text.specs.Events.{Format, Make, room, counted, meant};
ghost use Rattle.text.specs.Turns.{play};
ghost use Rattle.store.specs.Promise.{Formatted};
ghost use Rattle.turns.specs.Turned.{player_of, Ready, Turns};

use access::{read, write};
use commit::{acknowledge, start};
use fault::fault;
use format::format;
use layout::{allowed, total};
use protocol::{Refusal, Reply, Shape};
use recovery::power_up;
use text::{Event, Letter};
use turns::{Session, Turned, UNCUT, answered, end_turn, tell};
use volatile::Record;

// The first `size` bytes of the area are zeroed, and formatted.
fn format_anew(area: &mut [u8], state: Record, s: Shape, size: usize, k: usize) -> Reply
    requires { size ≤ length area.old }
    ensures { Formatted s (replicate size 0) state k result (take size area.new) }
{
    area[0..size].fill(0);
    format(&mut area[0..size], state, s, k)
}

// A format within the limits first makes the image that length, all zero.
fn play_format(area: &mut [u8], p: Session, s: Shape) -> Turned
    requires { Ready p area.old }
    ensures { (buffer : List ℕ) →
        Turns (play (player_of p area.old) (Format s)) result area.new buffer }
{
    let state = p.state;
    if !allowed(s) {
        let length = p.length;
        let reply = format(&mut area[0..length], state, s, p.k);
        return end_turn(area, length, reply, Letter::Format, 0);
    }
    let size = total(s);
    let reply = format_anew(area, state, s, size, p.k);
    end_turn(area, size, reply, Letter::Format, 0)
}

// A read; its bytes go to the start of the buffer.
fn play_read(
    area: &mut [u8],
    p: Session,
    board: usize,
    cell: usize,
    n: usize,
    buffer: &mut [u8],
) -> Turned
    requires { (Ready p area.old) × (64 ≤ length buffer.old) }
    ensures { Turns (play (player_of p area.old) (Make (Read (Board board) cell n room))) result
        area.new buffer.new }
{
    let length = p.length;
    let state = p.state;
    let reply = read(&area[0..length], state, board, cell, n, &mut buffer[0..64]);
    let count = answered(reply.answer, n);
    end_turn(area, length, reply, Letter::Read, count)
}

// Plays a line that was taken apart; its bytes stand at the start of the buffer, and so do then those of its rows.
pub fn play(area: &mut [u8], p: Session, line: Result<Event, Refusal>, buffer: &mut [u8]) -> Turned
    requires { (Ready p area.old) × (counted line ≤ length buffer.old) × (64 ≤ length buffer.old) }
    ensures { Turns (play (player_of p area.old) (meant line buffer.old)) result
        area.new buffer.new }
{
    let event = match line {
        Ok(event) => event,
        Err(why) => return tell(p, Err(why), UNCUT),
    };
    let size = p.length;
    let state = p.state;
    let k = p.k;
    match event {
        Event::Format { shape } => play_format(area, p, shape),
        Event::Read { board, cell, n } => play_read(area, p, board, cell, n, buffer),
        Event::Write { board, cell, count } => {
            let reply = write(&mut area[0..size], state, board, cell, &buffer[0..count], k);
            end_turn(area, size, reply, Letter::Write, 0)
        }
        Event::Start { board, count } => {
            let reply = start(&mut area[0..size], state, board, &buffer[0..count], k);
            end_turn(area, size, reply, Letter::Start, 0)
        }
        Event::Acknowledge { board, count } => {
            let reply = acknowledge(&mut area[0..size], state, board, &buffer[0..count], k);
            end_turn(area, size, reply, Letter::Acknowledge, 0)
        }
        Event::Fault { board } => {
            let reply = fault(&mut area[0..size], state, board, k);
            end_turn(area, size, reply, Letter::Fault, 0)
        }
        Event::PowerUp => {
            let reply = power_up(&mut area[0..size], k);
            end_turn(area, size, reply, Letter::PowerUp, 0)
        }
        Event::Allow { k } => tell(p, Ok(Letter::Allow), k),
    }
}
