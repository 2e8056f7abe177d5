#![tactic(auto)]
// How a line's turn ends: its rows, the power-up after a cut, and what stands between two lines.
ghost use Rattle.std.specs.Prelude.{◌≡◌, cond, List, ℕ, ◌≤◌, eqb, length, take};
ghost use Rattle.volatile.specs.declared.Record.{Record as State};
ghost use Rattle.protocol.specs.Replies.{answer_says, reply_says, refusal_answer};
ghost use Rattle.protocol.specs.Calls.{perform, PowerUp};
ghost use Rattle.text.specs.Letters.{character_of, row_character};
ghost use Rattle.text.specs.Turns.{ended, told, uncut};
ghost use Rattle.turns.specs.Turned.{Turns, Powered, character_told, status_told};

use protocol::{Answer, Refusal, Reply};
use recovery::power_up;
use text::{Letter, Row, Rows};
use volatile::Record;

// More than any call stores.
pub const UNCUT: usize = 65535;

// What stands between two lines: the image's length in its area, the record, the allowance of the next line.
#[derive(Clone, Copy)]
pub struct Session {
    pub length: usize,
    pub state: Record,
    pub k: usize,
}

// The next session, and the rows of the line.
#[derive(Clone, Copy)]
pub struct Turned {
    pub next: Session,
    pub rows: Rows,
}

// The image is powered up, uncut; that row follows the first.
fn power_turn(area: &mut [u8], size: usize, first: Row) -> Turned
    requires { size ≤ length area.old }
    ensures { (state : State) → Powered (perform (take size area.old) state PowerUp uncut)
        size first result area.new }
{
    let up = power_up(&mut area[0..size], UNCUT);
    let state = up.next;
    let next = Session {
        length: size,
        state,
        k: UNCUT,
    };
    let after = Some(up.answer);
    let rows = Rows { first, after };
    Turned { next, rows }
}

fn was_cut(answer: Result<Answer, Refusal>) -> bool
    ensures { result ≡ eqb (answer_says answer).status 9 }
{
    match answer {
        Ok(a) => a.cut,
        Err(_) => false,
    }
}

// A call's row, with the first `count` bytes of a buffer; after a cut the power-up follows.
pub fn end_turn(area: &mut [u8], size: usize, reply: Reply, letter: Letter, count: usize) -> Turned
    requires { (size ≤ 35852) × (35852 ≤ length area.old) × (count ≤ 64) }
    ensures { (buffer : List ℕ) → Turns
        (ended (character_of letter)
        (record { reply = reply_says reply; image = take size area.old; bytes = take count buffer }))
        result area.new buffer }
{
    let answer = reply.answer;
    let state = reply.next;
    let first = Row {
        letter: Some(letter),
        answer,
        count,
    };
    if was_cut(answer) {
        return power_turn(area, size, first);
    }
    let next = Session {
        length: size,
        state,
        k: UNCUT,
    };
    let after = None;
    let rows = Rows { first, after };
    Turned { next, rows }
}

// The row of a line that makes no call: no bytes, and nothing answered but the refusal of one that can't be taken
// apart.
fn told_row(letter: Result<Letter, Refusal>) -> Row
    ensures letter { row_character result.letter ≡ character_told letter }
    ensures answer { answer_says result.answer ≡ refusal_answer (status_told letter) }
    ensures count { result.count ≡ 0 }
{
    match letter {
        Ok(letter) => Row {
            letter: Some(letter),
            answer: Ok(Answer::default()),
            count: 0,
        },
        Err(why) => Row {
            letter: None,
            answer: Err(why),
            count: 0,
        },
    }
}

// The row of a line that makes no call, by its letter, or of one that can't be taken apart; k is the allowance of the
// next line.
pub fn tell(p: Session, letter: Result<Letter, Refusal>, k: usize) -> Turned
    requires { p.length ≤ 35852 }
    ensures { (area : List ℕ) (buffer : List ℕ) → Turns
        (told (character_told letter) (status_told letter)
        (record { image = take p.length area; state = p.state; k = k })) result area buffer }
{
    let first = told_row(letter);
    let after = None;
    let rows = Rows { first, after };
    let state = p.state;
    let next = Session {
        length: p.length,
        state,
        k,
    };
    Turned { next, rows }
}

// How many bytes a read of n answered: all, or none if it was refused or cut.
pub fn answered(answer: Result<Answer, Refusal>, n: usize) -> usize
    ensures { result ≡ cond (eqb (answer_says answer).status 0) n 0 }
{
    match answer {
        Ok(a) => if a.cut { 0 } else { n },
        Err(_) => 0,
    }
}
