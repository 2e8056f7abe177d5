#![tactic(auto)]
// Output lines, written into a lent buffer.
ghost use Rattle.std.specs.Prelude.{◌≡◌, ◌+◌, ◌*◌, ◌≤◌, length};
ghost use Rattle.protocol.specs.Replies.{answer_says};
ghost use Rattle.text.specs.Rows.{row_text, rows_text, rows_meant};
ghost use Rattle.digits.specs.Append.{HasRoom, Writes};
ghost use Rattle.printing.specs.Parts.{between, head_text, middle_text, tail_text};

use digits::Output;
use protocol::{Answer, Refusal, status_of};
use text::{Letter, Rows};

// A character between commas.
fn put_between(out: &mut Output, c: u8)
    requires { HasRoom 3 out.old }
    ensures { Writes (between c) out.old out.new }
{
    out.put_text(&[b',', c, b',']);
}

// Line number, letter and status.
#[tactic(auto, using(digits::proofs::Laws::length_decimal))]
fn put_head(out: &mut Output, number: usize, letter: u8, status: u8)
    requires { HasRoom 13 out.old }
    ensures { Writes (head_text number letter status) out.old out.new }
{
    out.put_decimal(number);
    put_between(out, letter);
    out.put_decimal(status as usize);
}

// Whether a commit was decided, and the group.
fn put_middle(out: &mut Output, decided: bool, group: u16)
    requires { HasRoom 7 out.old }
    ensures { Writes (middle_text decided group) out.old out.new }
{
    let flag = if decided { b'1' } else { b'0' };
    put_between(out, flag);
    out.put_group(group);
}

// The stores, the bytes and the line feed.
#[tactic(auto, using(digits::proofs::Laws::length_decimal, digits::proofs::Laws::length_bytes))]
fn put_tail(out: &mut Output, stores: usize, bytes: &[u8])
    requires { HasRoom (8 + 2 * length bytes.now) out.old }
    ensures { Writes (tail_text stores bytes.now) out.old out.new }
{
    out.put(b',');
    out.put_decimal(stores);
    out.put(b',');
    out.put_bytes(bytes);
    out.put(b'\n');
}

// What a row shows of an answer: of a refusal no and zeros.
fn shown(answer: Result<Answer, Refusal>) -> Answer
    ensures decided { result.decided ≡ (answer_says answer).decided }
    ensures group { result.group ≡ (answer_says answer).group }
    ensures stores { result.stores ≡ (answer_says answer).stores }
{
    answer.unwrap_or_default()
}

// A row: a whole line, of at most 160 characters.
#[tactic(auto, using(crate::proofs::Laws::length_head, crate::proofs::Laws::length_middle))]
fn put_row(
    out: &mut Output,
    number: usize,
    letter: u8,
    answer: Result<Answer, Refusal>,
    bytes: &[u8],
)
    requires { HasRoom 160 out.old × (length bytes.now ≤ 64) }
    ensures writes { Writes
        (row_text number (record { letter = letter; answer = answer_says answer; bytes = bytes.now }))
        out.old out.new }
    ensures room { out.new.end ≤ out.old.end + 160 }
{
    put_head(out, number, letter, status_of(answer));
    let shown = shown(answer);
    put_middle(out, shown.decided, shown.group);
    put_tail(out, shown.stores, bytes);
}

// The rows of the line that has this number; the bytes that they count stand at the buffer's start.
pub fn put_rows(out: &mut Output, number: usize, rows: Rows, buffer: &[u8])
    requires { HasRoom 320 out.old × (rows.first.count ≤ 64) × (64 ≤ length buffer.now) }
    ensures writes { Writes (rows_text number (rows_meant rows buffer.now)) out.old out.new }
    ensures room { out.new.end ≤ out.old.end + 320 }
{
    let first = rows.first;
    put_row(
        out,
        number,
        first.character(),
        first.answer,
        &buffer[..first.count],
    );
    let Some(answer) = rows.after else {
        return;
    };
    let letter = Letter::PowerUp;
    put_row(out, number, letter.character(), answer, &[]);
}
