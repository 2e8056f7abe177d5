#![tactic(auto)]
// A line of events taken apart: its letter, the numbers behind it, and the bytes that the lines of some letters end in.
ghost use Rattle.std.specs.Prelude.{◌≡◌, true, false, List, ℕ, ◌≤◌, length, take, Some, Ok};
ghost use Rattle.text.specs.Fields.{before};
ghost use Rattle.text.specs.Letters.{letter_of};
ghost use Rattle.text.specs.Events.{meant, counted, with_letter, taken};
ghost use Rattle.fields.specs.Numbers.{values_of};
ghost use Rattle.events.specs.Made.{bytes_last, of_numbers, of_bytes};

use fields::{Values, first_letter, read_numbers};
use hexadecimal::read_bytes;
use protocol::{Refusal, Shape};
use text::{Event, Letter, Listing};

// The longest line.
const LONGEST: usize = 160;

// Whether the last field of a letter's lines is bytes.
#[tactic(auto, unfolding(crate::specs::Made::bytes_last))]
fn ends_in_bytes(letter: Letter) -> bool
    ensures { result ≡ bytes_last letter }
{
    matches!(letter, Letter::Write | Letter::Start | Letter::Acknowledge)
}

// F, R, X, U, else Z, with its numbers.
#[tactic(auto, unfolding(crate::specs::Made::of_numbers, text::specs::Events::meant, text::specs::Events::counted))]
fn with_values(letter: Letter, v: Values) -> Event
    ensures { ((b : List ℕ) → meant (Ok result) b ≡ of_numbers letter (values_of v)) × (counted (Ok result) ≤ 80) }
{
    let board = v.first;
    match letter {
        Letter::Format => Event::Format {
            shape: Shape {
                boards: v.first,
                size: v.second,
                blocks: v.third,
                context: v.fourth,
            },
        },
        Letter::Read => Event::Read {
            board,
            cell: v.second,
            n: v.third,
        },
        Letter::Fault => Event::Fault { board },
        Letter::PowerUp => Event::PowerUp,
        _ => Event::Allow { k: v.first },
    }
}

// A line whose fields behind the letter are numbers, as many as it has commas.
fn take_numbers(line: &[u8], listing: Listing) -> Result<Event, Refusal>
    requires { (letter_of (before line.now) ≡ Some listing) × (bytes_last listing.letter ≡ false) }
    ensures { ((b : List ℕ) → meant result b ≡ with_letter (Some listing) line.now) × (counted result ≤ 80) }
{
    let Ok(values) = read_numbers(line, listing.commas as usize) else {
        return Err(Refusal::Unreadable);
    };
    if values.end < line.len() {
        return Err(Refusal::Unreadable);
    }
    Ok(with_values(listing.letter, values))
}

// W, C, else A, with its numbers and the count of its bytes.
#[tactic(auto, unfolding(crate::specs::Made::of_bytes, text::specs::Events::meant, text::specs::Events::counted))]
fn with_count(letter: Letter, v: Values, count: usize) -> Event
    ensures { ((b : List ℕ) → meant (Ok result) b ≡ of_bytes letter (values_of v) (take count b))
        × (counted (Ok result) ≡ count) }
{
    let board = v.first;
    let cell = v.second;
    match letter {
        Letter::Write => Event::Write { board, cell, count },
        Letter::Start => Event::Start { board, count },
        _ => Event::Acknowledge { board, count },
    }
}

// A line whose last field is bytes, and those between it and the letter are numbers.
fn take_bytes(line: &[u8], listing: Listing, buffer: &mut [u8]) -> Result<Event, Refusal>
    requires { (letter_of (before line.now) ≡ Some listing) × (bytes_last listing.letter ≡ true)
        × (length line.now ≤ 160) × (80 ≤ length buffer.old) }
    ensures { (meant result buffer.new ≡ with_letter (Some listing) line.now) × (counted result ≤ 80) }
{
    let Ok(values) = read_numbers(line, (listing.commas - 1) as usize) else {
        return Err(Refusal::Unreadable);
    };
    let end = values.end;
    if end >= line.len() {
        return Err(Refusal::Unreadable);
    }
    let from = end + 1;
    let Some(count) = read_bytes(&line[from..], buffer) else {
        return Err(Refusal::Unreadable);
    };
    Ok(with_count(listing.letter, values, count))
}

// A line taken apart; its bytes stand at the buffer's start.
pub fn take_apart(line: &[u8], buffer: &mut [u8]) -> Result<Event, Refusal>
    requires { 80 ≤ length buffer.old }
    ensures { (meant result buffer.new ≡ taken line.now) × (counted result ≤ 80) }
{
    if line.len() > LONGEST {
        return Err(Refusal::Unreadable);
    }
    let Some(listing) = first_letter(line) else {
        return Err(Refusal::Unreadable);
    };
    if ends_in_bytes(listing.letter) {
        return take_bytes(line, listing, buffer);
    }
    take_numbers(line, listing)
}
