#![tactic(auto)]
// The letter and the numbers of an event line, read.
ghost use Rattle.std.specs.Prelude.{◌≡◌, ◌≤◌, eqb, length, Some};
ghost use Rattle.text.specs.Fields.{until, before, number_from, number_of};
ghost use Rattle.text.specs.Letters.{table, looked_up, letter_of};
ghost use Rattle.fields.specs.Numbers.{measured, Numbered};

use protocol::Refusal;
use text::{Listing, TABLE};

// A field read as a number, and how many characters it has.
#[derive(Clone, Copy)]
pub struct Number {
    pub value: usize,
    pub length: usize,
}

// The numbers behind a line's letter, as many as are due, and where the last field that was read ends.
#[derive(Clone, Copy)]
pub struct Values {
    pub first: usize,
    pub second: usize,
    pub third: usize,
    pub fourth: usize,
    pub end: usize,
}

// How many characters stand before the first d.
pub fn find(s: &[u8], d: u8) -> usize
    ensures { result ≡ length (until d s.now) }
{
    s.iter().position(|c| *c == d).unwrap_or(s.len())
}

// A character as a letter of the table.
fn look_up(c: u8) -> Option<Listing>
    ensures { result ≡ looked_up c table }
{
    TABLE
        .iter()
        .find(|entry| entry.letter.character() == c)
        .copied()
}

// Whether the field before the first comma has one character: two characters tell, however long the line.
fn one_character(s: &[u8]) -> bool
    ensures { result ≡ eqb (length (before s.now)) 1 }
{
    find(&s[..s.len().min(2)], b',') == 1
}

// The field before the first comma as a letter, which stands alone in it.
pub fn first_letter(s: &[u8]) -> Option<Listing>
    ensures { result ≡ letter_of (before s.now) }
{
    if !one_character(s) {
        return None;
    }
    look_up(s[0])
}

// A field of n digits that make v: a number, unless there is none or a zero leads others.
fn without_zeros(s: &[u8], n: usize, v: usize) -> Option<Number>
    requires { (n ≡ length (before s.now)) × (number_from 0 (before s.now) ≡ Some v) }
    ensures { result ≡ measured (number_of (before s.now)) (length (before s.now)) }
{
    if n == 0 {
        return None;
    }
    if n > 1 && s[0] == b'0' {
        return None;
    }
    Some(Number {
        value: v,
        length: n,
    })
}

// The field before the first comma as a number of 0 to 65,535 without leading zeros.
pub fn read_number(s: &[u8]) -> Option<Number>
    ensures { result ≡ measured (number_of (before s.now)) (length (before s.now)) }
{
    let mut v = 0;
    for (i, &c) in s.iter().enumerate() {
        if c == b',' {
            return without_zeros(s, i, v);
        }
        if !c.is_ascii_digit() {
            return None;
        }
        v = 10 * v + (c - b'0') as usize;
        if v > 65535 {
            return None;
        }
    }
    without_zeros(s, s.len(), v)
}

// The `due` fields behind a line's letter as numbers: each a number, then the rest.
pub fn read_numbers(s: &[u8], due: usize) -> Result<Values, Refusal>
    requires { (length (before s.now) ≡ 1) × (due ≤ 4) }
    ensures { Numbered s.now due result }
{
    let mut values = [0usize; 4];
    let mut end = 1;
    for i in 0..due {
        if end >= s.len() {
            return Err(Refusal::Unreadable);
        }
        let from = end + 1;
        let Some(number) = read_number(&s[from..]) else {
            return Err(Refusal::Unreadable);
        };
        values[i] = number.value;
        end = from + number.length;
    }
    Ok(Values {
        first: values[0],
        second: values[1],
        third: values[2],
        fourth: values[3],
        end,
    })
}
