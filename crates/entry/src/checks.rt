// Test 12 of a record, for P boards (document 01, refusal 12).
ghost use Rattle.std.specs.Prelude.{◌≡◌, ◌<◌};
ghost use Rattle.volatile.specs.Volatile.{bad_row, bad_rows, bad_open, bad_closed, bad_commit, bad_record};

use boards::sets;
use volatile::{Commit, Record};

// Whether row i has a bit at or above p, is at or above p and not empty, or has its own bit.
fn bad_row(p: u8, i: u8, row: u16) -> bool
    requires { i < 16 }
    ensures { result ≡ bad_row p i row }
{
    if sets::beyond(p, row) {
        return true;
    }
    if p <= i {
        return row != 0;
    }
    sets::has(row, i)
}

fn bad_rows(p: u8, rows: [u16; 16]) -> bool
    ensures { result ≡ bad_rows p rows }
{
    rows.iter()
        .enumerate()
        .any(|(i, row)| bad_row(p, i as u8, *row))
}

// No commit is open: starter or acknowledged is not 0.
fn bad_closed(c: Commit) -> bool
    ensures { result ≡ bad_closed c }
{
    if c.starter != 0 {
        return true;
    }
    c.acknowledged != 0
}

// A commit is open: acknowledged is not within members, equal to members, or without the starter.
fn bad_open(c: Commit) -> bool
    ensures { result ≡ bad_open c }
{
    if !sets::within(c.acknowledged, c.members) {
        return true;
    }
    if c.acknowledged == c.members {
        return true;
    }
    if c.starter >= 16 {
        return true;
    }
    !sets::has(c.acknowledged, c.starter)
}

fn bad_commit(p: u8, c: Commit) -> bool
    ensures { result ≡ bad_commit p c }
{
    if sets::beyond(p, c.members) {
        return true;
    }
    if sets::beyond(p, c.acknowledged) {
        return true;
    }
    if c.members == 0 {
        return bad_closed(c);
    }
    bad_open(c)
}

pub fn bad_record(p: u8, r: Record) -> bool
    ensures { result ≡ bad_record p r }
{
    if !r.on {
        return true;
    }
    let rows = r.rows;
    if bad_rows(p, rows) {
        return true;
    }
    let commit = r.commit;
    bad_commit(p, commit)
}
