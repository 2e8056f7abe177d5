#![tactic(auto)]
// The search of groups: from the sixteen rows taken as one value, which come back emptied (document 01, "Groups"). Each
// board of the group has its row, or its column, added once (document 02, Req 04).
ghost use Rattle.std.specs.Prelude.{◌≡◌, false, suc, ◌<◌};
ghost use Rattle.boards.specs.Lists.{count};
ghost use Rattle.boards.specs.Boards.{has, set_of, with_board, commit_group, fault_group, pass};
ghost use Rattle.boards.specs.Rows.{links_of, union, Grouped};
ghost use Rattle.groups.specs.Search.{Searched, followed, kept, PassInvariant};
ghost use Rattle.groups.specs.declared.Direction.TheVariants.{Rows, Columns};

use boards::rows::without;
use boards::{Closure, sets};

// Along which a search follows the dependences: the rows lead to whom a board depends on, the columns to who depends on
// it.
#[derive(Clone, Copy, PartialEq, Eq, Debug)]
enum Direction {
    Rows,
    Columns,
}

// How far a search is: the boards gathered, those of them whose row or column was added, and how many were added.
#[derive(Clone, Copy)]
struct Progress {
    members: u16,
    added: u16,
    count: u16,
}

// What a search hands back: the group and the rows emptied, and how many rows or columns it added.
#[derive(Clone, Copy)]
pub struct Found {
    pub closure: Closure,
    pub count: u16,
}

// The boards of g, without board b unless the test holds.
fn keep(test: bool, b: u8, g: u16) -> u16
    requires { b < 16 }
    ensures { result ≡ kept test b g }
{
    if test {
        return g;
    }
    let own = sets::single(b);
    sets::minus(g, own)
}

// The boards that depend on board a: all, without those that do not. Begun with none it takes more instructions.
fn column(rows: [u16; 16], a: u8) -> u16
    requires { a < 16 }
    ensures { result ≡ set_of (followed rows Columns a) }
{
    let mut boards = 65535;
    for (b, row) in rows.iter().enumerate() {
        let linked = sets::has(*row, a);
        boards = keep(linked, b as u8, boards);
    }
    boards
}

// The row of board a, or its column. Called by `add` alone, which counts it.
fn row_or_column(rows: [u16; 16], a: u8, along: Direction) -> u16
    requires { a < 16 }
    ensures { result ≡ set_of (followed rows along a) }
{
    match along {
        Direction::Rows => rows[a as usize],
        Direction::Columns => column(rows, a),
    }
}

// Adds the row or column of board a, which was not added before, and counts it.
fn add(rows: [u16; 16], a: u8, along: Direction, before: Progress) -> Progress
    requires { (a < 16) × (has before.added a ≡ false) × (before.count ≡ count 16 (has before.added)) }
    ensures { (result.members ≡ union before.members (set_of (followed rows along a)))
        × (result.added ≡ with_board before.added a) × (result.count ≡ suc before.count) }
{
    let boards = row_or_column(rows, a, along);
    Progress {
        members: sets::union(before.members, boards),
        added: sets::with_board(before.added, a),
        count: before.count + 1,
    }
}

// Adds the rows or columns of the boards that joined in the last pass.
fn pass(rows: [u16; 16], along: Direction, before: Progress) -> Progress
    requires { PassInvariant (followed rows along) before.members before }
    ensures { (result.members ≡ pass (followed rows along) before.members)
        × (result.added ≡ before.members) × (result.count ≡ count 16 (has result.added)) }
{
    let mut progress = before;
    let mut left = sets::minus(before.members, before.added);
    while left != 0 {
        let a = sets::some_board(left);
        progress = add(rows, a, along, progress);
        left = sets::minus(before.members, progress.added);
    }
    progress
}

// The search, in either direction: passes until the row or column of every board gathered was added.
fn gather(rows: [u16; 16], i: u8, along: Direction) -> Progress
    requires { i < 16 }
    ensures { (result.members ≡ commit_group (followed rows along) i)
        × (result.count ≡ count 16 (has result.members)) }
{
    let first = sets::single(i);
    let mut progress = Progress {
        members: first,
        added: 0,
        count: 0,
    };
    while progress.added != progress.members {
        progress = pass(rows, along, progress);
    }
    progress
}

// What a search in either direction hands back.
fn search(rows: [u16; 16], i: u8, along: Direction) -> Found
    requires { i < 16 }
    ensures { Searched rows (commit_group (followed rows along) i) result }
{
    let progress = gather(rows, i, along);
    let closure = without(rows, progress.members);
    Found {
        closure,
        count: progress.count,
    }
}

// The search of a commit group, along the rows.
pub fn commit_search(rows: [u16; 16], i: u8) -> Found
    requires { i < 16 }
    ensures { Searched rows (commit_group (links_of rows) i) result }
{
    search(rows, i, Direction::Rows)
}

// The search of a fault group, along the columns.
pub fn fault_search(rows: [u16; 16], i: u8) -> Found
    requires { i < 16 }
    ensures { Searched rows (fault_group (links_of rows) i) result }
{
    search(rows, i, Direction::Columns)
}

// Group and rows of a search, without the count.
pub fn commit_closure(rows: [u16; 16], i: u8) -> Closure
    requires { i < 16 }
    ensures { Grouped rows (commit_group (links_of rows) i) result }
{
    let found = commit_search(rows, i);
    found.closure
}

pub fn fault_closure(rows: [u16; 16], i: u8) -> Closure
    requires { i < 16 }
    ensures { Grouped rows (fault_group (links_of rows) i) result }
{
    let found = fault_search(rows, i);
    found.closure
}
