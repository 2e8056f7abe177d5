// The sixteen rows taken as one value: bit j of row i says that board i depends on board j.
ghost use Rattle.std.specs.Prelude.{◌≡◌, ◌<◌};
ghost use Rattle.boards.specs.Boards.{has, set_of, unlink};
ghost use Rattle.boards.specs.Rows.{emptied, Grouped};

use crate::{Closure, sets};
use std::array;

// Row a when the rows and the columns of the boards of g are emptied.
fn emptied_row(row: u16, a: u8, g: u16) -> u16
    requires { a < 16 }
    ensures { result ≡ set_of (unlink (has g) (λ a. has row) a) }
{
    if sets::has(g, a) { 0 } else { row & !g }
}

fn emptied(rows: [u16; 16], g: u16) -> [u16; 16]
    ensures { result ≡ emptied rows g }
{
    array::from_fn(move |a| emptied_row(rows[a], a as u8, g))
}

// The group g, and the rows with its rows and columns emptied.
pub fn without(rows: [u16; 16], g: u16) -> Closure
    ensures { Grouped rows g result }
{
    let left = emptied(rows, g);
    Closure {
        members: g,
        rows: left,
    }
}
