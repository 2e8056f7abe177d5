#![tactic(auto)]
// Sets of boards, and the sixteen rows of dependences (document 01, "The record" and "Groups").
pub mod rows;
pub mod sets;

// A group of boards, and the rows when its rows and columns are emptied.
#[derive(Clone, Copy)]
pub struct Closure {
    pub members: u16,
    pub rows: [u16; 16],
}
