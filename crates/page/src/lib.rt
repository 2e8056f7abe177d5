#![tactic(auto)]
// A page for the service book (document 02, Req 05): what its lines and its sums are made of; else definitions and
// proofs, no code.

// What a decided commit saved: its members, how many blocks they had tagged, and how many bytes these blocks and the
// members' contexts are.
#[derive(Clone, Copy)]
pub struct Saved {
    pub members: u16,
    pub blocks: usize,
    pub bytes: usize,
}

// How many commits were decided, and the sums over those that were printed.
#[derive(Clone, Copy, Default)]
pub struct Totals {
    pub commits: usize,
    pub blocks: usize,
    pub bytes: usize,
}
