#![tactic(auto)]
// The answer of a forecast (document 02, Req 02); else definitions and proofs, no code.

// What is forecast of a call that will not be refused: the members of the commit or the boards to be rolled back; how
// many bytes will be stored.
#[derive(Clone, Copy, Debug, PartialEq, Eq)]
pub struct Forecast {
    pub group: u16,
    pub stores: usize,
}
