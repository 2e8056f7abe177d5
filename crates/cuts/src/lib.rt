#![tactic(auto)]
// A call of the module cut at every store, for the program `cases`.
pub mod every;
