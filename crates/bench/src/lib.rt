#![tactic(auto)]
// A bench for the calls of the module: requests read from lines, the calls that they ask for, answers written.
pub mod calls;
pub mod records;
pub mod requests;
pub mod tell;
