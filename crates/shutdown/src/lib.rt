#![tactic(auto)]
// What committing in the order of components does: definitions and proofs alone, no code.
