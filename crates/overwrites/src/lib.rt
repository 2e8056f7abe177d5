#![tactic(auto)]
// Who is rolled back after a write over another board's block: definitions and proofs alone, no code.
