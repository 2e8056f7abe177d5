#![tactic(auto)]
// Strongly connected components of boards, and the order in which they commit: definitions and proofs alone, no code.
