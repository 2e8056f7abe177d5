#![tactic(auto)]
// What a power cut in the middle of a write leaves: definitions and proofs alone, no code.
