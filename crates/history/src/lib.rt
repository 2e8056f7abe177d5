#![tactic(auto)]
// The text that `rsmrun` plays, joined to demand 3: definitions and proofs alone, no code.
