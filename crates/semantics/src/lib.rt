// The published semantics are specs/ and proofs/ alone: this crate has no code.

#![tactic(auto)]
