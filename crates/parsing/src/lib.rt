// Reading tokens into a tree is specs/ and proofs/ alone: this crate has no code.

#![tactic(auto)]
