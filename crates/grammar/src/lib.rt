// The grammar of tables is specs/ and proofs/ alone: this crate has no code.

#![tactic(auto)]
