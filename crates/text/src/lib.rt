// The tokens and the grammar of rules as text are specs/ and proofs/ alone: this crate has no code.

#![tactic(auto)]
