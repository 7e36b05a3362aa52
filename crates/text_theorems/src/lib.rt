// What a table author can rely on when a text is read is proofs/ alone: this crate has no code.

#![tactic(auto)]
