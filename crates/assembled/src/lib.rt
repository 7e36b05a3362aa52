// That the assembly follows the reading of tokens into a tree is specs/ and proofs/ alone: this crate has no code.

#![tactic(auto)]
