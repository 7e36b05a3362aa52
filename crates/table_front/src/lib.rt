// That the check of a table looks at the table's front alone is a matter of proofs/: this crate has no code.

#![tactic(auto)]
