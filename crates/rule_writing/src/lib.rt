// Writing a rule as text, where it lies in a table's bytes. Each function takes the buffer and a place in it and returns the place behind what it
// wrote (crate text_writing).
#![tactic(auto)]

pub mod arguments;
pub mod lists;
pub mod parts;
pub mod rule;
