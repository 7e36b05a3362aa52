// The parts of a table's records: where they stand, kinds, slots and expressions.
#![tactic(auto)]

pub mod geometry;
pub mod kinds;
pub mod slots;
