// What a rule's parts are worth under a binding of its variables: expressions, guards, and the items of a body.
#![tactic(auto)]

pub mod bodies;
pub mod expressions;
pub mod guards;
