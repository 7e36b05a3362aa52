// The partner search: the first applicable instance of a rule at an occurrence. It reads table, store and history where they lie;
// nothing that holds an array goes by value on the way of a try, but the binding that a try begins with.
#![tactic(auto)]

use model::{FactId, Fired, HeadPlace, RuleShape, Stored};

pub mod partners;

// What a search is for: the active fact at a head place, and the rule there. Facts and firings are those stored and noted.
#[derive(Clone, Copy)]
pub struct Quest<'a> {
    pub table: &'a [u8],
    pub store: &'a [Stored],
    pub past: &'a [Fired],
    pub place: HeadPlace,
    pub shape: RuleShape,
    pub active: FactId,
}

// What a search comes to.
// Kept: three variants, as the definition's `Found`; the instance stays in what the caller lends, so that no array goes by value.
#[derive(Clone, Copy, PartialEq, Eq)]
pub enum Trial {
    Applies,
    Nothing,
    UndefinedGuard,
}
