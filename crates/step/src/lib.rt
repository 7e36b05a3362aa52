// A step of a run: what the top entry comes to. Nothing here changes stack, store or history.
#![tactic(auto)]

use model::{Binding, Entry, FactId, HeadPlace, Occurrence, Rule, RuleNumber, RuleShape};

pub mod deciding;
pub mod outcomes;

// What a firing has chosen and bound, and the entries of its body.
#[derive(Clone, Copy)]
pub struct Firing {
    pub chosen: [FactId; Rule::HEADS],
    pub binding: Binding,
    pub body: [Entry; Rule::ITEMS],
}

// An instance that applies, and that stack and history have room for: the active fact's place, and the rule there. What is chosen and bound
// stays in a firing.
#[derive(Clone, Copy)]
pub struct Instance {
    pub place: HeadPlace,
    pub shape: RuleShape,
}

// What the top entry comes to, each with what is to be written.
#[derive(Clone, Copy)]
pub enum Decision {
    // the waiting fact
    // Kept: with the fact in it a run took up to a seventh longer; the entry has it.
    Activate,
    Drop,
    // with the next occurrence
    // Kept: with the new entry in it a run of many occurrences took up to 1.8 times as long.
    Default(Occurrence),
    Fire(Instance),
    Fail,
}

// An ending without a step.
#[derive(Clone, Copy)]
pub enum Ending {
    UndefinedGuard(RuleNumber),
    UndefinedArgument(RuleNumber),
    FullStore,
    FullStack(RuleNumber),
    FullHistory(RuleNumber),
}
