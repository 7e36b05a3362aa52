// Reading a goal: 32, 34, 33, and the facts where they lie in its bytes.
#![tactic(auto)]

ghost use Rattle.std.specs.Prelude.{◌≡◌, ◌+◌, ◌*◌, ◌≤◌, ◌<◌, ◌^◌, length};
ghost use Rattle.wire.specs.Wire.{u32_at};
ghost use Rattle.model.specs.Goal.{fact_at, later_bad, later_places_bad, goal_fact_bad, facts_verdict, goal_verdict};

use model::{Fact, Goal, Reason, Refusal, Symbol};
use records::geometry;
use records::geometry::{GoalFactBytes, NumberBytes};

// "Each later place is zero in every byte.": the argument at p, as one of a fact whose symbol has this arity.
fn later_bad(arity: u8, place: usize, goal: &[u8], p: usize) -> bool
    requires { p + 4 ≤ length goal.now }
    ensures { result ≡ later_bad arity place (u32_at goal.now p) }
{
    arity as usize <= place && wire::u32_within(goal, p) != 0
}

// Four arguments from p.
fn later_places_bad(arity: u8, goal: &[u8], p: usize) -> bool
    requires { p + 16 ≤ length goal.now }
    ensures { result ≡ later_places_bad arity goal.now p }
{
    (0..4).any(|k: usize| later_bad(arity, k, goal, p + NumberBytes::LEN * k))
}

// 33: of a kind other than 16, with an undeclared symbol, or a later place not zero.
fn goal_fact_bad(table: &[u8], symbols: u8, goal: &[u8], p: usize) -> bool
    requires { p + 18 ≤ length goal.now }
    ensures { result ≡ goal_fact_bad table.now symbols goal.now p }
{
    if goal[p] != GoalFactBytes::KIND {
        return true;
    }
    let symbol = goal[p + GoalFactBytes::SYMBOL];
    if symbols <= symbol {
        return true;
    }
    let arity = geometry::arity_at(table, Symbol(symbol));
    later_places_bad(arity, goal, p + GoalFactBytes::ARGUMENT_0)
}

// The first bad one of `count` facts.
fn facts_verdict(table: &[u8], symbols: u8, goal: &[u8], count: usize) -> Result<(), Refusal>
    requires { (18 * count ≤ length goal.now) × (count < 2 ^ 32) }
    ensures { result ≡ facts_verdict table.now symbols goal.now 0 count }
{
    for k in 0..count {
        if goal_fact_bad(table, symbols, goal, Goal::RECORD_LEN * k) {
            return Err(Refusal::at(Reason::BadGoalFact, k));
        }
    }
    Ok(())
}

// The verdict on a goal, for a good table with so many symbols.
pub fn check_goal(table: &[u8], symbols: u8, goal: &[u8]) -> Result<(), Refusal>
    ensures { result ≡ goal_verdict table.now symbols goal.now }
{
    let count = goal.len() / Goal::RECORD_LEN;
    if goal.len() % Goal::RECORD_LEN != 0 {
        return Err(Refusal::at(Reason::GoalLength, 0));
    }
    if Goal::MAX < count {
        return Err(Refusal::at(Reason::LongGoal, 0));
    }
    facts_verdict(table, symbols, goal, count)
}

// The fact whose record starts at p.
pub fn goal_fact(goal: &[u8], p: usize) -> Fact
    requires { p + 18 ≤ length goal.now }
    ensures { result ≡ fact_at goal.now p }
{
    Fact {
        symbol: Symbol(goal[p + GoalFactBytes::SYMBOL]),
        arguments: [
            wire::i32_within(goal, p + GoalFactBytes::ARGUMENT_0),
            wire::i32_within(goal, p + GoalFactBytes::ARGUMENT_1),
            wire::i32_within(goal, p + GoalFactBytes::ARGUMENT_2),
            wire::i32_within(goal, p + GoalFactBytes::ARGUMENT_3),
        ],
    }
}
