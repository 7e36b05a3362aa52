// Weighing a table: "Weighing tests table, 40, 41, 42, then the goal; on 0 it gives the W and step bound .., and otherwise both are 0."
#![tactic(auto)]

pub mod goals;

ghost use Rattle.std.specs.Prelude.{◌≡◌, Ok};
ghost use Rattle.model.specs.Reading.{read_of};
ghost use Rattle.model.specs.Goal.{goal_verdict};
ghost use Rattle.model.specs.Calls.{weighed, weigh_of};
ghost use Rattle.weighing.specs.Views.{weighing_of};

use model::{CallResult, Reason, Refusal, Weighing};
use rule_weights::good::GoodTable;
use rule_weights::rules;
use step_bound::step_bound;

// W, and the bound with G, B and M.
fn weighed(table: &GoodTable, weights: &[u8], goal: &[u8]) -> Weighing
    requires { goal_verdict table.now.bytes.now (read_of table.now.bytes.now).symbols goal.now ≡ Ok tt }
    ensures { result ≡ weighed table.now.bytes.now weights.now goal.now }
{
    let facts = step_bound::fact_count(goal);
    let weight = goals::goal_weight(weights, goal);
    let body = step_bound::rules::most_facts(table);
    let places = step_bound::rules::most_places(table);
    Weighing {
        result: CallResult::refusal(0, 0),
        weight,
        bound: step_bound(facts, body, weight, places),
    }
}

// The tests in their order, and the weighing where nothing is refused.
fn try_weigh(table: &[u8], weights: &[u8], goal: &[u8]) -> Result<Weighing, Refusal>
    ensures { weighing_of result ≡ weigh_of table.now weights.now goal.now }
{
    let reading = table::read(table);
    reading.verdict?;
    let good = GoodTable {
        bytes: table,
        reading: &reading,
    };
    if weights.len() != usize::from(reading.symbols) {
        return Err(Refusal::at(Reason::WeightCount, 0));
    }
    if let Some(symbol) = goals::first_zero(weights) {
        return Err(Refusal::at(Reason::ZeroWeight, usize::from(symbol.0)));
    }
    if let Some(rule) = rules::first_heavy(&good, weights) {
        return Err(Refusal::at(Reason::HeavyRule, usize::from(rule.0)));
    }
    goal::check_goal(table, reading.symbols, goal)?;
    Ok(weighed(&good, weights, goal))
}

// Whether each rule of a table loses weight with these weights, one byte a symbol, and what that bounds for a goal.
pub fn weigh(table: &[u8], weights: &[u8], goal: &[u8]) -> Weighing
    ensures { result ≡ weigh_of table.now weights.now goal.now }
{
    match try_weigh(table, weights, goal) {
        Ok(weighing) => weighing,
        Err(refusal) => Weighing {
            result: refusal.into(),
            weight: 0,
            bound: 0,
        },
    }
}
