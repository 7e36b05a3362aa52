// The weights, and what a goal's facts weigh.
ghost use Rattle.std.specs.Prelude.{◌≡◌, ◌/◌, ◌≤◌, length};
ghost use Rattle.model.specs.Limits.{most_goal_facts};
ghost use Rattle.model.specs.Goal.{goal_of};
ghost use Rattle.model.specs.Weights.{weight_in, goal_weight, first_zero};
ghost use Rattle.rule_weights.specs.Views.{Counted};

use model::{Goal, Symbol};
use rule_weights::{rows, weight_of};

// 41: "first zero weight".
pub fn first_zero(weights: &[u8]) -> Option<Symbol>
    requires { length weights.now ≤ 255 }
    ensures { result ≡ first_zero 0 weights.now }
{
    let symbol = weights.iter().position(|w| *w == 0)?;
    Some(Symbol(symbol as u8))
}

// W: what a goal's facts weigh.
pub fn goal_weight(weights: &[u8], goal: &[u8]) -> u32
    requires { length goal.now / 18 ≤ most_goal_facts }
    ensures { Counted (goal_weight (weight_in weights.now) (goal_of goal.now)) 16320 result }
{
    let facts = goal.len() / Goal::RECORD_LEN;
    rows::sum_over(goal, 0, Goal::RECORD_LEN, facts, |s| weight_of(weights, s))
}
