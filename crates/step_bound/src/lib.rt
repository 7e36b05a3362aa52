// The step bound of a weighing, (G + B·W)·(M + 2) + W + 1, and what it is made of: G of a goal, B and M of a table.
#![tactic(auto)]

pub mod rules;

ghost use Rattle.std.specs.Prelude.{◌≡◌, ◌/◌, ◌≤◌, length};
ghost use Rattle.model.specs.Limits.{most_goal_facts};
ghost use Rattle.model.specs.Goal.{goal_of};
ghost use Rattle.model.specs.Weights.{step_bound};
ghost use Rattle.rule_weights.specs.Views.{Counted};

use model::Goal;

// G: how many facts a goal has.
pub fn fact_count(goal: &[u8]) -> u32
    requires { length goal.now / 18 ≤ most_goal_facts }
    ensures { Counted (length (goal_of goal.now)) most_goal_facts result }
{
    (goal.len() / Goal::RECORD_LEN) as u32
}

// (G + B·W)·(M + 2) + W + 1
pub fn step_bound(facts: u32, body: u32, weight: u32, places: u32) -> u32
    requires { (facts ≤ 64) × (body ≤ 4) × (weight ≤ 16320) × (places ≤ 256) }
    ensures { result ≡ step_bound facts body weight places }
{
    (facts + body * weight) * (places + 2) + weight + 1
}
