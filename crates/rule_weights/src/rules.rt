// The rules of a good table: what their sides weigh, and the first that does not lose weight (42).
ghost use Rattle.std.specs.Prelude.{◌≡◌};
ghost use Rattle.model.specs.Table.{rule_of, table_of};
ghost use Rattle.model.specs.Weights.{weight_in, first_heavy};
ghost use Rattle.rule_weights.specs.Views.{Weighs, loses_weight};

use crate::good::{GoodTable, TableRule};
use crate::{bodies, rows, weight_of};
use model::RuleNumber;
use records::geometry;
use records::geometry::HeadBytes;

// What the removed heads of a rule weigh, and what its body weighs.
#[derive(Clone, Copy)]
pub struct RuleWeights {
    pub removed: u32,
    pub body: u32,
}

// What the two sides of a rule weigh.
pub fn rule_weights(rule: &TableRule, weights: &[u8]) -> RuleWeights
    ensures { Weighs (weight_in weights.now) (rule_of rule.now.bytes.now rule.now.shape) result }
{
    let shape = rule.shape;
    let kept = shape.kept;
    let from = geometry::head_start(shape, usize::from(kept));
    let removed = rows::sum_over(
        rule.bytes,
        from,
        HeadBytes::LEN,
        usize::from(shape.heads - kept),
        |s| weight_of(weights, s),
    );
    let items = geometry::items_start(shape);
    let body = bodies::sum_over(rule.bytes, items, shape.items, |s| weight_of(weights, s));
    RuleWeights { removed, body }
}

// Whether the removed heads of a rule weigh more than its body.
fn loses_weight(rule: &TableRule, weights: &[u8]) -> bool
    ensures { result ≡ loses_weight (weight_in weights.now) (rule_of rule.now.bytes.now rule.now.shape) }
{
    let sides = rule_weights(rule, weights);
    sides.body < sides.removed
}

// 42: "first rule that does not lose weight".
pub fn first_heavy(table: &GoodTable, weights: &[u8]) -> Option<RuleNumber>
    ensures { result ≡ first_heavy (weight_in weights.now) 0 (table_of table.now.bytes.now).rules }
{
    (0..table.reading.rules)
        .find(|n| !loses_weight(&table.rule(*n), weights))
        .map(RuleNumber)
}
