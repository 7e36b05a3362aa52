// One raise of a search for weights: the symbol of a rule's first removed head is raised, by just as much as makes the rule lose weight.
#![tactic(auto)]

ghost use Rattle.std.specs.Prelude.{◌≡◌};
ghost use Rattle.model.specs.Table.{rule_of};
ghost use Rattle.raise.specs.Raise.{raise_of};

use model::Symbol;
use records::geometry;
use records::geometry::HeadBytes;
use rule_weights::good::TableRule;
use rule_weights::rules;

// A symbol and its new weight.
#[derive(Clone, Copy)]
pub struct NewWeight {
    pub symbol: Symbol,
    pub weight: u8,
}

// The raise that this rule asks for: none where it has no removed head, or where the weight would be above 255.
pub fn raise(rule: &TableRule, weights: &[u8]) -> Option<NewWeight>
    ensures { result ≡ raise_of weights.now (rule_of rule.now.bytes.now rule.now.shape) }
{
    let shape = rule.shape;
    if shape.heads == shape.kept {
        return None;
    }
    let sides = rules::rule_weights(rule, weights);
    // By how much the removed heads are to be raised, so that they weigh more than the body.
    let lack = (sides.body + 1).saturating_sub(sides.removed);
    let from = geometry::head_start(shape, usize::from(shape.kept));
    let symbol = Symbol(wire::byte(rule.bytes, from + HeadBytes::SYMBOL));
    let weight = u32::from(rule_weights::weight_of(weights, symbol)) + lack;
    let weight = u8::try_from(weight).ok()?;
    Some(NewWeight { symbol, weight })
}
