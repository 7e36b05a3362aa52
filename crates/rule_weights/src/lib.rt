// What a rule weighs: the weight of a symbol, of a rule's two sides, and the first rule of a table that does not lose weight.
#![tactic(auto)]

pub mod bodies;
pub mod good;
pub mod rows;
pub mod rules;

ghost use Rattle.std.specs.Prelude.{◌≡◌};
ghost use Rattle.model.specs.Weights.{weight_in};

use model::Symbol;

// What a symbol weighs: a symbol of a good table or goal has a weight.
pub fn weight_of(weights: &[u8], symbol: Symbol) -> u8
    ensures { result ≡ weight_in weights.now symbol }
{
    weights.get(usize::from(symbol.0)).copied().unwrap_or(1)
}
