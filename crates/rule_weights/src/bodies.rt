// The body items of a rule, read where they lie in a table's bytes.
ghost use Rattle.std.specs.Prelude.{ℕ, ◌*◌};
ghost use Rattle.model.specs.declared.Symbol.{Symbol};
ghost use Rattle.model.specs.Table.{items_from};
ghost use Rattle.model.specs.Weights.{body_weight};
ghost use Rattle.rule_weights.specs.Views.{Counted, FewItems, Gives};

use model::Symbol;
use records::geometry;
use records::geometry::FactBytes;

// What `of` gives for the symbols of the facts among so many items from `from` on, summed: "fail weighs nothing".
pub fn sum_over<F: Fn(Symbol) -> u8>(table: &[u8], from: usize, items: u8, of: F) -> u32
    requires lie { FewItems table.now from items }
    requires can { F.IsAlwaysCallable of }
    ensures { (w : Symbol → ℕ) (top : ℕ) → Gives (λ s r. F.post of s r) w top
        → Counted (body_weight w (items_from table.now from items)) (4 * top) result }
{
    let mut sum = 0;
    let mut p = from;
    for _ in 0..items {
        if geometry::is_fact(table, p) {
            let symbol = Symbol(wire::byte(table, p + FactBytes::SYMBOL));
            sum += u32::from(of(symbol));
        }
        p = geometry::behind_item(table, p);
    }
    sum
}
