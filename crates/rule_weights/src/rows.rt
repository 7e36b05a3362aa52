// Records of one size, one behind the other, each with its symbol behind its kind byte: the heads of a rule, and the facts of a goal.
ghost use Rattle.std.specs.Prelude.{ℕ, ◌+◌, ◌*◌, ◌≤◌, length};
ghost use Rattle.model.specs.declared.Symbol.{Symbol};
ghost use Rattle.rule_weights.specs.Views.{Counted, Gives, rows_weight};

use model::Symbol;

// Where a record has its symbol.
const SYMBOL: usize = 1;

// What `of` gives for the symbols of `count` records from `from` on, summed.
pub fn sum_over<F: Fn(Symbol) -> u8>(
    bytes: &[u8],
    from: usize,
    size: usize,
    count: usize,
    of: F,
) -> u32
    requires lie { from + size * count ≤ length bytes.now }
    requires few { count ≤ 64 }
    requires can { F.IsAlwaysCallable of }
    ensures { (w : Symbol → ℕ) (top : ℕ) → Gives (λ s r. F.post of s r) w top
        → Counted (rows_weight w bytes.now from size count) (count * top) result }
{
    let mut sum = 0;
    for k in 0..count {
        let at = from + size * k;
        let symbol = Symbol(wire::byte(bytes, at + SYMBOL));
        sum += u32::from(of(symbol));
    }
    sum
}
