// Comparisons and guards under a binding of the variables: `None` where one is undefined.
ghost use Rattle.std.specs.Prelude.{◌≡◌, ◌+◌, ◌*◌, ◌≤◌, length};
ghost use Rattle.model.specs.Guards.{comparison_value, guard_value};
ghost use Rattle.model.specs.Table.{guard_at, guards_from};

use crate::expressions;
use model::Binding;
use records::geometry::GuardBytes;

// The comparison whose record stands at p.
#[tactic(auto, unfolding(model::specs::Guards::comparison_value, model::specs::Table::guard_at))]
pub fn comparison_value(table: &[u8], p: usize, binding: &Binding) -> Option<bool>
    requires { p + 24 ≤ length table.now }
    ensures { result ≡ comparison_value binding.now (guard_at table.now p) }
{
    numbers::compare(
        table[p + GuardBytes::COMPARATOR],
        expressions::value_at(table, p + GuardBytes::LEFT, binding),
        expressions::value_at(table, p + GuardBytes::RIGHT, binding),
    )
}

// The n comparisons from p on, read up to the first that is not true.
pub fn guard_value(table: &[u8], p: usize, n: u8, binding: &Binding) -> Option<bool>
    requires { p + 24 * n ≤ length table.now }
    ensures { result ≡ guard_value binding.now (guards_from table.now p n) }
{
    for i in 0..n as usize {
        if !comparison_value(table, p + GuardBytes::LEN * i, binding)? {
            return Some(false);
        }
    }
    Some(true)
}
