// The values of slots and expressions under a binding of the variables: `None` where one has no value.
ghost use Rattle.std.specs.Prelude.{◌≡◌, ◌+◌, ◌≤◌, length};
ghost use Rattle.model.specs.Guards.{variable_value, slot_value, expression_value};
ghost use Rattle.model.specs.Slots.{slot_at, expression_at};

use model::{Binding, Expression, Rule, Slot};
use records::geometry::{ExpressionBytes, SlotBytes};
use records::slots;

#[tactic(auto, unfolding(model::specs::Guards::variable_value))]
pub fn variable_value(v: u8, binding: &Binding) -> Option<i32>
    ensures { result ≡ variable_value binding.now v }
{
    binding.values.get(v as usize).copied().flatten()
}

#[tactic(auto, unfolding(model::specs::Guards::slot_value))]
pub fn slot_value(s: Slot, binding: &Binding) -> Option<i32>
    ensures { result ≡ slot_value binding.now s }
{
    match s {
        Slot::Unused => Some(0),
        Slot::Constant(z) => Some(z),
        Slot::Variable(v) => variable_value(v, binding),
        Slot::Bad => None,
    }
}

#[tactic(auto, unfolding(model::specs::Guards::expression_value))]
pub fn expression_value(e: Expression, binding: &Binding) -> Option<i32>
    ensures { result ≡ expression_value binding.now e }
{
    numbers::evaluate(
        e.operation,
        slot_value(e.left, binding),
        slot_value(e.right, binding),
    )
}

// The value of the slot at p, read where it lies: an unused one counts as 0.
// Kept: reads the slot's bytes as `slots::slot_at` does; to make its enum first took a tenth of the time of a short run.
#[tactic(auto, unfolding(model::specs::Guards::slot_value, model::specs::Slots::slot_at, model::specs::Slots::slot_by))]
pub fn slot_value_at(table: &[u8], p: usize, binding: &Binding) -> Option<i32>
    requires { p + 5 ≤ length table.now }
    ensures { result ≡ slot_value binding.now (slot_at table.now p) }
{
    let value = wire::u32_within(table, p + SlotBytes::VALUE);
    match table[p] {
        0 if value == 0 => Some(0),
        1 => Some(wire::signed(value)),
        2 if (value as usize) < Rule::VARIABLES => variable_value(value as u8, binding),
        _ => None,
    }
}

// The value of the expression at p. Most are a slot alone, and of such the second slot is not looked at.
#[tactic(auto, unfolding(model::specs::Guards::expression_value, model::specs::Slots::expression_at, numbers::specs::Numbers::evaluate))]
pub fn value_at(table: &[u8], p: usize, binding: &Binding) -> Option<i32>
    requires { p + 11 ≤ length table.now }
    ensures { result ≡ expression_value binding.now (expression_at table.now p) }
{
    if table[p] == 0 {
        return slot_value_at(table, p + ExpressionBytes::LEFT, binding);
    }
    expression_value(slots::expression_at(table, p), binding)
}
