// Slots and expressions, decoded where they lie in a table's bytes.
ghost use Rattle.std.specs.Prelude.{◌≡◌, ◌+◌, ◌≤◌, length};
ghost use Rattle.model.specs.Slots.{slot_by, slot_at, expression_at};

use crate::geometry::{ExpressionBytes, SlotBytes};
use model::{Expression, Rule, Slot};

// A slot of its tag and its value.
fn slot_by(tag: u8, value: u32) -> Slot
    ensures { result ≡ slot_by tag value }
{
    match tag {
        0 if value == 0 => Slot::Unused,
        1 => Slot::Constant(wire::signed(value)),
        2 if (value as usize) < Rule::VARIABLES => Slot::Variable(value as u8),
        _ => Slot::Bad,
    }
}

// The slot whose five bytes start at p.
pub fn slot_at(table: &[u8], p: usize) -> Slot
    requires { p + 5 ≤ length table.now }
    ensures { result ≡ slot_at table.now p }
{
    let value = wire::u32_within(table, p + SlotBytes::VALUE);
    slot_by(table[p], value)
}

// The expression whose eleven bytes start at p.
pub fn expression_at(table: &[u8], p: usize) -> Expression
    requires { p + 11 ≤ length table.now }
    ensures { result ≡ expression_at table.now p }
{
    let left = slot_at(table, p + ExpressionBytes::LEFT);
    let right = slot_at(table, p + ExpressionBytes::RIGHT);
    Expression {
        operation: table[p],
        left: left,
        right: right,
    }
}
