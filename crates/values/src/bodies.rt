// The items of a rule's body: "the whole body is worked out before anything is pushed".
ghost use Rattle.std.specs.Prelude.{◌≡◌, ◌+◌, ◌≤◌, ◌<◌, length, take};
ghost use Rattle.std.specs.Option.{option_map};
ghost use Rattle.model.specs.Limits.{most_items};
ghost use Rattle.model.specs.Steps.{item_entry, body_entries};
ghost use Rattle.model.specs.Table.{item_at, body_fact_at, behind_item, items_from};
ghost use Rattle.records.specs.Geometry.{ItemsLie};

use crate::expressions;
use model::{Binding, Entry, Fact, Item, Rule, Symbol};
use records::geometry;
use records::geometry::FactBytes;

// The entry of the body fact at p, or none where an argument has no value.
#[tactic(auto, unfolding(model::specs::Steps::item_entry, model::specs::Table::body_fact_at, model::specs::Steps::argument_values))]
fn fact_entry(table: &[u8], p: usize, binding: &Binding) -> Option<Entry>
    requires { p + 46 ≤ length table.now }
    ensures { result ≡ item_entry binding.now (body_fact_at table.now p) }
{
    let symbol = Symbol(table[p + FactBytes::SYMBOL]);
    let arguments = [
        expressions::value_at(table, p + FactBytes::ARGUMENT_0, binding)?,
        expressions::value_at(table, p + FactBytes::ARGUMENT_1, binding)?,
        expressions::value_at(table, p + FactBytes::ARGUMENT_2, binding)?,
        expressions::value_at(table, p + FactBytes::ARGUMENT_3, binding)?,
    ];
    Some(Entry {
        symbol,
        item: Item::Waiting(Fact { symbol, arguments }),
    })
}

// The entry of the body item at p.
#[tactic(auto, unfolding(model::specs::Steps::item_entry, model::specs::Table::item_at, model::specs::Table::behind_item))]
fn item_entry(table: &[u8], p: usize, binding: &Binding) -> Option<Entry>
    requires { (p < length table.now) × (behind_item table.now p ≤ length table.now) }
    ensures { result ≡ item_entry binding.now (item_at table.now p) }
{
    if geometry::is_fact(table, p) {
        fact_entry(table, p, binding)
    } else {
        Some(Entry::default())
    }
}

// The entries of the n items from p on, the first of them first, or none where an argument has no value.
// Kept: they stand in what is lent, where the first n places count; an array of four in the Option would say nothing of n.
pub fn work_out(
    table: &[u8],
    p: usize,
    n: usize,
    binding: &Binding,
    body: &mut [Entry; Rule::ITEMS],
) -> Option<()>
    requires { ItemsLie table.now p n × (n ≤ most_items) }
    ensures { option_map (λ _. take n body.new) result
        ≡ body_entries binding.now (items_from table.now p n) }
{
    let mut at = p;
    for i in 0..n {
        body[i] = item_entry(table, at, binding)?;
        at = geometry::behind_item(table, at);
    }
    Some(())
}
