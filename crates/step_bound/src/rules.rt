// The rules of a good table: B and M.
ghost use Rattle.std.specs.Prelude.{length};
ghost use Rattle.model.specs.Reading.{read_of};
ghost use Rattle.model.specs.Table.{rule_of, heads, table_of, places};
ghost use Rattle.model.specs.Weights.{body_facts, most_facts, most_places};
ghost use Rattle.rule_weights.specs.Views.{Counted};
ghost use Rattle.step_bound.specs.Views.{heads_with};

use model::Symbol;
use records::geometry;
use records::geometry::HeadBytes;
use rule_weights::good::{GoodTable, TableRule};
use rule_weights::{bodies, rows};

// How many facts the body of a rule has.
fn rule_facts(rule: &TableRule) -> u32
    ensures { Counted (body_facts (rule_of rule.now.bytes.now rule.now.shape).body) 4 result }
{
    let from = geometry::items_start(rule.shape);
    bodies::sum_over(rule.bytes, from, rule.shape.items, |_| 1)
}

// B: the most facts in any body.
pub fn most_facts(table: &GoodTable) -> u32
    ensures { Counted (most_facts (table_of table.now.bytes.now).rules) 4 result }
{
    let mut most = 0;
    for n in 0..table.reading.rules {
        most = rule_facts(&table.rule(n)).max(most);
    }
    most
}

// How many heads of a rule have this symbol.
fn rule_heads_with(rule: &TableRule, symbol: Symbol) -> u32
    ensures { Counted (heads_with symbol (heads (rule_of rule.now.bytes.now rule.now.shape))) 4 result }
{
    let from = geometry::head_start(rule.shape, 0);
    let heads = usize::from(rule.shape.heads);
    rows::sum_over(
        rule.bytes,
        from,
        HeadBytes::LEN,
        heads,
        |s| u8::from(s == symbol),
    )
}

// How many head places a symbol has: as many as heads with it, over all rules.
fn symbol_places(table: &GoodTable, symbol: Symbol) -> u32
    ensures { Counted (length (places (table_of table.now.bytes.now) symbol)) 256 result }
{
    let mut count = 0;
    for n in 0..table.reading.rules {
        count += rule_heads_with(&table.rule(n), symbol);
    }
    count
}

// M: the most head places of any symbol.
pub fn most_places(table: &GoodTable) -> u32
    ensures { Counted (most_places (table_of table.now.bytes.now) (read_of table.now.bytes.now).symbols) 256 result }
{
    let mut most = 0;
    for s in 0..table.reading.symbols {
        most = symbol_places(table, Symbol(s)).max(most);
    }
    most
}
