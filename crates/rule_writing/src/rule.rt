// A rule, where it lies in a table's bytes.
ghost use Rattle.std.specs.Prelude.{◌+◌, ◌≤◌};
ghost use Rattle.model.specs.Table.{rule_of};
ghost use Rattle.grammar.specs.Layout.{rule_tree};
ghost use Rattle.text_writing.specs.Written.{longest_text, Put};
ghost use Rattle.text_writing.specs.Parts.{Printable, heads_text, guards_text, body_text, rule_text};

use crate::lists;
use crate::parts::{Comparison, Head, Item};
use model::RuleShape;
use records::geometry;
use text_writing::Page;

// heads "==>" | heads "<=>" | heads "\" heads "<=>": the kept heads, then the removed ones.
fn put_sides(table: &[u8], shape: RuleShape, page: &mut Page)
    requires rule { Printable table.now shape }
    requires room { page.old.at + 272 ≤ longest_text }
    ensures { Put page.old
        (heads_text (rule_tree (rule_of table.now shape)).kept (rule_tree (rule_of table.now shape)).removed) 272 page.new }
{
    let removed = shape.heads - shape.kept;
    lists::put_list::<Head>(table, geometry::head_start(shape, 0), shape.kept, page);
    if removed == 0 {
        page.put_bytes(b" ==> ");
        return;
    }
    if 0 < shape.kept {
        page.put_bytes(b" \\ ");
    }
    lists::put_list::<Head>(
        table,
        geometry::head_start(shape, shape.kept as usize),
        removed,
        page,
    );
    page.put_bytes(b" <=> ");
}

// [ comparison { "," comparison } "|" ]
fn put_conditions(table: &[u8], shape: RuleShape, page: &mut Page)
    requires rule { Printable table.now shape }
    requires room { page.old.at + 227 ≤ longest_text }
    ensures { Put page.old (guards_text (rule_tree (rule_of table.now shape)).guards) 227 page.new }
{
    if 0 < shape.guards {
        let from = geometry::guards_start(shape.start, shape.heads);
        lists::put_list::<Comparison>(table, from, shape.guards, page);
        page.put_bytes(b" | ");
    }
}

// "body = "true" | item { "," item }"
fn put_body(table: &[u8], shape: RuleShape, page: &mut Page)
    requires rule { Printable table.now shape }
    requires room { page.old.at + 488 ≤ longest_text }
    ensures { Put page.old (body_text (rule_tree (rule_of table.now shape)).items) 488 page.new }
{
    if shape.items == 0 {
        page.put_bytes(b"true");
    } else {
        lists::put_list::<Item>(table, geometry::items_start(shape), shape.items, page);
    }
}

// A rule a line.
pub fn put_rule(table: &[u8], shape: RuleShape, page: &mut Page)
    requires rule { Printable table.now shape }
    requires room { page.old.at + 989 ≤ longest_text }
    ensures { Put page.old (rule_text (rule_tree (rule_of table.now shape))) 989 page.new }
{
    put_sides(table, shape, page);
    put_conditions(table, shape, page);
    put_body(table, shape, page);
    page.put_bytes(b".\n");
}
