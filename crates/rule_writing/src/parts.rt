// A head, a comparison, a body item, where they lie in a table's bytes.
ghost use Rattle.std.specs.Prelude.{◌+◌, ◌*◌, ◌≤◌, length};
ghost use Rattle.model.specs.Table.{body_fact_at, behind_item};
ghost use Rattle.grammar.specs.Layout.{item_tree};
ghost use Rattle.records.specs.Geometry.{ItemsLie};
ghost use Rattle.text_writing.specs.Written.{longest_text, Put};
ghost use Rattle.text_writing.specs.Parts.{item_text, head_texts, guard_texts, item_texts, GuardsLie};
ghost use Rattle.rule_writing.specs.Kinds.{HeadsLie, behind_head, behind_guard, head_text_at, guard_text_at, item_text_at};
ghost use Rattle.rule_writing.specs.Kinds.{heads-lie, heads-none, heads-first, guards-lie, guards-none, guards-first, items-lie, items-none, items-first};

use crate::arguments;
use crate::lists::Part;
use records::geometry::{FactBytes, GuardBytes, HeadBytes};
use records::{geometry, slots};
use text_writing::Page;

pub struct Head;

impl Part for Head {
    ghost text = { head_text_at };

    ghost most = { 64 };

    ghost behind = { behind_head };

    ghost Lie = { HeadsLie };

    ghost texts = { head_texts };

    ghost first_lies = { heads-lie };

    ghost none = { heads-none };

    ghost first = { heads-first };

    fn put(table: &[u8], p: usize, page: &mut Page) -> usize {
        let slots = [
            slots::slot_at(table, p + HeadBytes::SLOT_0),
            slots::slot_at(table, p + HeadBytes::SLOT_1),
            slots::slot_at(table, p + HeadBytes::SLOT_2),
            slots::slot_at(table, p + HeadBytes::SLOT_3),
        ];
        page.put_symbol(wire::byte(table, p + HeadBytes::SYMBOL));
        arguments::put_arguments(&slots, page);
        p + HeadBytes::LEN
    }
}

// "comparison = expression comparator expression"
pub struct Comparison;

impl Part for Comparison {
    ghost text = { guard_text_at };

    ghost most = { 54 };

    ghost behind = { behind_guard };

    ghost Lie = { GuardsLie };

    ghost texts = { guard_texts };

    ghost first_lies = { guards-lie };

    ghost none = { guards-none };

    ghost first = { guards-first };

    fn put(table: &[u8], p: usize, page: &mut Page) -> usize {
        page.put_expression(slots::expression_at(table, p + GuardBytes::LEFT));
        page.put_comparator(wire::byte(table, p + GuardBytes::COMPARATOR));
        page.put_expression(slots::expression_at(table, p + GuardBytes::RIGHT));
        p + GuardBytes::LEN
    }
}

// "item = "fail" | symbol [ "(" expression { "," expression } ")" ]"
pub struct Item;

impl Part for Item {
    ghost text = { item_text_at };

    ghost most = { 120 };

    ghost behind = { behind_item };

    ghost Lie = { ItemsLie };

    ghost texts = { item_texts };

    ghost first_lies = { items-lie };

    ghost none = { items-none };

    ghost first = { items-first };

    fn put(table: &[u8], p: usize, page: &mut Page) -> usize {
        let behind = geometry::behind_item(table, p);
        if geometry::is_fact(table, p) {
            put_fact(table, p, page);
        } else {
            page.put_bytes(b"fail");
        }
        behind
    }
}

fn put_fact(table: &[u8], p: usize, page: &mut Page)
    requires lies { p + 46 ≤ length table.now }
    requires room { page.old.at + 120 ≤ longest_text }
    ensures { Put page.old (item_text (item_tree (body_fact_at table.now p))) 120 page.new }
{
    let expressions = [
        slots::expression_at(table, p + FactBytes::ARGUMENT_0),
        slots::expression_at(table, p + FactBytes::ARGUMENT_1),
        slots::expression_at(table, p + FactBytes::ARGUMENT_2),
        slots::expression_at(table, p + FactBytes::ARGUMENT_3),
    ];
    page.put_symbol(wire::byte(table, p + FactBytes::SYMBOL));
    arguments::put_arguments(&expressions, page);
}
