// The declarations and the rules of a good table: "all before the rules".
ghost use Rattle.std.specs.Prelude.{◌∷◌, [], ◌++◌, map, ◌+◌, ◌*◌, ◌≤◌, ◌≡◌, length};
ghost use Rattle.model.specs.Fields.{arity_at};
ghost use Rattle.grammar.specs.Layout.{arities_from, tree_of};
ghost use Rattle.rule_weights.specs.Views.{Counted, Known};
ghost use Rattle.text.specs.Printed.{decimal, symbol_text, declarations_text, printed};
ghost use Rattle.text_writing.specs.Written.{longest_text, written, Put};
ghost use Rattle.text_writing.specs.Parts.{each_text, rule_text};

use model::{Reading, Symbol};
use records::geometry;
use rule_writing::rule;
use text_writing::Page;

// `s0/2.`: a declaration a line.
fn put_declaration(table: &[u8], k: u8, page: &mut Page)
    requires { page.old.at + 24 ≤ longest_text }
    ensures { Put page.old (symbol_text k ++ (47 ∷ (decimal (arity_at table.now k) ++ (46 ∷ 10 ∷ [])))) 24 page.new }
{
    page.put_symbol(k);
    page.put(b'/');
    page.put_decimal(geometry::arity_at(table, Symbol(k)) as u32);
    page.put_bytes(b".\n");
}

// "from `s0` without gaps"
fn put_declarations(table: &[u8], symbols: u8, page: &mut Page)
    requires { page.old.at + 24 * symbols ≤ longest_text }
    ensures { Put page.old (declarations_text 0 (arities_from table.now 0 symbols)) (24 * symbols) page.new }
{
    for k in 0..symbols {
        put_declaration(table, k, page);
    }
}

fn put_rules(table: &[u8], reading: &Reading, page: &mut Page)
    requires good { Known table.now reading.now }
    requires room { page.old.at + 989 * reading.now.rules ≤ longest_text }
    ensures { Put page.old (each_text (map rule_text (tree_of table.now).rules)) (989 * reading.now.rules) page.new }
{
    for shape in &reading.shapes[..reading.rules as usize] {
        rule::put_rule(table, *shape, page);
    }
}

// The whole text, from the buffer's first byte on, as far as it goes; how long it is.
pub fn put_table(table: &[u8], reading: &Reading, text: &mut [u8]) -> usize
    requires { Known table.now reading.now }
    ensures bytes { text.new ≡ written 0 (printed (tree_of table.now)) text.old }
    ensures counted { Counted (length (printed (tree_of table.now))) longest_text result }
{
    let mut page = Page { text, at: 0 };
    put_declarations(table, reading.symbols, &mut page);
    put_rules(table, reading, &mut page);
    page.at
}
