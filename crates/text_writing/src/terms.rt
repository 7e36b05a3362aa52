// Symbols, slots, expressions and what stands between two of them.
ghost use Rattle.std.specs.Prelude.{◌≡◌, true, ◌∷◌, [], ◌+◌, ◌≤◌};
ghost use Rattle.grammar.specs.Tree.{constant};
ghost use Rattle.grammar.specs.Layout.{operation_of, comparator_of};
ghost use Rattle.text.specs.Printed.{decimal, symbol_text, term_text, operation_text, comparator_text};
ghost use Rattle.text_writing.specs.Written.{longest_text, Put};
ghost use Rattle.text_writing.specs.Parts.{some, first_text, slot_texts, expression_texts};

use crate::Page;
use model::{Expression, Slot};

pub fn slot_used(slot: Slot) -> bool
    ensures { result ≡ some (slot_texts slot) }
{
    matches!(slot, Slot::Constant(_) | Slot::Variable(_))
}

pub fn expression_used(e: Expression) -> bool
    ensures { result ≡ some (expression_texts e) }
{
    slot_used(e.left) && (e.operation == 0 || slot_used(e.right))
}

// "operations `+ - * / %`"
// Kept: operation and comparator are numbers, as a decoded expression and a table's bytes have them, and as `operation_of` takes them.
#[tactic(auto, unfolding(text::specs::Printed::operation_text, grammar::specs::Layout::operation_of))]
fn operation_bytes(operation: u8) -> &'static [u8]
    ensures { result.now ≡ operation_text (operation_of operation) }
{
    match operation {
        2 => b" - ",
        3 => b" * ",
        4 => b" / ",
        5 => b" % ",
        _ => b" + ",
    }
}

// "comparators `= \= < =< > >=`"
#[tactic(auto, unfolding(text::specs::Printed::comparator_text, grammar::specs::Layout::comparator_of))]
fn comparator_bytes(comparator: u8) -> &'static [u8]
    ensures { result.now ≡ comparator_text (comparator_of comparator) }
{
    match comparator {
        1 => b" \\= ",
        2 => b" < ",
        3 => b" =< ",
        4 => b" > ",
        5 => b" >= ",
        _ => b" = ",
    }
}

impl Page<'_> {
    // A letter, and a number behind it.
    fn put_indexed(&mut self, letter: u8, index: u8)
        requires { self.old.at + 11 ≤ longest_text }
        ensures { Put self.old (letter ∷ decimal index) 11 self.new }
    {
        self.put(letter);
        self.put_decimal(index as u32);
    }

    // `s0` to `s31`.
    pub fn put_symbol(&mut self, symbol: u8)
        requires { self.old.at + 11 ≤ longest_text }
        ensures { Put self.old (symbol_text symbol) 11 self.new }
    {
        self.put_indexed(b's', symbol);
    }

    // A minus stands directly in front of the digits.
    fn put_constant(&mut self, v: i32)
        requires { self.old.at + 11 ≤ longest_text }
        ensures { Put self.old (term_text (constant v)) 11 self.new }
    {
        if v < 0 {
            self.put(b'-');
        }
        self.put_decimal(v.unsigned_abs());
    }

    // A constant, or `V0` to `V15`; nothing where the slot is not used.
    pub fn put_slot(&mut self, slot: Slot)
        requires { self.old.at + 11 ≤ longest_text }
        ensures { Put self.old (first_text (slot_texts slot)) 11 self.new }
    {
        match slot {
            Slot::Constant(v) => self.put_constant(v),
            Slot::Variable(v) => self.put_indexed(b'V', v),
            Slot::Unused | Slot::Bad => {}
        }
    }

    fn put_operation(&mut self, operation: u8)
        requires { self.old.at + 3 ≤ longest_text }
        ensures { Put self.old (operation_text (operation_of operation)) 3 self.new }
    {
        self.put_bytes(operation_bytes(operation));
    }

    pub fn put_comparator(&mut self, comparator: u8)
        requires { self.old.at + 4 ≤ longest_text }
        ensures { Put self.old (comparator_text (comparator_of comparator)) 4 self.new }
    {
        self.put_bytes(comparator_bytes(comparator));
    }

    // "expression = slot [ operation slot ]"
    pub fn put_expression(&mut self, e: Expression)
        requires used { some (expression_texts e) ≡ true }
        requires room { self.old.at + 25 ≤ longest_text }
        ensures { Put self.old (first_text (expression_texts e)) 25 self.new }
    {
        self.put_slot(e.left);
        if e.operation != 0 {
            self.put_operation(e.operation);
            self.put_slot(e.right);
        }
    }
}
