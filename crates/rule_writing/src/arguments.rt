// The arguments of a symbol, in brackets: [ "(" argument { "," argument } ")" ]. Places that are not used are left out.
ghost use Rattle.std.specs.Prelude.{◌≡◌, ℕ, true, List, ◌+◌, ◌*◌, ◌≤◌, eqb, length};
ghost use Rattle.grammar.specs.Layout.{used_of};
ghost use Rattle.text_writing.specs.Written.{longest_text, Put};
ghost use Rattle.text_writing.specs.Parts.{some, first_text, slot_texts, expression_texts, separator_text, bracket_text};
ghost use Rattle.rule_writing.specs.Kinds.{slot-few, expression-few};

use model::{Expression, Slot};
use text_writing::{Page, terms};

// What stands at a place for an argument: a slot of a head, an expression of a body fact.
pub trait Argument {
    // its text, if the place is used, and how long that is at most
    ghost texts: { Self → List (List ℕ) };

    ghost most: { ℕ };

    fn is_used(&self) -> bool
        ensures { result ≡ some (texts self.now) };

    fn put(&self, page: &mut Page)
        requires used { some (texts self.now) ≡ true }
        requires room { page.old.at + most ≤ longest_text }
        ensures { Put page.old (first_text (texts self.now)) most page.new };

    ghost few: { (a : Self) → length (texts a) ≤ 1 };
}

impl Argument for Slot {
    ghost texts = { slot_texts };

    ghost most = { 11 };

    ghost few = { slot-few };

    fn is_used(&self) -> bool {
        terms::slot_used(*self)
    }

    fn put(&self, page: &mut Page) {
        page.put_slot(*self);
    }
}

impl Argument for Expression {
    ghost texts = { expression_texts };

    ghost most = { 25 };

    ghost few = { expression-few };

    fn is_used(&self) -> bool {
        terms::expression_used(*self)
    }

    fn put(&self, page: &mut Page) {
        page.put_expression(*self);
    }
}

// What stands before an argument, where the brackets open at `start`.
fn put_separator(page: &mut Page, start: usize)
    requires { page.old.at + 2 ≤ longest_text }
    ensures { Put page.old (separator_text (eqb page.old.at start)) 2 page.new }
{
    if page.at == start {
        page.put(b'(');
    } else {
        page.put_bytes(b", ");
    }
}

pub fn put_arguments<A: Argument>(arguments: &[A], page: &mut Page)
    requires { page.old.at + ((2 + A.most) * length arguments.now + 1) ≤ longest_text }
    ensures { Put page.old (bracket_text (used_of A.texts arguments.now)) ((2 + A.most) * length arguments.now + 1) page.new }
{
    let start = page.at;
    for argument in arguments {
        if argument.is_used() {
            put_separator(page, start);
            argument.put(page);
        }
    }
    if page.at != start {
        page.put(b')');
    }
}
