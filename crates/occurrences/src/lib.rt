// The place of an occurrence, counted through the rule heads when it is asked for: "Occurrences of a symbol are counted from 1 over rules from first
// to last, and inside a rule from the last head to the first". A run keeps a mark on the last place that it found. Counting goes on from there, so
// that a fact's way over its occurrences passes each head once.
#![tactic(auto)]

ghost use Rattle.std.specs.Prelude.{◌≡◌, ◌-◌, None, slice_get};
ghost use Rattle.model.specs.Table.{table_of, places};
ghost use Rattle.occurrences.specs.Counting.{places_behind, places_left, mark_after, HeadsLie, Looked, Countable, Standing, Marked};

use model::{HeadPlace, Occurrence, RuleNumber, RuleShape, Symbol};
use records::geometry;
use records::geometry::HeadBytes;
use std::ops::ControlFlow;

// The rules of a good table: its bytes, and where its rules stand in them.
#[derive(Clone, Copy)]
pub struct Rules<'a> {
    pub table: &'a [u8],
    pub shapes: &'a [RuleShape],
    ghost countable: { Countable table.now shapes.now },
}

// The place found last: which of its symbol's, counted from 0.
#[derive(Clone, Copy)]
pub struct Mark {
    pub symbol: Symbol,
    pub index: u16,
    pub place: HeadPlace,
}

impl Rules<'_> {
    // Looks through the first k heads of a rule, from the last to the first, for the place behind `left` others: the head, or how many places
    // are still to be passed behind it.
    fn in_rule(
        &self,
        shape: RuleShape,
        k: u8,
        symbol: Symbol,
        mut left: u16,
    ) -> ControlFlow<u8, u16>
        requires { HeadsLie self.now.table.now shape k }
        ensures { Looked self.now.table.now shape k symbol left result }
    {
        for head in (0..k).rev() {
            let p = geometry::head_start(shape, head as usize) + HeadBytes::SYMBOL;
            if self.table[p] == symbol.0 {
                if left == 0 {
                    return ControlFlow::Break(head);
                }
                left -= 1;
            }
        }
        ControlFlow::Continue(left)
    }

    // Looks through the rules from `first` on, for the place behind `left` others.
    fn from_rule(&self, first: usize, symbol: Symbol, mut left: u16) -> Option<HeadPlace>
        ensures { result ≡ slice_get (places_behind (table_of self.now.table.now) symbol first) left }
    {
        for rule in first..self.shapes.len() {
            let shape = self.shapes[rule];
            match self.in_rule(shape, shape.heads, symbol, left) {
                ControlFlow::Break(head) => {
                    return Some(HeadPlace {
                        rule: RuleNumber(rule as u8),
                        head,
                    });
                }
                ControlFlow::Continue(n) => left = n,
            }
        }
        None
    }

    // Looks behind a place: through the heads below its own, and the rules behind its own.
    fn from_place(&self, place: HeadPlace, symbol: Symbol, left: u16) -> Option<HeadPlace>
        requires { Standing self.now.table.now place }
        ensures { result ≡ slice_get (places_left (table_of self.now.table.now) symbol place.rule.0 place.head) left }
    {
        let rule = place.rule.0 as usize;
        match self.in_rule(self.shapes[rule], place.head, symbol, left) {
            ControlFlow::Break(head) => Some(HeadPlace { head, ..place }),
            ControlFlow::Continue(n) => self.from_rule(rule + 1, symbol, n),
        }
    }
}

// The head places of a good table's symbols, and the mark of the run that asks for them.
#[derive(Clone, Copy)]
pub struct Places<'a> {
    pub rules: Rules<'a>,
    pub mark: Option<Mark>,
    ghost marked: { Marked rules.table.now mark },
}

impl<'a> Places<'a> {
    // As a run begins.
    pub fn new(rules: Rules<'a>) -> Places<'a>
        ensures rules { result.rules ≡ rules.entry }
        ensures mark { result.mark ≡ None }
    {
        Places { rules, mark: None }
    }

    // The place of occurrence j of a symbol, where it has one. The way to it goes on from the mark, if it leads over that, and the mark moves there.
    pub fn place_of(&mut self, symbol: Symbol, j: Occurrence) -> Option<HeadPlace>
        ensures place { result ≡ slice_get (places (table_of self.old.rules.table.now) symbol) (j.0 - 1) }
        ensures rules { self.new.rules ≡ self.old.rules }
        ensures mark { self.new.mark ≡ mark_after self.old.mark symbol j result }
    {
        // Occurrences count from 1, places from 0.
        let index = j.0.saturating_sub(1);
        let place = self.find(symbol, index)?;
        self.mark = Some(Mark {
            symbol,
            index,
            place,
        });
        Some(place)
    }

    fn find(&self, symbol: Symbol, index: u16) -> Option<HeadPlace>
        ensures { result ≡ slice_get (places (table_of self.now.rules.table.now) symbol) index }
    {
        if let Some(mark) = self.mark {
            if mark.symbol.0 == symbol.0 {
                if mark.index < index {
                    return self
                        .rules
                        .from_place(mark.place, symbol, index - mark.index - 1);
                }
                if mark.index == index {
                    return Some(mark.place);
                }
            }
        }
        self.rules.from_rule(0, symbol, index)
    }
}
