// The tests of a record's fields. Each record lies in the table.
// 20, "bad field: arity, undeclared symbol, tag, operation, comparator, unused or used place, variable".
#![tactic(auto)]

ghost use Rattle.std.specs.Prelude.{◌≡◌, ◌+◌, ◌≤◌, length};
ghost use Rattle.model.specs.declared.Kind.TheVariants.{KeptHead, Comparison, BodyFact};
ghost use Rattle.model.specs.Records.{size_of};
ghost use Rattle.model.specs.Slots.{slot_at};
ghost use Rattle.model.specs.Fields.{place_bad, places_bad, top_of, expression_bad, arguments_bad, head_bad, guard_bad, body_fact_bad, bad_field};

use model::{Kind, Scan, Slot, Symbol};
use records::geometry::{
    ExpressionBytes, FactBytes, GuardBytes, HeadBytes, SlotBytes, SymbolBytes,
};
use records::{geometry, slots};

// A used place holds a constant or a variable; any other is zero in every byte.
fn place_bad(used: bool, slot: Slot) -> bool
    ensures { result ≡ place_bad used slot }
{
    match slot {
        Slot::Unused => used,
        Slot::Constant(_) | Slot::Variable(_) => !used,
        Slot::Bad => true,
    }
}

// The slot at p, as a place that is used or not.
fn slot_bad(table: &[u8], p: usize, used: bool) -> bool
    requires { p + 5 ≤ length table.now }
    ensures { result ≡ place_bad used (slot_at table.now p) }
{
    place_bad(used, slots::slot_at(table, p))
}

// Four slots from p, of which the first `arity` are used.
fn places_bad(table: &[u8], p: usize, arity: u8) -> bool
    requires { p + 20 ≤ length table.now }
    ensures { result ≡ places_bad table.now p arity }
{
    (0..4).any(|k: usize| slot_bad(table, p + SlotBytes::LEN * k, k < arity as usize))
}

// The greatest operation of a place.
fn top(used: bool) -> u8
    ensures { result ≡ top_of used }
{
    if used { 5 } else { 0 }
}

// The expression at p: an operation without a second slot leaves it unused.
fn expression_bad(table: &[u8], p: usize, used: bool) -> bool
    requires { p + 11 ≤ length table.now }
    ensures { result ≡ expression_bad table.now p used }
{
    let operation = table[p];
    if top(used) < operation {
        return true;
    }
    slot_bad(table, p + ExpressionBytes::LEFT, used)
        || slot_bad(table, p + ExpressionBytes::RIGHT, 0 < operation)
}

// Four expressions from p, of which the first `arity` are used.
fn arguments_bad(table: &[u8], p: usize, arity: u8) -> bool
    requires { p + 44 ≤ length table.now }
    ensures { result ≡ arguments_bad table.now p arity }
{
    (0..4).any(|k: usize| expression_bad(table, p + ExpressionBytes::LEN * k, k < arity as usize))
}

fn head_bad(table: &[u8], at: usize, symbols: u8) -> bool
    requires { at + size_of KeptHead ≤ length table.now }
    ensures { result ≡ head_bad table.now at symbols }
{
    let symbol = table[at + HeadBytes::SYMBOL];
    let arity = geometry::arity_at(table, Symbol(symbol));
    symbols <= symbol || places_bad(table, at + HeadBytes::SLOT_0, arity)
}

fn guard_bad(table: &[u8], at: usize) -> bool
    requires { at + size_of Comparison ≤ length table.now }
    ensures { result ≡ guard_bad table.now at }
{
    if 5 < table[at + GuardBytes::COMPARATOR] {
        return true;
    }
    expression_bad(table, at + GuardBytes::LEFT, true)
        || expression_bad(table, at + GuardBytes::RIGHT, true)
}

// Kept: as `head_bad` but for its places; one function for both would take two offsets and the test of the places as parameters.
fn body_fact_bad(table: &[u8], at: usize, symbols: u8) -> bool
    requires { at + size_of BodyFact ≤ length table.now }
    ensures { result ≡ body_fact_bad table.now at symbols }
{
    let symbol = table[at + FactBytes::SYMBOL];
    let arity = geometry::arity_at(table, Symbol(symbol));
    symbols <= symbol || arguments_bad(table, at + FactBytes::ARGUMENT_0, arity)
}

pub fn bad_field(table: &[u8], s: &Scan, k: Kind) -> bool
    requires { s.now.at + size_of k ≤ length table.now }
    ensures { result ≡ bad_field table.now s.now k }
{
    match k {
        Kind::NextSymbol => 4 < table[s.at + SymbolBytes::ARITY],
        Kind::KeptHead | Kind::RemovedHead => head_bad(table, s.at, s.symbols),
        Kind::Comparison => guard_bad(table, s.at),
        Kind::BodyFact => body_fact_bad(table, s.at, s.symbols),
        Kind::NextRule | Kind::BodyFail | Kind::EndOfTable => false,
    }
}
