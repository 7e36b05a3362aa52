// The tests of one record, in the order 16, 17; 18, 21, 19; 20, 22, and what is known behind it.
#![tactic(auto)]

ghost use Rattle.std.specs.Prelude.{◌≡◌, false, cond, Ok, ◌+◌, ◌^◌, ◌≤◌, ◌<◌, length};
ghost use Rattle.model.specs.declared.Kind.TheVariants.{NextSymbol};
ghost use Rattle.model.specs.Limits.{most_symbols, most_rules, most_heads, most_guards, most_items};
ghost use Rattle.model.specs.Records.{size_of, too_many};
ghost use Rattle.variables.specs.Named.{Named};
ghost use Rattle.model.specs.Reading.{with_symbol, with_rule, with_part, with_kept, with_removed, with_guard, with_item, behind, record_of};
ghost use Rattle.model.specs.Refusals.{refused};

use model::{Behind, Kind, Reason, Refusal, Rule, RuleShape, Scan, Stage};
use records::geometry::{FactBytes, GuardBytes, HeadBytes, SymbolBytes};
use records::kinds;

// ---- what is known behind a good record

fn with_symbol(s: &Scan) -> Scan
    requires { (s.now.symbols < most_symbols) × (s.now.at + size_of NextSymbol < 2 ^ 64) }
    ensures { result ≡ with_symbol s.now }
{
    Scan {
        at: s.at + SymbolBytes::LEN,
        stage: Stage::SYMBOLS,
        symbols: s.symbols + 1,
        ..*s
    }
}

fn with_rule(s: &Scan) -> Scan
    requires { (s.now.rules < most_rules) × (s.now.at < 2 ^ 32) }
    ensures { result ≡ with_rule s.now }
{
    Scan {
        at: s.at + 1,
        stage: Stage::NO_HEAD,
        rules: s.rules + 1,
        shape: RuleShape {
            start: s.at as u32,
            ..RuleShape::default()
        },
        ..*s
    }
}

// The same rule, with one part more.
fn with_part(s: &Scan, size: usize, stage: u8, shape: RuleShape) -> Scan
    requires { s.now.at + size < 2 ^ 64 }
    ensures { result ≡ with_part s.now size stage shape }
{
    Scan {
        at: s.at + size,
        stage,
        shape,
        ..*s
    }
}

// Kept heads come first, so that all heads up to a kept one are kept.
fn with_kept(r: RuleShape) -> RuleShape
    requires { r.heads < most_heads }
    ensures { result ≡ with_kept r }
{
    RuleShape {
        kept: r.heads + 1,
        heads: r.heads + 1,
        ..r
    }
}

// Kept: a function for each count (with_removed, with_guard, with_item), since no parameter names a field.
fn with_removed(r: RuleShape) -> RuleShape
    requires { r.heads < most_heads }
    ensures { result ≡ with_removed r }
{
    RuleShape {
        heads: r.heads + 1,
        ..r
    }
}

fn with_guard(r: RuleShape) -> RuleShape
    requires { r.guards < most_guards }
    ensures { result ≡ with_guard r }
{
    RuleShape {
        guards: r.guards + 1,
        ..r
    }
}

fn with_item(r: RuleShape) -> RuleShape
    requires { r.items < most_items }
    ensures { result ≡ with_item r }
{
    RuleShape {
        items: r.items + 1,
        ..r
    }
}

fn behind(s: &Scan, k: Kind) -> Behind
    requires { (too_many k s.now ≡ false) × (s.now.at < 2 ^ 32) }
    ensures { result ≡ behind s.now k }
{
    let shape = s.shape;
    let next = match k {
        Kind::NextSymbol => with_symbol(s),
        Kind::NextRule => with_rule(s),
        Kind::KeptHead => with_part(s, HeadBytes::LEN, Stage::KEPT_HEADS, with_kept(shape)),
        Kind::RemovedHead => with_part(
            s,
            HeadBytes::LEN,
            Stage::REMOVED_HEADS,
            with_removed(shape),
        ),
        Kind::Comparison => with_part(s, GuardBytes::LEN, Stage::GUARDS, with_guard(shape)),
        Kind::BodyFact => with_part(s, FactBytes::LEN, Stage::BODY, with_item(shape)),
        Kind::BodyFail => with_part(s, 1, Stage::BODY, with_item(shape)),
        Kind::EndOfTable => return Behind::Done(s.at + 1),
    };
    Behind::Next(next)
}

// ---- the tests of a record, in the order in which they are tried

// Refuses the record at `at` that fails a test.
fn refuse_if(failed: bool, reason: Reason, at: usize) -> Result<(), Refusal>
    requires { at < 2 ^ 32 }
    ensures { result ≡ cond failed (refused reason at) (Ok tt) }
{
    if failed {
        return Err(Refusal::at(reason, at));
    }
    Ok(())
}

// The record where the scan stands; the variables of the heads of the rule that is being read are marked.
pub fn read_record(
    table: &[u8],
    s: &Scan,
    named: &[bool; Rule::VARIABLES],
) -> Result<Behind, Refusal>
    requires { (s.now.at < 2 ^ 32) × Named table.now s.now.shape named.now }
    ensures { result ≡ record_of table.now s.now }
{
    let at = s.at;
    if table.len() <= at {
        return Err(Refusal::at(Reason::CutShort, table.len()));
    }
    let Some(k) = kinds::kind_of(table[at]) else {
        return Err(Refusal::at(Reason::UnknownKind, at));
    };
    refuse_if(table.len() - at < kinds::size_of(k), Reason::CutShort, at)?;
    refuse_if(kinds::out_of_order(k, s.stage), Reason::OutOfOrder, at)?;
    refuse_if(kinds::headless(k, s.stage), Reason::Headless, at)?;
    refuse_if(kinds::too_many(k, s), Reason::TooMany, at)?;
    refuse_if(fields::bad_field(table, s, k), Reason::BadField, at)?;
    refuse_if(
        variables::strange(table, s, k, named),
        Reason::StrangeVariable,
        at,
    )?;
    Ok(behind(s, k))
}
