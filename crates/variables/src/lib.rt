// The test of a record's variables: 22, "guard or body variable in no head". A mark for each variable says whether a head of the rule has it:
// the marks are made while the heads are read, so that no head is read again.
#![tactic(auto)]

ghost use Rattle.std.specs.Prelude.{◌≡◌, ◌+◌, ◌≤◌, length, replicate, false};
ghost use Rattle.model.specs.declared.Kind.TheVariants.{KeptHead, Comparison, BodyFact};
ghost use Rattle.model.specs.Records.{size_of};
ghost use Rattle.model.specs.Slots.{slot_at};
ghost use Rattle.model.specs.Variables.{strange_slot, strange_expression, strange_guard, strange_fact, strange};
ghost use Rattle.variables.specs.Named.{Named, Follows, marked, marked_head};

use model::{Kind, Rule, RuleShape, Scan, Slot};
use records::geometry::{ExpressionBytes, FactBytes, GuardBytes, HeadBytes, SlotBytes};
use records::slots;

// ---- the marks

// No variable is marked.
pub fn no_marks() -> [bool; Rule::VARIABLES]
    ensures { result ≡ replicate 16 false }
{
    [false; Rule::VARIABLES]
}

// Marks the variable of the slot at p, where it is one.
fn mark_slot(table: &[u8], p: usize, named: &mut [bool; Rule::VARIABLES])
    requires { p + 5 ≤ length table.now }
    ensures { named.new ≡ marked (slot_at table.now p) named.old }
{
    if let Slot::Variable(v) = slots::slot_at(table, p) {
        named[v as usize] = true;
    }
}

// Marks the variables of the head at p.
fn mark_head(table: &[u8], p: usize, named: &mut [bool; Rule::VARIABLES])
    requires { p + size_of KeptHead ≤ length table.now }
    ensures { named.new ≡ marked_head table.now p named.old }
{
    for k in 0..4 {
        mark_slot(table, p + HeadBytes::SLOT_0 + SlotBytes::LEN * k, named);
    }
}

// The marks behind a good record at `at`: a head more adds its variables, and a rule with fewer heads is a new one.
pub fn mark(
    table: &[u8],
    at: usize,
    before: RuleShape,
    after: RuleShape,
    named: &mut [bool; Rule::VARIABLES],
)
    requires { Named table.now before named.old × Follows table.now at before after }
    ensures { Named table.now after named.new }
{
    if before.heads < after.heads {
        mark_head(table, at, named);
        return;
    }
    if after.heads < before.heads {
        *named = no_marks();
    }
}

// ---- what is looked up: `rule` is the one whose heads are marked, and only the contracts speak of it

// Whether the slot at p is a variable that no head has. The mark is read before it is known whether the slot is a variable, so that
// no jump depends on it: such a jump is often guessed wrong.
fn strange_at(table: &[u8], rule: RuleShape, named: &[bool; Rule::VARIABLES], p: usize) -> bool
    requires { Named table.now rule named.now × (p + 5 ≤ length table.now) }
    ensures { result ≡ strange_slot table.now rule.start rule.heads (slot_at table.now p) }
{
    let value = wire::u32_within(table, p + SlotBytes::VALUE) as usize;
    let at = value % Rule::VARIABLES;
    if named[at] {
        return false;
    }
    value < Rule::VARIABLES && table[p] == 2
}

fn strange_expression(
    table: &[u8],
    rule: RuleShape,
    named: &[bool; Rule::VARIABLES],
    p: usize,
) -> bool
    requires { Named table.now rule named.now × (p + 11 ≤ length table.now) }
    ensures { result ≡ strange_expression table.now rule.start rule.heads p }
{
    strange_at(table, rule, named, p + ExpressionBytes::LEFT)
        || strange_at(table, rule, named, p + ExpressionBytes::RIGHT)
}

fn strange_guard(table: &[u8], rule: RuleShape, named: &[bool; Rule::VARIABLES], at: usize) -> bool
    requires { Named table.now rule named.now × (at + size_of Comparison ≤ length table.now) }
    ensures { result ≡ strange_guard table.now rule.start rule.heads at }
{
    strange_expression(table, rule, named, at + GuardBytes::LEFT)
        || strange_expression(table, rule, named, at + GuardBytes::RIGHT)
}

fn strange_fact(table: &[u8], rule: RuleShape, named: &[bool; Rule::VARIABLES], at: usize) -> bool
    requires { Named table.now rule named.now × (at + size_of BodyFact ≤ length table.now) }
    ensures { result ≡ strange_fact table.now rule.start rule.heads at }
{
    (0..4).any(|k: usize| {
        strange_expression(
            table,
            rule,
            named,
            at + FactBytes::ARGUMENT_0 + ExpressionBytes::LEN * k,
        )
    })
}

// Whether the record of kind k where the scan stands has a variable that no head has.
pub fn strange(table: &[u8], s: &Scan, k: Kind, named: &[bool; Rule::VARIABLES]) -> bool
    requires { Named table.now s.now.shape named.now × (s.now.at + size_of k ≤ length table.now) }
    ensures { result ≡ strange table.now s.now k }
{
    match k {
        Kind::Comparison => strange_guard(table, s.shape, named, s.at),
        Kind::BodyFact => strange_fact(table, s.shape, named, s.at),
        _ => false,
    }
}
