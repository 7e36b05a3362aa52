// Where the parts of a table stand in its bytes: the lengths of records and of what they hold, and where the parts of a rule start.
// Each place is counted from the kind byte of its record.
ghost use Rattle.std.specs.Prelude.{◌≡◌, ◌+◌, ◌*◌, ◌≤◌, ◌<◌, length};
ghost use Rattle.model.specs.declared.Kind.TheVariants.{KeptHead};
ghost use Rattle.model.specs.Fields.{arity_at};
ghost use Rattle.model.specs.Records.{size_of};
ghost use Rattle.model.specs.Table.{heads_start, items_start, is_fact, behind_item};

use model::{RuleShape, Symbol};

// ---- lengths and offsets

// "symbol: arity"
pub struct SymbolBytes;

impl SymbolBytes {
    pub const LEN: usize = 2;

    pub const ARITY: usize = 1;
}

// "A slot is a tag and four value bytes"
pub struct SlotBytes;

impl SlotBytes {
    pub const LEN: usize = 5;

    pub const VALUE: usize = 1;
}

// "An expression is an operation byte and two slots"
pub struct ExpressionBytes;

impl ExpressionBytes {
    pub const LEN: usize = 1 + 2 * SlotBytes::LEN;

    pub const LEFT: usize = 1;

    pub const RIGHT: usize = ExpressionBytes::LEFT + SlotBytes::LEN;
}

// "kept / removed head: symbol, four slots"
pub struct HeadBytes;

impl HeadBytes {
    pub const LEN: usize = 2 + 4 * SlotBytes::LEN;

    pub const SYMBOL: usize = 1;

    pub const SLOT_0: usize = 2;

    pub const SLOT_1: usize = HeadBytes::SLOT_0 + SlotBytes::LEN;

    pub const SLOT_2: usize = HeadBytes::SLOT_1 + SlotBytes::LEN;

    pub const SLOT_3: usize = HeadBytes::SLOT_2 + SlotBytes::LEN;
}

// "guard comparison: comparator, two expressions"
pub struct GuardBytes;

impl GuardBytes {
    pub const LEN: usize = 2 + 2 * ExpressionBytes::LEN;

    pub const COMPARATOR: usize = 1;

    pub const LEFT: usize = 2;

    pub const RIGHT: usize = GuardBytes::LEFT + ExpressionBytes::LEN;
}

// "body fact: symbol, four expressions"
pub struct FactBytes;

impl FactBytes {
    pub const KIND: u8 = 6;

    pub const LEN: usize = 2 + 4 * ExpressionBytes::LEN;

    pub const SYMBOL: usize = 1;

    pub const ARGUMENT_0: usize = 2;

    pub const ARGUMENT_1: usize = FactBytes::ARGUMENT_0 + ExpressionBytes::LEN;

    pub const ARGUMENT_2: usize = FactBytes::ARGUMENT_1 + ExpressionBytes::LEN;

    pub const ARGUMENT_3: usize = FactBytes::ARGUMENT_2 + ExpressionBytes::LEN;
}

// ---- a goal's facts

// An argument is a number in four bytes.
pub struct NumberBytes;

impl NumberBytes {
    pub const LEN: usize = 4;
}

// "goal fact: symbol, four arguments"
pub struct GoalFactBytes;

impl GoalFactBytes {
    pub const KIND: u8 = 16;

    pub const SYMBOL: usize = 1;

    pub const ARGUMENT_0: usize = 2;

    pub const ARGUMENT_1: usize = GoalFactBytes::ARGUMENT_0 + NumberBytes::LEN;

    pub const ARGUMENT_2: usize = GoalFactBytes::ARGUMENT_1 + NumberBytes::LEN;

    pub const ARGUMENT_3: usize = GoalFactBytes::ARGUMENT_2 + NumberBytes::LEN;
}

// ---- a rule's parts

// Where head k of a rule stands: a rule's record is one byte, its heads stand behind it.
pub fn head_start(shape: RuleShape, k: usize) -> usize
    requires { k ≤ 255 }
    ensures { result ≡ heads_start shape + size_of KeptHead * k }
{
    shape.start as usize + 1 + HeadBytes::LEN * k
}

// Where its guards start, behind its heads. The two fields come apart: a shape that goes by value is read in one load, which waits where
// the shape was copied just before.
pub fn guards_start(start: u32, heads: u8) -> usize
    ensures { result ≡ start + 1 + size_of KeptHead * heads }
{
    start as usize + 1 + HeadBytes::LEN * (heads as usize)
}

// Where its body items start, behind its guards.
pub fn items_start(shape: RuleShape) -> usize
    ensures { result ≡ items_start shape }
{
    guards_start(shape.start, shape.heads) + GuardBytes::LEN * (shape.guards as usize)
}

// Symbols stand first, two bytes each.
pub fn arity_at(table: &[u8], symbol: Symbol) -> u8
    ensures { result ≡ arity_at table.now symbol.0 }
{
    wire::byte(
        table,
        SymbolBytes::LEN * (symbol.0 as usize) + SymbolBytes::ARITY,
    )
}

// Whether the body item at p is a fact.
pub fn is_fact(table: &[u8], p: usize) -> bool
    requires { p < length table.now }
    ensures { result ≡ is_fact table.now p }
{
    table[p] == FactBytes::KIND
}

// Where the record behind the body item at p starts: fail is its kind byte alone.
pub fn behind_item(table: &[u8], p: usize) -> usize
    requires { (p < length table.now) × (behind_item table.now p ≤ length table.now) }
    ensures { result ≡ behind_item table.now p }
{
    if is_fact(table, p) {
        p + FactBytes::LEN
    } else {
        p + 1
    }
}
