// The types that every crate of the engine shares. The definition (specs/) speaks of them too, so that a
// contract can name the definition's own value.
#![tactic(auto)]

ghost use Rattle.std.specs.Prelude.{◌≡◌, ◌<◌, ◌^◌};
ghost use Rattle.model.specs.Guards.{unbound};
ghost use Rattle.model.specs.Refusals.{number_of};
ghost use Rattle.model.specs.Results.{counts_of, result_of, refusal, refused_result};

// Identifiers, symbols, rules and occurrences count separate things: no one of them passes as another.
#[derive(Clone, Copy, PartialEq, Eq, Default)]
pub struct FactId(pub u32);

#[derive(Clone, Copy, PartialEq, Eq, Default)]
pub struct Symbol(pub u8);

#[derive(Clone, Copy, PartialEq, Eq, Default)]
pub struct RuleNumber(pub u8);

#[derive(Clone, Copy, PartialEq, Eq, PartialOrd, Ord)]
pub struct Occurrence(pub u16);

// ---- facts, the store and the stack

// Places that the symbol does not use are zero.
#[derive(Clone, Copy, PartialEq, Eq, Default)]
pub struct Fact {
    pub symbol: Symbol,
    pub arguments: [i32; Fact::ARGUMENTS],
}

impl Fact {
    pub const ARGUMENTS: usize = 4;
}

#[derive(Clone, Copy, PartialEq, Eq, Default)]
pub struct Stored {
    pub id: FactId,
    pub fact: Fact,
}

#[derive(Clone, Copy, Default)]
pub enum Item {
    Waiting(Fact),
    Active(FactId, Occurrence),
    #[default]
    Fail,
}

// An entry knows its symbol, since an active fact that was removed still goes on over its occurrences.
#[derive(Clone, Copy, Default)]
pub struct Entry {
    pub symbol: Symbol,
    pub item: Item,
}

// A firing in the history: the rule, and the identifiers in head order, 0 where the rule has no such head.
#[derive(Clone, Copy, PartialEq, Eq, Default)]
pub struct Fired {
    pub rule: RuleNumber,
    pub ids: [FactId; Rule::HEADS],
}

// ---- a rule's parts

// Five bytes: a tag and a value. Bad is what no good table holds.
#[derive(Clone, Copy)]
pub enum Slot {
    Unused,
    Constant(i32),
    Variable(u8),
    Bad,
}

#[derive(Clone, Copy)]
pub struct Expression {
    // Kept: a number, since `numbers::evaluate` answers to every number, also one that no enum has.
    pub operation: u8,
    pub left: Slot,
    pub right: Slot,
}

// What the variables 0..15 are bound to, where they are.
#[derive(Clone, Copy, PartialEq, Eq)]
pub struct Binding {
    pub values: [Option<i32>; Rule::VARIABLES],
}

impl Binding {
    // No variable is bound.
    pub fn unbound() -> Binding
        ensures { result ≡ unbound }
    {
        Binding {
            values: [None; Rule::VARIABLES],
        }
    }
}

// Where a rule stands in its table's bytes, and how many parts of each sort it has; `heads` counts kept and removed ones.
// Eight bytes, since 64 of them go by value with a reading.
#[derive(Clone, Copy, PartialEq, Eq, Default)]
pub struct RuleShape {
    pub start: u32,
    pub kept: u8,
    pub heads: u8,
    pub guards: u8,
    pub items: u8,
}

// A head of a rule, counted from 0 in written head order.
#[derive(Clone, Copy, PartialEq, Eq)]
pub struct HeadPlace {
    pub rule: RuleNumber,
    pub head: u8,
}

// ---- refusals

// What a call refuses, each by its number in the documents.
#[derive(Clone, Copy, PartialEq, Eq)]
pub enum Reason {
    // of a table
    UnknownKind = 16,
    CutShort = 17,
    OutOfOrder = 18,
    TooMany = 19,
    BadField = 20,
    Headless = 21,
    StrangeVariable = 22,
    BytesBehind = 23,
    // of a run
    GoalLength = 32,
    BadGoalFact = 33,
    LongGoal = 34,
    StepLimit = 35,
    ShortAnswer = 36,
    // of weights
    WeightCount = 40,
    ZeroWeight = 41,
    HeavyRule = 42,
    // of a text
    LongText = 48,
    NoToken = 49,
    NoGrammarRule = 50,
    NoRoom = 51,
}

impl Reason {
    pub fn number(self) -> u8
        ensures { result ≡ number_of self }
    {
        self as u8
    }
}

#[derive(Clone, Copy, PartialEq, Eq)]
pub struct Refusal {
    pub reason: Reason,
    pub place: u32,
}

impl Refusal {
    pub fn at(reason: Reason, place: usize) -> Refusal
        requires { place < 2 ^ 32 }
        ensures { result ≡ record { reason = reason; place = place } }
    {
        Refusal {
            reason,
            place: place as u32,
        }
    }
}

// ---- reading a table

// The kinds of a table's records.
#[derive(Clone, Copy, PartialEq, Eq)]
pub enum Kind {
    NextSymbol,
    NextRule,
    KeptHead,
    RemovedHead,
    Comparison,
    BodyFact,
    BodyFail,
    EndOfTable,
}

// How far reading a table has come.
// Kept: numbers, since the definition (`out_of_order`) and what it keeps (`Sane`, `InRule`) compare stages as numbers.
pub struct Stage;

impl Stage {
    // before the first rule
    pub const SYMBOLS: u8 = 0;

    // in a rule
    pub const NO_HEAD: u8 = 1;

    pub const KEPT_HEADS: u8 = 2;

    pub const REMOVED_HEADS: u8 = 3;

    pub const GUARDS: u8 = 4;

    pub const BODY: u8 = 5;
}

// What the records before an offset have said.
#[derive(Clone, Copy, PartialEq, Eq, Default)]
pub struct Scan {
    // the offset of the next record
    pub at: usize,
    // one of Stage
    pub stage: u8,
    pub symbols: u8,
    pub rules: u8,
    // the rule that is being read
    pub shape: RuleShape,
}

// What a good record comes to.
#[derive(Clone, Copy, PartialEq, Eq)]
pub enum Behind {
    // what is known behind it
    Next(Scan),
    // it was the end record: the offset behind it
    Done(usize),
}

// A table as it is read: whether it is good, and where its rules stand. Shapes behind the last rule are zero.
#[derive(Clone, Copy)]
pub struct Reading {
    pub verdict: Result<(), Refusal>,
    pub symbols: u8,
    pub rules: u8,
    pub shapes: [RuleShape; Table::RULES],
}

// ---- results

// "A result has: number, place, steps, firings, identifiers given, facts stored."
#[derive(Clone, Copy, PartialEq, Eq, Default)]
pub struct CallResult {
    // Kept: a number and no reason, since a C host gets a result as six words (include/nadhirukh.h).
    pub number: u32,
    pub place: u32,
    pub steps: u32,
    pub firings: u32,
    pub identifiers: u32,
    pub stored: u32,
}

impl CallResult {
    // How many words of 32 bits a result is.
    pub const WORDS: usize = 6;

    // A result of its six words.
    pub fn new(
        number: u8,
        place: u32,
        steps: u32,
        firings: u32,
        identifiers: u32,
        stored: u32,
    ) -> CallResult
        ensures { result ≡ result_of number place (counts_of steps firings) identifiers stored }
    {
        CallResult {
            number: number as u32,
            place,
            steps,
            firings,
            identifiers,
            stored,
        }
    }

    // "Numbers 16 and above have all four counts 0."
    pub fn refusal(number: u8, place: u32) -> CallResult
        ensures { result ≡ refusal number place }
    {
        CallResult {
            number: number as u32,
            place,
            ..CallResult::default()
        }
    }
}

impl From<Refusal> for CallResult {
    ghost from_gives = { λ r c. c ≡ refused_result r };

    fn from(r: Refusal) -> CallResult {
        CallResult::refusal(r.reason.number(), r.place)
    }
}

// A weighing: its result, W and the step bound.
#[derive(Clone, Copy)]
pub struct Weighing {
    pub result: CallResult,
    pub weight: u32,
    pub bound: u32,
}

// ---- room

// "Limits: 32 symbols, 64 rules, and per rule 1..4 heads, 0..4 guards, 0..4 body items."
pub struct Table;

impl Table {
    pub const SYMBOLS: usize = 32;

    pub const RULES: usize = 64;

    pub const LONGEST: usize = 23681;
}

pub struct Rule;

impl Rule {
    pub const HEADS: usize = 4;

    pub const GUARDS: usize = 4;

    pub const ITEMS: usize = 4;

    // "variable, value 0..15"
    pub const VARIABLES: usize = 16;
}

// "Goal 0..64 facts."
pub struct Goal;

impl Goal {
    pub const MAX: usize = 64;

    pub const RECORD_LEN: usize = 18;
}

// "Store 128, stack 256, history 256."
pub struct Store;

impl Store {
    pub const CAPACITY: usize = 128;
}

pub struct Stack;

impl Stack {
    pub const CAPACITY: usize = 256;
}

pub struct History;

impl History {
    pub const CAPACITY: usize = 256;
}

// "Step limit 0..20,000,000. Answer buffer at least 2,816 bytes."
pub struct StepLimit;

impl StepLimit {
    pub const MAX: u32 = 20000000;
}

pub struct Answer;

impl Answer {
    pub const RECORD_LEN: usize = 22;

    pub const MIN: usize = 2816;
}
