// The kinds of a table's records: their lengths, order and limits.
ghost use Rattle.std.specs.Prelude.{◌≡◌};
ghost use Rattle.model.specs.Records.{kind_of, size_of, earliest_of, latest_of, out_of_order, headless, too_many};

use crate::geometry::{FactBytes, GuardBytes, HeadBytes, SymbolBytes};
use model::{Kind, Rule, Scan, Stage, Table};

// The kind of a record that begins with this byte.
pub fn kind_of(b: u8) -> Option<Kind>
    ensures { result ≡ kind_of b }
{
    match b {
        1 => Some(Kind::NextSymbol),
        2 => Some(Kind::NextRule),
        3 => Some(Kind::KeptHead),
        4 => Some(Kind::RemovedHead),
        5 => Some(Kind::Comparison),
        6 => Some(Kind::BodyFact),
        7 => Some(Kind::BodyFail),
        8 => Some(Kind::EndOfTable),
        _ => None,
    }
}

// The length of a record.
pub fn size_of(k: Kind) -> usize
    ensures { result ≡ size_of k }
{
    match k {
        Kind::NextSymbol => SymbolBytes::LEN,
        Kind::KeptHead | Kind::RemovedHead => HeadBytes::LEN,
        Kind::Comparison => GuardBytes::LEN,
        Kind::BodyFact => FactBytes::LEN,
        Kind::NextRule | Kind::BodyFail | Kind::EndOfTable => 1,
    }
}

// The first stage at which a record of a kind may stand.
fn earliest(k: Kind) -> u8
    ensures { result ≡ earliest_of k }
{
    match k {
        Kind::NextSymbol | Kind::NextRule | Kind::EndOfTable => Stage::SYMBOLS,
        _ => Stage::NO_HEAD,
    }
}

// The last one.
fn latest(k: Kind) -> u8
    ensures { result ≡ latest_of k }
{
    match k {
        Kind::NextSymbol => Stage::SYMBOLS,
        Kind::KeptHead => Stage::KEPT_HEADS,
        Kind::RemovedHead => Stage::REMOVED_HEADS,
        Kind::Comparison => Stage::GUARDS,
        _ => Stage::BODY,
    }
}

// 18: the record stands too early or too late.
pub fn out_of_order(k: Kind, stage: u8) -> bool
    ensures { result ≡ out_of_order k stage }
{
    stage < earliest(k) || latest(k) < stage
}

// 21: a guard, body item, rule or end after a rule with no head.
pub fn headless(k: Kind, stage: u8) -> bool
    ensures { result ≡ headless k stage }
{
    match k {
        Kind::NextSymbol | Kind::KeptHead | Kind::RemovedHead => false,
        _ => stage == Stage::NO_HEAD,
    }
}

// 19: one too many of its sort.
pub fn too_many(k: Kind, s: &Scan) -> bool
    ensures { result ≡ too_many k s.now }
{
    match k {
        Kind::NextSymbol => Table::SYMBOLS <= s.symbols as usize,
        Kind::NextRule => Table::RULES <= s.rules as usize,
        Kind::KeptHead | Kind::RemovedHead => Rule::HEADS <= s.shape.heads as usize,
        Kind::Comparison => Rule::GUARDS <= s.shape.guards as usize,
        Kind::BodyFact | Kind::BodyFail => Rule::ITEMS <= s.shape.items as usize,
        Kind::EndOfTable => false,
    }
}
