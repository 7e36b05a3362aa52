// Declarations, and the heads of a rule.
ghost use Rattle.std.specs.Prelude.{◌≡◌, [], ◌∷◌, ◌+◌, ◌≤◌};
ghost use Rattle.text.specs.Token.{closes};
ghost use Rattle.assembly.specs.Pieces.{lay_all};
ghost use Rattle.assembly.specs.declared.Phase.TheVariants.{Declared, Slashed, Sized, Ruled, HeadNamed, HeadWants, HeadSlot, HeadDone, HeadNext};
ghost use Rattle.assembly.specs.declared.Group.TheVariants.{First, Second};
ghost use Rattle.assembly.specs.Moves.{here, on, moves_of, behind_symbol, behind_head, behind_group, kind_of, rule_begins};
ghost use Rattle.assembly.specs.Advances.{Near, GroupNear, Goes, Stays, Begins, NamedGoes};

use crate::pieces::{put, put_pair, put_removed, put_slot};
use crate::slots::{here, slot_of, stuck};
use crate::{Assembly, Group, Phase};
use records::geometry::{HeadBytes, SlotBytes};
use tokens::{Mark, Operation, Token};

// ---- declarations

pub fn declared(at: usize, t: Token) -> Assembly
    ensures { Stays t (moves_of at Declared) result }
{
    if let Token::Symbol(k) = t {
        return here(at, Phase::Named(k));
    }
    stuck()
}

#[tactic(auto, unfolding(crate::specs::Moves::moves_of, crate::specs::Moves::along, crate::specs::Pieces::lay_all, grammar::specs::Encode::symbol_bytes))]
pub fn slashed(at: usize, t: Token, table: &mut [u8]) -> Assembly
    requires { Near at }
    ensures { Goes t (moves_of at Slashed) table.old result table.new }
{
    if let Token::Constant(arity @ 0..=4) = t {
        put_pair(table, at, 1, arity as u8);
        return here(at + 2, Phase::Sized);
    }
    stuck()
}

pub fn sized(at: usize, t: Token) -> Assembly
    ensures { Stays t (moves_of at Sized) result }
{
    if let Token::Mark(Mark::Stop) = t {
        return here(at, Phase::Declared);
    }
    stuck()
}

// ---- behind a head

fn behind_first(at: usize, start: usize, t: Token, table: &mut [u8]) -> Assembly
    requires { (start ≤ 8589934592) × (at ≤ 8589934592) }
    ensures { Goes t (behind_group at (First start)) table.old result table.new }
{
    match t {
        Token::Mark(Mark::Backslash) => here(at, Phase::HeadNext(Group::Second)),
        Token::Mark(Mark::Simplifies) => {
            put_removed(table, start, at);
            here(at, Phase::Headed)
        }
        Token::Mark(Mark::Propagates) => here(at, Phase::Headed),
        _ => stuck(),
    }
}

fn behind_second(at: usize, t: Token) -> Assembly
    ensures { Stays t (behind_group at Second) result }
{
    if let Token::Mark(Mark::Simplifies) = t {
        return here(at, Phase::Headed);
    }
    stuck()
}

fn behind_group(at: usize, g: Group, t: Token, table: &mut [u8]) -> Assembly
    requires { (at ≤ 8589934592) × GroupNear g }
    ensures { Goes t (behind_group at g) table.old result table.new }
{
    match g {
        Group::First(start) => behind_first(at, start, t, table),
        Group::Second => behind_second(at, t),
    }
}

pub fn behind_head(at: usize, g: Group, t: Token, table: &mut [u8]) -> Assembly
    requires { (at ≤ 8589934592) × GroupNear g }
    ensures { Goes t (behind_head at g) table.old result table.new }
{
    if let Token::Mark(Mark::Comma) = t {
        return here(at, Phase::HeadNext(g));
    }
    behind_group(at, g, t, table)
}

// ---- a head

// Behind its symbol.
pub fn head_named(at: usize, g: Group, t: Token, table: &mut [u8]) -> Assembly
    requires { (at ≤ 4294967297) × GroupNear g }
    ensures { Goes t (behind_symbol at g) table.old result table.new }
{
    if let Token::Mark(Mark::Opens) = t {
        return here(at, Phase::HeadWants(g, 0));
    }
    behind_head(at + HeadBytes::LEN, g, t, table)
}

pub fn head_wants(at: usize, g: Group, n: u8, t: Token, table: &mut [u8]) -> Assembly
    requires { Near at }
    ensures { Goes t (moves_of at (HeadWants g n)) table.old result table.new }
{
    if let Some(slot) = slot_of(t) {
        let p = at + 2 + SlotBytes::LEN * (n as usize);
        put_slot(table, p, slot);
        return here(at, Phase::HeadSlot(g, n));
    }
    stuck()
}

// Behind its last slot.
fn last_slot(at: usize, g: Group, t: Token) -> Assembly
    requires { Near at }
    ensures { Stays t (on closes (here (at + 22) (HeadDone g)) ∷ []) result }
{
    if let Token::Mark(Mark::Closes) = t {
        return here(at + HeadBytes::LEN, Phase::HeadDone(g));
    }
    stuck()
}

pub fn head_slot(at: usize, g: Group, n: u8, t: Token) -> Assembly
    requires { Near at }
    ensures { Stays t (moves_of at (HeadSlot g n)) result }
{
    if 3 <= n {
        return last_slot(at, g, t);
    }
    if let Token::Mark(Mark::Comma) = t {
        return here(at, Phase::HeadWants(g, n + 1));
    }
    last_slot(at, g, t)
}

fn kind_of(g: Group) -> u8
    ensures { result ≡ kind_of g }
{
    match g {
        Group::First(_) => 3,
        Group::Second => 4,
    }
}

pub fn head_next(at: usize, g: Group, t: Token, table: &mut [u8]) -> Assembly
    requires { Near at }
    ensures { Goes t (moves_of at (HeadNext g)) table.old result table.new }
{
    if let Token::Symbol(symbol) = t {
        put_pair(table, at, kind_of(g), symbol);
        return here(at, Phase::HeadNamed(g));
    }
    stuck()
}

// ---- a rule begins

// The kind of a rule, and of its first head with the symbol.
#[tactic(auto, using(crate::proofs::Laying::laid))]
fn put_rule(table: &mut [u8], at: usize, symbol: u8)
    requires { Near at }
    ensures { table.new ≡ lay_all (rule_begins at symbol ∷ []) table.old }
{
    put(table, at, 2);
    put(table, at + 1, 3);
    put(table, at + 2, symbol);
}

pub fn ruled(at: usize, t: Token, table: &mut [u8]) -> Assembly
    requires { Near at }
    ensures { Goes t (moves_of at Ruled) table.old result table.new }
{
    if let Token::Symbol(symbol) = t {
        put_rule(table, at, symbol);
        return here(at + 1, Phase::HeadNamed(Group::First(at + 1)));
    }
    stuck()
}

// A symbol while there is no rule yet, that is no declaration's: it is that of the first head.
fn beginning(at: usize, k: u8, t: Token, table: &mut [u8]) -> Assembly
    requires { Near at }
    ensures { Begins at k t table.old result table.new }
{
    put_rule(table, at, k);
    head_named(at + 1, Group::First(at + 1), t, table)
}

// Behind a symbol while there is no rule yet. "k is the number of declarations before it": each took two bytes.
pub fn named(at: usize, k: u8, t: Token, table: &mut [u8]) -> Assembly
    requires { Near at }
    ensures { NamedGoes at k t table.old result table.new }
{
    if 2 * (k as usize) != at {
        return beginning(at, k, t, table);
    }
    if let Token::Operates(Operation::Quotient) = t {
        return here(at, Phase::Slashed);
    }
    beginning(at, k, t, table)
}
