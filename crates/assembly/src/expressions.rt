// Expressions: in a comparison, and as arguments of a body fact.
ghost use Rattle.std.specs.Prelude.{◌≡◌, [], ◌∷◌, ◌+◌, ◌≤◌};
ghost use Rattle.text.specs.Token.{closes};
ghost use Rattle.assembly.specs.declared.Phase.TheVariants.{Wants, Term, Operated, Formed, ItemDone};
ghost use Rattle.assembly.specs.declared.Side.TheVariants.{Left, Right, Argument};
ghost use Rattle.assembly.specs.Moves.{here, on, moves_of, begin_guard, first_slot, behind_formula};
ghost use Rattle.assembly.specs.Advances.{Near, PlaceIs, Goes, Stays};

use crate::pieces::{put, put_slot};
use crate::slots::{here, slot_of, stuck};
use crate::{Assembly, Phase, Side};
use records::geometry::{ExpressionBytes, FactBytes, GuardBytes};
use tokens::{Mark, Token};

// Where the expression of a side begins, in the record at `at`.
fn place_of(at: usize, s: Side) -> usize
    requires { Near at }
    ensures { PlaceIs at s result }
{
    match s {
        Side::Left => at + 2,
        Side::Right => at + 13,
        Side::Argument(n) => at + 2 + ExpressionBytes::LEN * (n as usize),
    }
}

// ---- slots and operations

// The first slot of a comparison, which begins its record.
fn guard_begins(at: usize, t: Token, table: &mut [u8]) -> Assembly
    requires { Near at }
    ensures { Goes t (begin_guard at ∷ []) table.old result table.new }
{
    if let Some(slot) = slot_of(t) {
        put(table, at, 5);
        put_slot(table, at + 3, slot);
        return here(at, Phase::Term(Side::Left));
    }
    stuck()
}

// The first slot of an expression whose record is begun.
fn first_slot(at: usize, s: Side, t: Token, table: &mut [u8]) -> Assembly
    requires { Near at }
    ensures { Goes t (first_slot at s ∷ []) table.old result table.new }
{
    if let Some(slot) = slot_of(t) {
        let p = place_of(at, s);
        put_slot(table, p + 1, slot);
        return here(at, Phase::Term(s));
    }
    stuck()
}

pub fn wants(at: usize, s: Side, t: Token, table: &mut [u8]) -> Assembly
    requires { Near at }
    ensures { Goes t (moves_of at (Wants s)) table.old result table.new }
{
    match s {
        Side::Left => guard_begins(at, t, table),
        Side::Right => first_slot(at, Side::Right, t, table),
        Side::Argument(n) => first_slot(at, Side::Argument(n), t, table),
    }
}

// Behind the first slot: an operation, or what follows the expression.
pub fn term(at: usize, s: Side, t: Token, table: &mut [u8]) -> Assembly
    requires { Near at }
    ensures { Goes t (moves_of at (Term s)) table.old result table.new }
{
    if let Token::Operates(operation) = t {
        let p = place_of(at, s);
        put(table, p, operation as u8);
        return here(at, Phase::Operated(s));
    }
    behind_formula(at, s, t, table)
}

// The second slot.
pub fn operated(at: usize, s: Side, t: Token, table: &mut [u8]) -> Assembly
    requires { Near at }
    ensures { Goes t (moves_of at (Operated s)) table.old result table.new }
{
    if let Some(slot) = slot_of(t) {
        let p = place_of(at, s);
        put_slot(table, p + ExpressionBytes::RIGHT, slot);
        return here(at, Phase::Formed(s));
    }
    stuck()
}

// ---- behind an expression

fn behind_left(at: usize, t: Token, table: &mut [u8]) -> Assembly
    requires { Near at }
    ensures { Goes t (behind_formula at Left) table.old result table.new }
{
    if let Token::Compares(comparator) = t {
        put(table, at + 1, comparator as u8);
        return here(at, Phase::Wants(Side::Right));
    }
    stuck()
}

fn behind_right(at: usize, t: Token) -> Assembly
    requires { Near at }
    ensures { Stays t (behind_formula at Right) result }
{
    match t {
        Token::Mark(Mark::Comma) => here(at + GuardBytes::LEN, Phase::Wants(Side::Left)),
        Token::Mark(Mark::Bar) => here(at + GuardBytes::LEN, Phase::Body),
        _ => stuck(),
    }
}

// Behind the last argument.
fn last_argument(at: usize, t: Token) -> Assembly
    requires { Near at }
    ensures { Stays t (on closes (here (at + 46) ItemDone) ∷ []) result }
{
    if let Token::Mark(Mark::Closes) = t {
        return here(at + FactBytes::LEN, Phase::ItemDone);
    }
    stuck()
}

fn behind_argument(at: usize, n: u8, t: Token) -> Assembly
    requires { Near at }
    ensures { Stays t (behind_formula at (Argument n)) result }
{
    if 3 <= n {
        return last_argument(at, t);
    }
    if let Token::Mark(Mark::Comma) = t {
        return here(at, Phase::Wants(Side::Argument(n + 1)));
    }
    last_argument(at, t)
}

// Inlined: as a call it kept what is assembled in memory, for every token.
#[inline(always)]
pub fn behind_formula(at: usize, s: Side, t: Token, table: &mut [u8]) -> Assembly
    requires { Near at }
    ensures { Goes t (behind_formula at s) table.old result table.new }
{
    match s {
        Side::Left => behind_left(at, t, table),
        Side::Right => behind_right(at, t),
        Side::Argument(n) => behind_argument(at, n, t),
    }
}
