// The body of a rule.
ghost use Rattle.std.specs.Prelude.{◌≡◌, ◌+◌, ◌≤◌};
ghost use Rattle.assembly.specs.declared.Phase.TheVariants.{Headed, Body, Emptied, ItemNamed, ItemDone, ItemNext};
ghost use Rattle.assembly.specs.Moves.{moves_of, body_moves, item_moves, behind_item};
ghost use Rattle.assembly.specs.Advances.{Near, Goes, Stays};

use crate::pieces::{put, put_pair, put_slot};
use crate::slots::{here, slot_of, stuck};
use crate::{Assembly, Phase, Side};
use records::geometry::FactBytes;
use tokens::{Mark, Token};

pub fn item(at: usize, t: Token, table: &mut [u8]) -> Assembly
    requires { Near at }
    ensures { Goes t (item_moves at) table.old result table.new }
{
    match t {
        Token::Symbol(symbol) => {
            put_pair(table, at, 6, symbol);
            here(at, Phase::ItemNamed)
        }
        Token::Mark(Mark::Fail) => {
            put(table, at, 7);
            here(at + 1, Phase::ItemDone)
        }
        _ => stuck(),
    }
}

pub fn body(at: usize, t: Token, table: &mut [u8]) -> Assembly
    requires { Near at }
    ensures { Goes t (body_moves at) table.old result table.new }
{
    if let Token::Mark(Mark::True) = t {
        return here(at, Phase::Emptied);
    }
    item(at, t, table)
}

// Behind "<=>" or "==>": the first slot of a comparison, or the body.
pub fn headed(at: usize, t: Token, table: &mut [u8]) -> Assembly
    requires { Near at }
    ensures { Goes t (moves_of at Headed) table.old result table.new }
{
    if let Some(slot) = slot_of(t) {
        put(table, at, 5);
        put_slot(table, at + 3, slot);
        return here(at, Phase::Term(Side::Left));
    }
    body(at, t, table)
}

pub fn emptied(at: usize, t: Token) -> Assembly
    ensures { Stays t (moves_of at Emptied) result }
{
    if let Token::Mark(Mark::Stop) = t {
        return here(at, Phase::Ruled);
    }
    stuck()
}

pub fn behind_item(at: usize, t: Token) -> Assembly
    ensures { Stays t (behind_item at) result }
{
    match t {
        Token::Mark(Mark::Comma) => here(at, Phase::ItemNext),
        Token::Mark(Mark::Stop) => here(at, Phase::Ruled),
        _ => stuck(),
    }
}

// Behind the symbol of a body fact.
pub fn item_named(at: usize, t: Token) -> Assembly
    requires { Near at }
    ensures { Stays t (moves_of at ItemNamed) result }
{
    if let Token::Mark(Mark::Opens) = t {
        return here(at, Phase::Wants(Side::Argument(0)));
    }
    behind_item(at + FactBytes::LEN, t)
}
