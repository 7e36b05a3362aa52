// Assembling a table's bytes from the tokens of a text, one token after the other (specs/Moves.antt).
#![tactic(auto, unfolding(crate::specs::Moves::moves_of, crate::specs::Moves::along, crate::specs::Pieces::lay_all, crate::specs::Pieces::lay))]

ghost use Rattle.tokens.specs.Views.{token_of};
ghost use Rattle.assembly.specs.Moves.{moved_by, moved};
ghost use Rattle.assembly.specs.Advances.{PhaseNear, Advanced};

use tokens::Token;

mod bodies;
mod expressions;
mod heads;
pub mod pieces;
mod slots;

// Which heads of a rule are read: the first ones, from this place on, or those behind "\".
#[derive(Clone, Copy)]
pub enum Group {
    First(usize),
    Second,
}

// Where an expression stands: left or right in a comparison, or a body fact's argument behind so many.
#[derive(Clone, Copy)]
pub enum Side {
    Left,
    Right,
    Argument(u8),
}

// What is read of the part that a text is in (crate parsing has the trees).
#[derive(Clone, Copy)]
pub enum Phase {
    Declared,
    Named(u8),
    Slashed,
    Sized,
    Ruled,
    HeadNamed(Group),
    HeadWants(Group, u8),
    HeadSlot(Group, u8),
    HeadDone(Group),
    HeadNext(Group),
    Headed,
    Wants(Side),
    Term(Side),
    Operated(Side),
    Formed(Side),
    Body,
    Emptied,
    ItemNamed,
    ItemDone,
    ItemNext,
    // Kept: the theorems stuck-told and told-stuck (docs/THEOREMS.md) say of this phase where no text goes on.
    Stuck,
}

// Where the record being read, or the next one, begins in the table, and the phase.
#[derive(Clone, Copy)]
pub struct Assembly {
    pub at: usize,
    pub phase: Phase,
}

// By the phase.
#[tactic(auto, unfolding(crate::specs::Moves::moves_of, crate::specs::Moves::moved_by, crate::specs::Pieces::lay_all))]
fn go_on(at: usize, phase: Phase, t: Token, table: &mut [u8]) -> Assembly
    requires { PhaseNear at phase }
    ensures { Advanced (moved_by at phase (token_of t)) table.old result table.new }
{
    match phase {
        Phase::Declared => heads::declared(at, t),
        Phase::Named(k) => heads::named(at, k, t, table),
        Phase::Slashed => heads::slashed(at, t, table),
        Phase::Sized => heads::sized(at, t),
        Phase::Ruled => heads::ruled(at, t, table),
        Phase::HeadNamed(g) => heads::head_named(at, g, t, table),
        Phase::HeadWants(g, n) => heads::head_wants(at, g, n, t, table),
        Phase::HeadSlot(g, n) => heads::head_slot(at, g, n, t),
        Phase::HeadDone(g) => heads::behind_head(at, g, t, table),
        Phase::HeadNext(g) => heads::head_next(at, g, t, table),
        Phase::Headed => bodies::headed(at, t, table),
        Phase::Wants(s) => expressions::wants(at, s, t, table),
        Phase::Term(s) => expressions::term(at, s, t, table),
        Phase::Operated(s) => expressions::operated(at, s, t, table),
        Phase::Formed(s) => expressions::behind_formula(at, s, t, table),
        Phase::Body => bodies::body(at, t, table),
        Phase::Emptied => bodies::emptied(at, t),
        Phase::ItemNamed => bodies::item_named(at, t),
        Phase::ItemDone => bodies::behind_item(at, t),
        Phase::ItemNext => bodies::item(at, t, table),
        Phase::Stuck => slots::stuck(),
    }
}

// The token moves the assembly on; what it says is laid into the table.
pub fn advance(a: Assembly, t: Token, table: &mut [u8]) -> Assembly
    requires { PhaseNear a.at a.phase }
    ensures { Advanced (moved a (token_of t)) table.old result table.new }
{
    go_on(a.at, a.phase, t, table)
}
