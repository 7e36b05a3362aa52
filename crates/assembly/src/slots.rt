// What functions of every phase share: where the assembly goes on, and the slot that a token is.
ghost use Rattle.std.specs.Prelude.{◌≡◌};
ghost use Rattle.tokens.specs.Views.{token_of};
ghost use Rattle.parsing.specs.Classes.{slot_said};
ghost use Rattle.assembly.specs.declared.Phase.TheVariants.{Stuck};
ghost use Rattle.assembly.specs.Moves.{here};
ghost use Rattle.assembly.specs.Slots.{SlotIs};

use crate::{Assembly, Phase};
use tokens::Token;

// A slot of a table: its tag, and the 32 bits of a constant or the index of a variable.
#[derive(Clone, Copy)]
pub struct Slot {
    pub tag: u8,
    pub value: u32,
}

#[tactic(auto, unfolding(grammar::specs::Encode::term_bytes))]
pub fn slot_of(t: Token) -> Option<Slot>
    ensures { SlotIs (slot_said (token_of t)) result }
{
    match t {
        Token::Constant(z) => Some(Slot {
            tag: 1,
            value: wire::bits(z),
        }),
        Token::Variable(v) => Some(Slot {
            tag: 2,
            value: u32::from(v),
        }),
        _ => None,
    }
}

pub fn here(at: usize, phase: Phase) -> Assembly
    ensures { result ≡ here at phase }
{
    Assembly { at, phase }
}

// No text goes on with the token.
pub fn stuck() -> Assembly
    ensures { result ≡ here 0 Stuck }
{
    here(0, Phase::Stuck)
}
