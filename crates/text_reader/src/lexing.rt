// The tokens of a text, one after the other.
ghost use Rattle.std.specs.Prelude.{◌≡◌, ◌+◌, ◌≤◌, length, not, position};
ghost use Rattle.text.specs.Spelling.{is_blank};

use model::{Reason, Refusal};
use tokens::bytes::is_blank;
use tokens::{Token, is_slot, token_at};

// A token and the place of its first byte.
#[derive(Clone, Copy)]
pub struct Placed {
    pub place: u32,
    pub token: Token,
}

// The bytes of a text from a place on, and whether the token before is a constant or a variable.
#[derive(Clone, Copy)]
pub struct Tokens<'a> {
    pub rest: &'a [u8],
    pub at: usize,
    pub after: bool,
    ghost fits: { at + length rest.now ≤ 65536 },
}

// Where the first byte is that is no blank.
fn first_byte(rest: &[u8]) -> Option<usize>
    ensures { result ≡ position (λ b. not (is_blank b)) rest.now }
{
    rest.iter().position(|&b| !is_blank(b))
}

impl Tokens<'_> {
    ghost use Rattle.text_reader.specs.Lexing.{NextIs};

    // The next token; a refusal where there is none, and None at the end.
    // Inlined, with the functions of `tokens` that it calls: as a call it kept its state in memory, and a text took 1.4 times the instructions.
    #[inline(always)]
    #[tactic(auto, using(crate::proofs::Nexts::next_rules))]
    pub fn next(&mut self) -> Option<Result<Placed, Refusal>>
        ensures { NextIs self.old self.new result }
    {
        let blanks = first_byte(self.rest)?;
        let rest = &self.rest[blanks..];
        let place = self.at + blanks;
        let Some(spelled) = token_at(rest, self.after) else {
            return Some(Err(Refusal::at(Reason::NoToken, place)));
        };
        let token = spelled.token;
        self.rest = &rest[spelled.length..];
        self.at = place + spelled.length;
        self.after = is_slot(token);
        Some(Ok(Placed {
            place: place as u32,
            token,
        }))
    }
}
