// A pass over the tokens of a text: they are assembled to a table until one of them goes on no text.
ghost use Rattle.std.specs.Prelude.{◌≡◌, ◌≤◌, ℕ, Err, length};
ghost use Rattle.text.specs.Tokens.{lexed};
ghost use Rattle.parsing.specs.Parsed.{wrong_from, parsed};
ghost use Rattle.assembly.specs.declared.Phase.TheVariants.{Declared};
ghost use Rattle.assembly.specs.Moves.{here, is_stuck, ends};
ghost use Rattle.text_reader.specs.Lexing.{lexed_in};
ghost use Rattle.text_reader.specs.Passing.{Blank, Finished, passed_of, PassedIs};

use crate::lexing::{Placed, Tokens};
use assembly::pieces::put;
use assembly::{Assembly, Phase, advance};
use model::{Reason, Refusal};

fn start() -> Assembly
    ensures { result ≡ here 0 Declared }
{
    Assembly {
        at: 0,
        phase: Phase::Declared,
    }
}

// Whether no text goes on.
#[tactic(auto, unfolding(assembly::specs::Moves::is_stuck))]
fn is_stuck(phase: Phase) -> bool
    ensures { result ≡ is_stuck phase }
{
    matches!(phase, Phase::Stuck)
}

// Whether a text may end: behind a declaration or a rule.
#[tactic(auto, unfolding(assembly::specs::Moves::ends))]
fn may_end(phase: Phase) -> bool
    ensures { result ≡ ends phase }
{
    matches!(phase, Phase::Declared | Phase::Ruled)
}

// The length of the table, where the text may end. Past the end of the buffer nothing is laid.
fn finish(a: Assembly, table: &mut [u8]) -> Option<usize>
    requires { a.at ≤ 4294967296 }
    ensures { Finished a table.old result table.new }
{
    if !may_end(a.phase) {
        return None;
    }
    put(table, a.at, 8);
    Some(a.at + 1)
}

// Behind a token with which no text goes on, there may still be a byte at which there is no token.
#[cold]
#[inline(never)]
fn wrong_from(mut tokens: Tokens, place: u32) -> Refusal
    ensures { (n : ℕ) → Err result ≡ passed_of n (wrong_from place (lexed_in tokens.entry)) }
{
    while let Some(next) = tokens.next() {
        if let Err(refusal) = next {
            return refusal;
        }
    }
    Refusal {
        reason: Reason::NoGrammarRule,
        place,
    }
}

// The length of the table that the text stands for. It is assembled in `table`, as far as that goes; what lies behind stays 0.
pub fn pass(text: &[u8], table: &mut [u8]) -> Result<usize, Refusal>
    requires short { length text.now ≤ 65536 }
    requires blank { Blank table.old }
    ensures { PassedIs (length text.now) (parsed (lexed text.now)) result table.new }
{
    let mut tokens = Tokens {
        rest: text,
        at: 0,
        after: false,
    };
    let mut a = start();
    while let Some(next) = tokens.next() {
        let Placed { place, token } = next?;
        let to = advance(a, token, table);
        if is_stuck(to.phase) {
            return Err(wrong_from(tokens, place));
        }
        a = to;
    }
    finish(a, table).ok_or(Refusal::at(Reason::NoGrammarRule, text.len()))
}
