// Words: symbols, variables, constants, `true` and `fail`. A word is a whole run of letters and digits.
ghost use Rattle.std.specs.Prelude.{◌≡◌, ◌<◌, ◌≤◌, suc, ltb, cond, ◌&&◌, leb, Some, None, length, not, position};
ghost use Rattle.text.specs.Spelling.{is_word_byte, run, index_of, keyword, word};
ghost use Rattle.tokens.specs.Views.{found_of, index_found, mark_found};

use crate::bytes::is_word_byte;
use crate::{Mark, Spelled, Token, numerals};

const LAST_SYMBOL: u8 = 31;

const LAST_VARIABLE: u8 = 15;

fn run_end(rest: &[u8]) -> Option<usize>
    ensures { result ≡ position (λ b. not (is_word_byte b)) rest.now }
{
    rest.iter().position(|&b| !is_word_byte(b))
}

// How many letters and digits stand at the front.
#[tactic(auto, using(crate::proofs::WordReads::run_rules))]
pub fn run(rest: &[u8]) -> usize
    ensures value { result ≡ run rest.now }
    ensures within { result ≤ length rest.now }
{
    run_end(rest).unwrap_or(rest.len())
}

// Whether a letter or a digit stands at the front.
#[tactic(auto, using(crate::proofs::WordReads::goes_on_rules))]
fn goes_on(rest: &[u8]) -> bool
    ensures { result ≡ ltb 0 (run rest.now) }
{
    matches!(rest, [b, ..] if is_word_byte(*b))
}

// An index and its word's length, where it is at most `most` and the word ends before `rest`.
fn ended(index: u8, length: usize, most: u8, rest: &[u8]) -> Option<(u8, usize)>
    ensures { result ≡ cond (leb index most && not (ltb 0 (run rest.now))) (Some (index, length)) None }
{
    if index <= most && !goes_on(rest) {
        Some((index, length))
    } else {
        None
    }
}

// The index up to `most` behind a letter, and the length of the word:
// one digit, or two of which the first is not 0.
#[tactic(auto, using(crate::proofs::WordReads::index_rules))]
fn index_of(rest: &[u8], most: u8) -> Option<(u8, usize)>
    ensures { result ≡ index_found (suc (run rest.now)) (index_of most (run rest.now) rest.now) }
{
    match rest {
        [tens @ b'1'..=b'9', ones @ b'0'..=b'9', rest @ ..] => {
            ended(10 * (*tens - b'0') + (*ones - b'0'), 3, most, rest)
        }
        [ones @ b'0'..=b'9', rest @ ..] => ended(*ones - b'0', 2, most, rest),
        _ => None,
    }
}

#[tactic(auto, using(crate::proofs::WordReads::keyword_rules))]
fn keyword(word: &[u8]) -> Option<Mark>
    ensures { mark_found (length word.now) result ≡ keyword (length word.now) word.now }
{
    match word {
        b"true" => Some(Mark::True),
        b"fail" => Some(Mark::Fail),
        _ => None,
    }
}

// The word at the front.
#[inline(always)]
#[tactic(auto, using(crate::proofs::WordReads::word_rules))]
pub fn word(rest: &[u8]) -> Option<Spelled>
    requires { 0 < run rest.now }
    ensures { found_of result ≡ word (run rest.now) rest.now }
{
    let (token, length) = match rest {
        [b's', rest @ ..] => {
            let (index, length) = index_of(rest, LAST_SYMBOL)?;
            (Token::Symbol(index), length)
        }
        [b'V', rest @ ..] => {
            let (index, length) = index_of(rest, LAST_VARIABLE)?;
            (Token::Variable(index), length)
        }
        [b'0'..=b'9', ..] => return numerals::constant(rest),
        _ => {
            let length = run(rest);
            (Token::Mark(keyword(&rest[..length])?), length)
        }
    };
    Some(Spelled { token, length })
}
