// Constants: digits to the end of their run, and a minus before them. A constant out of range is no token.
ghost use Rattle.std.specs.Prelude.{◌≡◌, ◌≤◌, IfSome, length};
ghost use Rattle.text.specs.Spelling.{run, constant_of, negated};
ghost use Rattle.tokens.specs.Views.{found_of};
ghost use Rattle.tokens.specs.Numerals.{magnitude_of};

use crate::bytes::is_word_byte;
use crate::{Spelled, Token};

// The number that the run at the front says, and its length, where all of it are digits and 32 bits hold the number.
fn magnitude(rest: &[u8]) -> Option<(u32, usize)>
    ensures value { result ≡ magnitude_of (run rest.now) rest.now }
    ensures within { IfSome result (λ m. m.1 ≤ length rest.now) }
{
    let mut value: u32 = 0;
    for (count, &b) in rest.iter().enumerate() {
        if !b.is_ascii_digit() {
            return if is_word_byte(b) {
                None
            } else {
                Some((value, count))
            };
        }
        value = value.checked_mul(10)?.checked_add(u32::from(b - b'0'))?;
    }
    Some((value, rest.len()))
}

// The constant at the front, without a minus.
#[tactic(auto, using(crate::proofs::DigitReads::constant_rules))]
pub fn constant(rest: &[u8]) -> Option<Spelled>
    ensures { found_of result ≡ constant_of (run rest.now) rest.now }
{
    let (magnitude, length) = magnitude(rest)?;
    let value = i32::try_from(magnitude).ok()?;
    Some(Spelled {
        token: Token::Constant(value),
        length,
    })
}

// The constant whose digits stand behind a minus, at the front.
#[tactic(auto, using(crate::proofs::DigitReads::negated_rules))]
pub fn negated(rest: &[u8]) -> Option<Spelled>
    ensures { found_of result ≡ negated (run rest.now) rest.now }
{
    let (magnitude, length) = magnitude(rest)?;
    if length == 0 {
        return None;
    }
    let value = 0i32.checked_sub_unsigned(magnitude)?;
    Some(Spelled {
        token: Token::Constant(value),
        length: length + 1,
    })
}
