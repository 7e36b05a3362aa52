// Marks, comparators and operations: the longest that stands at the front.
ghost use Rattle.std.specs.Prelude.{◌≡◌};
ghost use Rattle.text.specs.Spelling.{signs, sign_of};
ghost use Rattle.tokens.specs.Views.{found_of};

use crate::{Comparator, Mark, Operation, Spelled, Token};

// The longest first: no sign is the beginning of an earlier one.
#[inline(always)]
#[tactic(auto, using(crate::proofs::SignReads::sign_rules))]
pub fn sign_of(rest: &[u8]) -> Option<Spelled>
    ensures { found_of result ≡ sign_of signs rest.now }
{
    let (token, length) = match rest {
        [b'<', b'=', b'>', ..] => (Token::Mark(Mark::Simplifies), 3),
        [b'=', b'=', b'>', ..] => (Token::Mark(Mark::Propagates), 3),
        [b'\\', b'=', ..] => (Token::Compares(Comparator::Unequal), 2),
        [b'=', b'<', ..] => (Token::Compares(Comparator::AtMost), 2),
        [b'>', b'=', ..] => (Token::Compares(Comparator::AtLeast), 2),
        [b'\\', ..] => (Token::Mark(Mark::Backslash), 1),
        [b'|', ..] => (Token::Mark(Mark::Bar), 1),
        [b'=', ..] => (Token::Compares(Comparator::Equal), 1),
        [b'<', ..] => (Token::Compares(Comparator::Less), 1),
        [b'>', ..] => (Token::Compares(Comparator::Greater), 1),
        [b'+', ..] => (Token::Operates(Operation::Sum), 1),
        [b'-', ..] => (Token::Operates(Operation::Difference), 1),
        [b'*', ..] => (Token::Operates(Operation::Product), 1),
        [b'/', ..] => (Token::Operates(Operation::Quotient), 1),
        [b'%', ..] => (Token::Operates(Operation::Remainder), 1),
        [b'(', ..] => (Token::Mark(Mark::Opens), 1),
        [b')', ..] => (Token::Mark(Mark::Closes), 1),
        [b',', ..] => (Token::Mark(Mark::Comma), 1),
        [b'.', ..] => (Token::Mark(Mark::Stop), 1),
        _ => return None,
    };
    Some(Spelled { token, length })
}
