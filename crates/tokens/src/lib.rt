// The token at the front of a text's bytes.
#![tactic(auto)]

ghost use Rattle.std.specs.Prelude.{◌≡◌, ◌≤◌, IfSome, length};
ghost use Rattle.text.specs.Token.{is_slot};
ghost use Rattle.text.specs.Spelling.{token_at};
ghost use Rattle.tokens.specs.Views.{token_of, found_of};

pub mod bytes;
pub mod numerals;
pub mod signs;
pub mod words;

#[derive(Clone, Copy, PartialEq, Eq)]
pub enum Mark {
    Backslash,
    Simplifies,
    Propagates,
    Bar,
    Opens,
    Closes,
    Comma,
    Stop,
    True,
    Fail,
}

// Comparators and operations have the numbers of a table.
#[derive(Clone, Copy, PartialEq, Eq)]
pub enum Comparator {
    Equal = 0,
    Unequal = 1,
    Less = 2,
    AtMost = 3,
    Greater = 4,
    AtLeast = 5,
}

#[derive(Clone, Copy, PartialEq, Eq)]
pub enum Operation {
    Sum = 1,
    Difference = 2,
    Product = 3,
    Quotient = 4,
    Remainder = 5,
}

#[derive(Clone, Copy)]
pub enum Token {
    Symbol(u8),
    Variable(u8),
    Constant(i32),
    Compares(Comparator),
    Operates(Operation),
    Mark(Mark),
}

// A token, and how many bytes spell it.
#[derive(Clone, Copy)]
pub struct Spelled {
    pub token: Token,
    pub length: usize,
}

// Whether a token is a constant or a variable.
pub fn is_slot(t: Token) -> bool
    ensures { result ≡ is_slot (token_of t) }
{
    matches!(t, Token::Variable(_) | Token::Constant(_))
}

// The token at the front; `after` says whether the token before it is a constant or a variable.
// Behind these a minus is an operation. Inlined into the loops over tokens, as `word` and `sign_of` are into it.
#[inline(always)]
#[tactic(auto, using(crate::proofs::Finds::first_byte))]
pub fn token_at(rest: &[u8], after: bool) -> Option<Spelled>
    ensures same { found_of result ≡ token_at after rest.now }
    ensures within { IfSome result (λ s. (1 ≤ s.length) × (s.length ≤ length rest.now)) }
{
    match rest {
        [first, ..] if bytes::is_word_byte(*first) => words::word(rest),
        [b'-', digits @ ..] if !after => numerals::negated(digits),
        _ => signs::sign_of(rest),
    }
}
