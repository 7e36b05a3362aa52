// Which bytes are blanks, and letters or digits.
ghost use Rattle.std.specs.Prelude.{◌≡◌};
ghost use Rattle.text.specs.Spelling.{is_blank, is_word_byte};

// A space, a line feed, a carriage return.
#[tactic(auto, unfolding(text::specs::Spelling::is_blank))]
pub fn is_blank(b: u8) -> bool
    ensures { result ≡ is_blank b }
{
    matches!(b, b' ' | b'\n' | b'\r')
}

// A letter or a digit.
#[tactic(auto, unfolding(text::specs::Spelling::is_word_byte))]
pub fn is_word_byte(b: u8) -> bool
    ensures { result ≡ is_word_byte b }
{
    b.is_ascii_alphanumeric()
}
