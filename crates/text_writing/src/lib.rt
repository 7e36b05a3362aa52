// Writing bytes, numbers and the terms of a table as text (document 02, No. 2: "prints any good one as text"). A page is a lent buffer that is written from
// its front. A byte for which there is no room is not written, so that a text is measured as it is written.
#![tactic(auto)]

pub mod terms;

ghost use Rattle.std.specs.Prelude.{◌∷◌, [], ◌+◌, ◌≤◌, length};
ghost use Rattle.text.specs.Printed.{decimal};
ghost use Rattle.text_writing.specs.Written.{longest_text, Put};

// A lent buffer, and the place behind what is written.
#[derive(Drop)]
pub struct Page<'a> {
    pub text: &'a mut [u8],
    pub at: usize,
}

impl Page<'_> {
    pub fn put(&mut self, b: u8)
        requires { self.old.at ≤ longest_text }
        ensures { Put self.old (b ∷ []) 1 self.new }
    {
        if self.at < self.text.len() {
            self.text[self.at] = b;
        }
        self.at += 1;
    }

    // A word, a mark, spaces.
    pub fn put_bytes(&mut self, bytes: &[u8])
        requires { self.old.at + length bytes.now ≤ longest_text }
        ensures { Put self.old bytes.now (length bytes.now) self.new }
    {
        for b in bytes {
            self.put(*b);
        }
    }

    // In decimal: the last digit is found first.
    // Kept: `while`, since the loop goes until one digit is left, and not a count of times.
    pub fn put_decimal(&mut self, n: u32)
        requires { self.old.at + 10 ≤ longest_text }
        ensures { Put self.old (decimal n) 10 self.new }
    {
        let mut digits = [b'0'; 10];
        let mut first = 9;
        let mut rest = n;
        while 10 <= rest {
            digits[first] = b'0' + (rest % 10) as u8;
            first -= 1;
            rest /= 10;
        }
        digits[first] = b'0' + rest as u8;
        self.put_bytes(&digits[first..]);
    }
}
