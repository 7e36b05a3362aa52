// What the programs print: a result's numbers, bytes in hexadecimal, the facts of an answer. What a call of C's writes no contract can say, so these have
// none: each is proved safe and ending.
#![tactic(auto)]

ghost use Rattle.std.specs.Prelude.{◌≡◌, pos};

use model::{Answer, CallResult, Symbol};
use records::geometry;
use std::fmt::{self, Write};

// A stream that a program begins with, as a writer of text. A write that fails is passed over, and the next one is tried.
#[derive(Clone, Copy)]
pub struct Stream(i32);

impl Stream {
    // The stream that a program reads.
    pub const INPUT: i32 = 0;

    pub fn output() -> Stream
        ensures { result.0 ≡ pos 1 }
    {
        Stream(1)
    }

    pub fn error() -> Stream
        ensures { result.0 ≡ pos 2 }
    {
        Stream(2)
    }

    // Bytes, as they are.
    pub fn put_bytes(self, bytes: &[u8]) {
        io::write_all(self.0, bytes);
    }
}

impl fmt::Write for Stream {
    fn write_str(&mut self, text: &str) -> fmt::Result {
        self.put_bytes(text.as_bytes());
        Ok(())
    }
}

// "number, place, steps, firings, identifiers given, facts stored", parted by single spaces.
#[derive(Clone, Copy)]
pub struct Numbers(pub CallResult);

impl fmt::Display for Numbers {
    fn fmt<W: fmt::Write>(&self, f: &mut fmt::Formatter<W>) -> fmt::Result {
        let r = self.0;
        write!(
            f,
            "{} {} {} {} {} {}",
            r.number, r.place, r.steps, r.firings, r.identifiers, r.stored
        )
    }
}

// Two digits a byte. Up to eight bytes are one number, since each write goes to the system by itself.
#[derive(Clone, Copy)]
pub struct Hex<'a>(pub &'a [u8]);

impl fmt::Display for Hex<'_> {
    fn fmt<W: fmt::Write>(&self, f: &mut fmt::Formatter<W>) -> fmt::Result {
        for bytes in self.0.chunks(8) {
            let mut number: u64 = 0;
            for byte in bytes {
                number = number << 8 | u64::from(*byte);
            }
            write!(f, "{number:0width$x}", width = 2 * bytes.len())?;
        }
        Ok(())
    }
}

// A stored fact of an answer: identifier, symbol, arguments used. The table has the symbol's arity.
#[derive(Clone, Copy)]
struct StoredFact<'a> {
    table: &'a [u8],
    record: &'a [u8],
}

impl fmt::Display for StoredFact<'_> {
    fn fmt<W: fmt::Write>(&self, f: &mut fmt::Formatter<W>) -> fmt::Result {
        let id = wire::read_u32(self.record, 1);
        let symbol = wire::byte(self.record, 5);
        write!(f, "{id} {symbol}")?;
        for k in 0..geometry::arity_at(self.table, Symbol(symbol)) as usize {
            let argument = wire::read_i32(self.record, 6 + 4 * k);
            write!(f, " {argument}")?;
        }
        Ok(())
    }
}

// The stored facts of an answer, a line each.
pub fn put_facts(out: &mut Stream, table: &[u8], facts: &[u8]) {
    for record in facts.chunks_exact(Answer::RECORD_LEN) {
        let _ = out.writeln(StoredFact { table, record });
    }
}

// The number and the place of a refusal, on the standard error.
pub fn put_refusal(r: CallResult) {
    let _ = writeln!(Stream::error(), "{} {}", r.number, r.place);
}
