// Reading rules as text into a table's bytes (document 02, No. 2; specs/ReadText.antt).
#![tactic(auto)]

ghost use Rattle.std.specs.Prelude.{◌≡◌, length};
ghost use Rattle.text_reader.specs.ReadText.{read_text_of};
ghost use Rattle.text_reader.specs.Passing.{RoomGiven, TextIs, TextGiven};

use model::{CallResult, Reason, Refusal, Table};
use records::geometry::FactBytes;

mod lexing;
mod passing;

// The result, and how many bytes of the table were written.
// Kept: a type of its own beside `Printing`, since `read_text` and `print_text` keep what they return.
#[derive(Clone, Copy)]
pub struct TextRead {
    pub result: CallResult,
    pub length: u32,
}

// "Text is at most 65,536 bytes."
pub const LONGEST_TEXT: usize = 65536;

// The longest good table and one record more: the check of a table looks at no byte behind these.
const ROOM: usize = Table::LONGEST + FactBytes::LEN;

// A text that stands for a table of n bytes: 51, the check of the table, and only then is it written.
fn give(assembled: &[u8], n: usize, table: &mut [u8]) -> Result<u32, Refusal>
    requires { length assembled.now ≡ 23727 }
    ensures { RoomGiven assembled.now n table.old result table.new }
{
    if table.len() < n {
        return Err(Refusal::at(Reason::NoRoom, 0));
    }
    let front = &assembled[..n.min(ROOM)];
    table::read(front).verdict?;
    table[..front.len()].copy_from_slice(front);
    Ok(front.len() as u32)
}

// How many bytes of the table were written.
fn read(text: &[u8], table: &mut [u8]) -> Result<u32, Refusal>
    ensures { TextIs (read_text_of text.now table.old) result table.new }
{
    if LONGEST_TEXT < text.len() {
        return Err(Refusal::at(Reason::LongText, 0));
    }
    let mut assembled = [0; ROOM];
    let length = passing::pass(text, &mut assembled)?;
    give(&assembled, length, table)
}

// Reads a text into the bytes of the table that it stands for. On a refusal nothing is written.
pub fn read_text(text: &[u8], table: &mut [u8]) -> TextRead
    ensures { TextGiven (read_text_of text.now table.old) result table.new }
{
    match read(text, table) {
        Ok(length) => TextRead {
            result: CallResult::refusal(0, 0),
            length,
        },
        Err(refusal) => TextRead {
            result: refusal.into(),
            length: 0,
        },
    }
}
