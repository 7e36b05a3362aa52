// Printing a table as text (document 02, No. 2): "A printer refuses bad tables as document 01 does and prints any good one as text". The text is measured
// before it is written, by the same functions, so that a refused call writes nothing.
#![tactic(auto)]

pub mod sections;

ghost use Rattle.std.specs.Prelude.{length};
ghost use Rattle.grammar.specs.Layout.{tree_of};
ghost use Rattle.rule_weights.specs.Views.{Known, Counted};
ghost use Rattle.text.specs.Printed.{printed};
ghost use Rattle.text_writing.specs.Written.{longest_text};
ghost use Rattle.text_printer.specs.PrintText.{print_text_of, printing_of, Prints};

use model::{CallResult, Reading, Reason, Refusal};

// A printing: its result, and how many bytes were written.
#[derive(Clone, Copy)]
pub struct Printing {
    pub result: CallResult,
    pub length: u32,
}

// How long the text is: a buffer of one byte has no room for it, and counts all the same.
fn text_length(table: &[u8], reading: &Reading) -> usize
    requires { Known table.now reading.now }
    ensures { Counted (length (printed (tree_of table.now))) longest_text result }
{
    sections::put_table(table, reading, &mut [0u8; 1])
}

// Prints a table into a lent buffer, and says how many bytes were written. 51: "no room for the table or text".
fn print(table: &[u8], text: &mut [u8]) -> Result<u32, Refusal>
    ensures { Prints (print_text_of table.now text.old) (printing_of result) text.new }
{
    let reading = table::read(table);
    reading.verdict?;
    let long = text_length(table, &reading);
    if text.len() < long {
        return Err(Refusal::at(Reason::NoRoom, 0));
    }
    sections::put_table(table, &reading, text);
    Ok(long as u32)
}

// Prints a table into a lent buffer: the result, and how many bytes were written.
pub fn print_text(table: &[u8], text: &mut [u8]) -> Printing
    ensures { Prints (print_text_of table.now text.old) result text.new }
{
    match print(table, text) {
        Ok(length) => Printing {
            result: CallResult::refusal(0, 0),
            length,
        },
        Err(refusal) => Printing {
            result: refusal.into(),
            length: 0,
        },
    }
}
