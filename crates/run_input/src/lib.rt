// The input of the program *run*: "a table followed by goal records .. the table ends at its first end record".
#![tactic(auto)]

ghost use Rattle.run_input.specs.Input.{EndsAt};

use model::Kind;
use records::kinds;

// Where the table ends. The rest is the goal; without an end record the whole input is the table.
pub fn table_end(input: &[u8]) -> usize
    ensures { EndsAt input.now result }
{
    let mut at = 0;
    while let Some(byte) = input.get(at) {
        let Some(kind) = kinds::kind_of(*byte) else {
            return input.len();
        };
        match kind {
            Kind::EndOfTable => return at + 1,
            _ => at += kinds::size_of(kind),
        }
    }
    input.len()
}
