// The answer's bytes: "kind 17 records by rising identifier, then bytes as they were".
#![tactic(auto)]

ghost use Rattle.std.specs.Prelude.{◌≡◌, ◌*◌, ◌≤◌, length};
ghost use Rattle.model.specs.Answer.{stored_bytes, answered};

use model::{Answer, Stored};

// "stored fact: identifier (4), symbol, four arguments"
fn write_fact(bytes: &mut [u8], stored: &Stored)
    requires { length bytes.old ≡ 22 }
    ensures { bytes.new ≡ stored_bytes stored.now }
{
    bytes[0] = 17;
    wire::write_u32(bytes, 1, stored.id.0);
    bytes[5] = stored.fact.symbol.0;
    for (k, argument) in stored.fact.arguments.iter().enumerate() {
        wire::write_i32(bytes, 6 + 4 * k, *argument);
    }
}

// The records of the facts, one behind the other; what lies behind them is kept.
pub fn write_answer(answer: &mut [u8], facts: &[Stored])
    requires { 22 * length facts.now ≤ length answer.old }
    ensures { answer.new ≡ answered facts.now answer.old }
{
    // Kept: of chunks_exact_mut a proof knows no more than the slice's length once the loan is over.
    for (i, stored) in facts.iter().enumerate() {
        let at = Answer::RECORD_LEN * i;
        write_fact(&mut answer[at..at + Answer::RECORD_LEN], stored);
    }
}
