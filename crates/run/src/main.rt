// The program *run*: reads a table followed by goal records from the standard input, and runs them. It prints the result and,
// after 0, one line for each fact stored: identifier, symbol, arguments used.
#![tactic(auto)]

use model::{Answer, Goal, Table};
use printing::{Numbers, Stream, put_facts};
use std::fmt::{self, Write};

const STEP_LIMIT: u32 = 1000000;

// The longest good table, and as many goal facts behind it as there may be.
const LONGEST_INPUT: usize = Table::LONGEST + Goal::MAX * Goal::RECORD_LEN;

// "the table ends at its first end record"
fn run_input(out: &mut Stream, input: &[u8]) -> fmt::Result {
    let (table, goal) = input.split_at(run_input::table_end(input));
    let mut answer = [0; Answer::MIN];
    let result = engine::run(table, goal, STEP_LIMIT, &mut answer);
    out.writeln(Numbers(result))?;
    if result.number == 0 {
        if let Some(facts) = answer.get(..Answer::RECORD_LEN * result.stored as usize) {
            put_facts(out, table, facts);
        }
    }
    Ok(())
}

fn run(out: &mut Stream) -> fmt::Result {
    // A byte more than an input may have, so that a longer one is refused as one.
    let mut space = [0; LONGEST_INPUT + 1];
    let n = io::read_full(Stream::INPUT, &mut space);
    if LONGEST_INPUT < n {
        return out.writeln("input too long");
    }
    run_input(out, &space[..n])
}

fn main() {
    let _ = run(&mut Stream::output());
}
