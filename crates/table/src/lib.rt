// Reading a table (document 01, "Table, goal and answer bytes"): record by record, each tested in the order
// 16, 17, 18, 21, 19, 20, 22 (crate record_tests); then 23.
#![tactic(auto)]

ghost use Rattle.std.specs.Prelude.{◌≡◌, ◌<◌, ◌^◌};
ghost use Rattle.model.specs.Reading.{ended, reading, read_of};
ghost use Rattle.model.specs.Calls.{check_of};

use model::{Behind, CallResult, Reading, Reason, Refusal, RuleShape, Scan, Table};

// 23: a good end record ends at p.
fn end(table: &[u8], p: usize) -> Result<(), Refusal>
    requires { p < 2 ^ 32 }
    ensures { result ≡ ended table.now p }
{
    if p < table.len() {
        return Err(Refusal::at(Reason::BytesBehind, p));
    }
    Ok(())
}

fn reading(verdict: Result<(), Refusal>, s: Scan, shapes: [RuleShape; Table::RULES]) -> Reading
    ensures { result ≡ reading verdict s.symbols s.rules shapes }
{
    Reading {
        verdict: verdict,
        symbols: s.symbols,
        rules: s.rules,
        shapes: shapes,
    }
}

// The verdict on a table, how many symbols and rules it has, and where its rules stand: up to the first refused record.
pub fn read(table: &[u8]) -> Reading
    ensures { result ≡ read_of table.now }
{
    let mut shapes = [RuleShape::default(); Table::RULES];
    let mut s = Scan::default();
    let mut named = variables::no_marks();
    loop {
        match record_tests::read_record(table, &s, &named) {
            Ok(Behind::Next(next)) => {
                variables::mark(table, s.at, s.shape, next.shape, &mut named);
                s = next;
                if 0 < s.rules {
                    shapes[s.rules as usize - 1] = s.shape;
                }
            }
            Ok(Behind::Done(p)) => {
                return reading(end(table, p), s, shapes);
            }
            Err(refusal) => {
                return reading(Err(refusal), s, shapes);
            }
        }
    }
}

// "Checking a good table gives six zeros."
pub fn check(table: &[u8]) -> CallResult
    ensures { result ≡ check_of table.now }
{
    match read(table).verdict {
        Ok(()) => CallResult::default(),
        Err(refusal) => refusal.into(),
    }
}
