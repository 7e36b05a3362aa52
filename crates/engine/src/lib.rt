// The engine: from a table's and a goal's bytes to a result and an answer. The state of a run lives in one frame and is changed in place.
#![tactic(auto)]

ghost use Rattle.std.specs.Prelude.{◌≡◌};
ghost use Rattle.model.specs.Calls.{output_of, run_of};
ghost use Rattle.model.specs.Goal.{goal_of};
ghost use Rattle.model.specs.Run.{run};
ghost use Rattle.model.specs.Steps.{start};
ghost use Rattle.model.specs.Table.{table_of};
ghost use Rattle.engine.specs.Called.{Passed, Ran, result_of};

use filled::Filled;
use model::{
    Answer, CallResult, Entry, Fired, History, Reason, Refusal, Stack, StepLimit, Store, Stored,
};
use occurrences::{Places, Rules};
use steps::Run;

// A run whose table, goal, limit and buffer are good. "The answer buffer is written only for 0".
fn run_passed(rules: Rules<'_>, goal: &[u8], limit: u32, answer: &mut [u8]) -> CallResult
    requires { Passed rules.table.now goal.now limit answer.old }
    ensures { Ran (output_of (run (table_of rules.entry.table.now) limit (start (goal_of goal.now))) answer.old) result answer.new }
{
    let mut entries = [Entry::default(); Stack::CAPACITY];
    let mut facts = [Stored::default(); Store::CAPACITY];
    let mut past = [Fired::default(); History::CAPACITY];
    let mut run = Run {
        places: Places::new(rules),
        stack: Filled::new(&mut entries),
        store: Filled::new(&mut facts),
        history: Filled::new(&mut past),
        given: 0,
        firings: 0,
    };
    run.load(goal);
    let result = run.steps(limit);
    if result.number == 0 {
        answer::write_answer(answer, run.store.items());
    }
    result
}

// The tests in their order, and the run where nothing is refused: "A run tests table, goal (32, 34, 33), 35, 36."
fn try_run(table: &[u8], goal: &[u8], limit: u32, answer: &mut [u8]) -> Result<CallResult, Refusal>
    ensures { Ran (run_of table.now goal.now limit answer.old) (result_of result) answer.new }
{
    let reading = table::read(table);
    reading.verdict?;
    goal::check_goal(table, reading.symbols, goal)?;
    if StepLimit::MAX < limit {
        return Err(Refusal::at(Reason::StepLimit, 0));
    }
    if answer.len() < Answer::MIN {
        return Err(Refusal::at(Reason::ShortAnswer, 0));
    }
    let rules = Rules {
        table,
        shapes: &reading.shapes[..reading.rules as usize],
    };
    Ok(run_passed(rules, goal, limit, answer))
}

// Runs a goal over a table with at most `limit` steps.
pub fn run(table: &[u8], goal: &[u8], limit: u32, answer: &mut [u8]) -> CallResult
    ensures { Ran (run_of table.now goal.now limit answer.old) result answer.new }
{
    match try_run(table, goal, limit, answer) {
        Ok(result) => result,
        Err(refusal) => refusal.into(),
    }
}
