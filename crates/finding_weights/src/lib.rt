// The call that looks for weights with which every rule of a table loses weight. Where each rule has one removed head, it finds weights if there are any: no
// weight is raised further than it must be (`find-complete`). Where a rule has more, it may miss them: it finds none for `a, b <=> a, a`, which
// loses weight with 1 and 2.
#![tactic(auto)]

ghost use Rattle.model.specs.Calls.{verdict_result};
ghost use Rattle.finding_weights.specs.Find.{Gives, find_of};

use model::{CallResult, Reason, Refusal, Table};
use rule_weights::good::GoodTable;

// Searches in an array of its own, so that `weights` is written only with what is found.
fn try_find(table: &[u8], weights: &mut [u8]) -> Result<(), Refusal>
    ensures { Gives (find_of table.now weights.old) (verdict_result result) weights.new }
{
    let reading = table::read(table);
    reading.verdict?;
    let good = GoodTable {
        bytes: table,
        reading: &reading,
    };
    let symbols = usize::from(reading.symbols);
    if weights.len() != symbols {
        return Err(Refusal::at(Reason::WeightCount, 0));
    }
    let mut own = [1; Table::SYMBOLS];
    let own = &mut own[..symbols];
    if let Some(rule) = raises::search(&good, own) {
        return Err(Refusal::at(Reason::HeavyRule, usize::from(rule.0)));
    }
    weights.copy_from_slice(own);
    Ok(())
}

// Looks for weights, one byte a symbol, with which weighing does not refuse the table. They are written where they are found; otherwise the
// buffer keeps its bytes, and the place of 42 is the rule that could not be raised.
pub fn find_weights(table: &[u8], weights: &mut [u8]) -> CallResult
    ensures { Gives (find_of table.now weights.old) result weights.new }
{
    match try_find(table, weights) {
        Ok(()) => CallResult::refusal(0, 0),
        Err(refusal) => refusal.into(),
    }
}
