// The calls for a C host, thin over the proved library. A slice is C's pointer and length; include/nadhirukh.h declares them.
// Kept: words and lengths go to lent arrays of numbers, as the header declares them.
#![tactic(auto)]

ghost use Rattle.model.specs.Calls.{check_of, run_of, weigh_of};
ghost use Rattle.finding_weights.specs.Find.{find_of};
ghost use Rattle.text_reader.specs.ReadText.{read_text_of};
ghost use Rattle.text_printer.specs.PrintText.{print_text_of};
ghost use Rattle.nadhirukh.specs.Words.{Given, RunGiven, WeighGiven, FindGiven, ReadGiven, PrintGiven};

use model::CallResult;

// The result's words, and its number.
fn give(r: CallResult, res: &mut [u32; CallResult::WORDS]) -> u32
    ensures { Given r res.new result }
{
    *res = [
        r.number,
        r.place,
        r.steps,
        r.firings,
        r.identifiers,
        r.stored,
    ];
    r.number
}

#[unsafe(no_mangle)]
pub extern "C" fn nadhirukh_check(table: &[u8], res: &mut [u32; CallResult::WORDS]) -> u32
    ensures { Given (check_of table.now) res.new result }
{
    give(table::check(table), res)
}

#[unsafe(no_mangle)]
pub extern "C" fn nadhirukh_run(
    table: &[u8],
    goal: &[u8],
    limit: u32,
    answer: &mut [u8],
    res: &mut [u32; CallResult::WORDS],
) -> u32
    ensures { RunGiven (run_of table.now goal.now limit answer.old) answer.new res.new result }
{
    give(engine::run(table, goal, limit, answer), res)
}

#[unsafe(no_mangle)]
pub extern "C" fn nadhirukh_weigh(
    table: &[u8],
    weights: &[u8],
    goal: &[u8],
    res: &mut [u32; CallResult::WORDS],
    bound: &mut [u32; 2],
) -> u32
    ensures { WeighGiven (weigh_of table.now weights.now goal.now) res.new bound.new result }
{
    let w = weighing::weigh(table, weights, goal);
    *bound = [w.weight, w.bound];
    let r = w.result;
    give(r, res)
}

#[unsafe(no_mangle)]
pub extern "C" fn nadhirukh_find_weights(
    table: &[u8],
    weights: &mut [u8],
    res: &mut [u32; CallResult::WORDS],
) -> u32
    ensures { FindGiven (find_of table.now weights.old) weights.new res.new result }
{
    give(finding_weights::find_weights(table, weights), res)
}

#[unsafe(no_mangle)]
pub extern "C" fn nadhirukh_read_text(
    text: &[u8],
    table: &mut [u8],
    res: &mut [u32; CallResult::WORDS],
    length: &mut [u32; 1],
) -> u32
    ensures { ReadGiven (read_text_of text.now table.old) table.new res.new length.new result }
{
    let read = text_reader::read_text(text, table);
    *length = [read.length];
    let r = read.result;
    give(r, res)
}

#[unsafe(no_mangle)]
pub extern "C" fn nadhirukh_print_text(
    table: &[u8],
    text: &mut [u8],
    res: &mut [u32; CallResult::WORDS],
    length: &mut [u32; 1],
) -> u32
    ensures { PrintGiven (print_text_of table.now text.old) text.new res.new length.new result }
{
    let printed = text_printer::print_text(table, text);
    *length = [printed.length];
    let r = printed.result;
    give(r, res)
}
