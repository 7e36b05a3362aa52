// The history: the firings noted. It is lent as a slice of exactly these.
#![tactic(auto)]

ghost use Rattle.std.specs.Prelude.{◌≡◌, ◌≤◌, length, take, get_or};
ghost use Rattle.model.specs.Search.{nobody, fired_of, same_fired, in_history};
ghost use Rattle.model.specs.Steps.{names, pruned};

use model::{FactId, Fired, RuleNumber};

// The identifier at a place, or nobody's where none is chosen.
fn nth(ids: &[FactId], k: usize) -> FactId
    ensures { result ≡ get_or ids.now k nobody }
{
    ids.get(k).copied().unwrap_or(FactId(0))
}

// A firing's entry: the rule, and the identifiers in head order.
#[tactic(auto, unfolding(model::specs::Search::fired_of, model::specs::Search::four))]
pub fn entry(rule: RuleNumber, ids: &[FactId]) -> Fired
    ensures { result ≡ fired_of rule ids.now }
{
    Fired {
        rule,
        ids: [nth(ids, 0), nth(ids, 1), nth(ids, 2), nth(ids, 3)],
    }
}

// Is a firing noted?
pub fn recorded(past: &[Fired], fired: Fired) -> bool
    ensures { result ≡ in_history fired past.now }
{
    past.contains(&fired)
}

// Does an entry name one of the facts that are gone?
pub fn names(fired: &Fired, gone: &[FactId]) -> bool
    ensures { result ≡ names fired.now.ids gone.now }
{
    fired.ids.iter().any(|id| chosen::is_among(*id, gone))
}

// The entries that name a fact that is gone are left out, in place. Gives how many are left.
pub fn prune(past: &mut [Fired], gone: &[FactId]) -> usize
    ensures left { take result past.new ≡ pruned gone.now past.old }
    ensures fewer { result ≤ length past.old }
    ensures long { length past.new ≡ length past.old }
{
    chosen::retain(past, |fired| !names(fired, gone))
}
