// The store: the facts stored, by rising identifier. It is lent as a slice of exactly these.
#![tactic(auto)]

ghost use Rattle.std.specs.Prelude.{◌≡◌, ◌≤◌, length, take};
ghost use Rattle.model.specs.Search.{stored_fact};
ghost use Rattle.model.specs.Steps.{without};

use model::{Fact, FactId, Stored};

// The fact of an identifier, or none where a firing removed it.
pub fn stored_fact(store: &[Stored], id: FactId) -> Option<Fact>
    ensures { result ≡ stored_fact id store.now }
{
    store.iter().find(|s| s.id == id).map(|s| s.fact)
}

// The facts whose identifiers are among those that are gone leave the store, in place. Gives how many are left.
pub fn leave_out(store: &mut [Stored], gone: &[FactId]) -> usize
    ensures left { take result store.new ≡ without gone.now store.old }
    ensures fewer { result ≤ length store.old }
    ensures long { length store.new ≡ length store.old }
{
    chosen::retain(store, |s| !chosen::is_among(s.id, gone))
}
