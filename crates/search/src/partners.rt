// The search itself: the active fact is bound at its place, then the other heads are tried in written order, each with the
// stored facts by rising identifier. The first answer that is not "nothing" wins.
ghost use Rattle.std.specs.Prelude.{◌≡◌, ◌+◌, ◌≤◌, length, take, []};
ghost use Rattle.model.specs.declared.Kind.TheVariants.{KeptHead};
ghost use Rattle.model.specs.Limits.{most_heads};
ghost use Rattle.model.specs.Matching.{bound_if};
ghost use Rattle.model.specs.Records.{size_of};
ghost use Rattle.model.specs.Search.{complete, first_instance};
ghost use Rattle.model.specs.Table.{head_at, rule_of};
ghost use Rattle.search.specs.Views.{candidate_of, found_as, partner_from, sought_of};
ghost use Rattle.search.specs.Views.{Matched, Ready, Sought, Posed, Answered};

use crate::{Quest, Trial};
use matching::{heads, probing};
use model::{Binding, FactId, Rule, Stored};
use records::geometry;

// The head that gets the next partner, from head k on: the active fact has its own.
#[tactic(auto, unfolding(crate::specs::Views::partner_from))]
fn partner_from(k: usize, head: usize) -> usize
    requires { k ≤ most_heads }
    ensures { result ≡ partner_from k head }
{
    if k == head { k + 1 } else { k }
}

impl Quest<'_> {
    // A stored fact as the partner for the head at p: neither the active fact nor one that is chosen, and it matches.
    #[tactic(auto, unfolding(crate::specs::Views::candidate_of, model::specs::Search::may_stand))]
    pub fn candidate(&self, p: usize, s: &Stored, chosen: &[FactId], binding: &mut Binding) -> bool
        requires { p + size_of KeptHead ≤ length self.now.table.now }
        ensures { bound_if result binding.new
            ≡ candidate_of self.now.active (head_at self.now.table.now p) chosen.now binding.old s.now }
    {
        if s.id == self.active {
            return false;
        }
        if chosen::is_among(s.id, chosen) {
            return false;
        }
        heads::match_head(self.table, p, &s.fact, binding)
    }

    // A complete match: passed over if it is in the history, else its guard decides.
    #[tactic(auto, unfolding(crate::specs::Views::found_as, model::specs::Search::complete, model::specs::Table::rule_of))]
    pub fn judge(&self, chosen: &[FactId], binding: &Binding) -> Trial
        requires { Matched self.now }
        ensures { found_as result chosen.now binding.now
            ≡ complete [] self.now.past.now self.now.place (rule_of self.now.table.now self.now.shape)
            self.now.active chosen.now binding.now }
    {
        if history::recorded(self.past, history::entry(self.place.rule, chosen)) {
            return Trial::Nothing;
        }
        let shape = self.shape;
        let guards = geometry::guards_start(shape.start, shape.heads);
        match values::guards::guard_value(self.table, guards, shape.guards, binding) {
            Some(true) => Trial::Applies,
            Some(false) => Trial::Nothing,
            None => Trial::UndefinedGuard,
        }
    }

    // The first answer for the partners that are left, from head `from` on, the facts for those before it being chosen.
    pub fn seek(
        &self,
        left: usize,
        from: usize,
        chosen: &mut [FactId; Rule::HEADS],
        binding: &mut Binding,
    ) -> Trial
        requires { Ready self.now chosen.old left from }
        ensures { Sought (sought_of self.now from (take from chosen.old) binding.old)
            result self.now.shape.heads from chosen.old chosen.new binding.new }
    {
        let head = self.place.head as usize;
        // The active fact keeps its own place.
        chosen[head] = self.active;
        let k = partner_from(from, head);
        if left == 0 {
            return self.judge(&chosen[..k], binding);
        }
        let p = geometry::head_start(self.shape, k);
        let probe = probing::probe(self.table, p, binding);
        let mut rest = self.store;
        while let Some((s, more)) = probing::from_passing(rest, &probe).split_first() {
            rest = more;
            let mut tried = *binding;
            if self.candidate(p, s, &chosen[..k], &mut tried) {
                chosen[k] = s.id;
                let found = self.seek(left - 1, k + 1, chosen, &mut tried);
                if found != Trial::Nothing {
                    *binding = tried;
                    return found;
                }
            }
        }
        Trial::Nothing
    }

    // The first applicable instance at a head place: the active fact is bound there first, then the partners are sought.
    pub fn first_instance(&self, chosen: &mut [FactId; Rule::HEADS], binding: &mut Binding) -> Trial
        requires { Posed self.now binding.old }
        ensures { Answered (first_instance self.now.store.now self.now.past.now self.now.place
            (rule_of self.now.table.now self.now.shape) self.now.active)
            result self.now.shape.heads chosen.new binding.new }
    {
        let Some(fact) = store::stored_fact(self.store, self.active) else {
            return Trial::Nothing;
        };
        let p = geometry::head_start(self.shape, self.place.head as usize);
        if !heads::match_head(self.table, p, &fact, binding) {
            return Trial::Nothing;
        }
        self.seek(self.shape.heads as usize - 1, 0, chosen, binding)
    }
}
