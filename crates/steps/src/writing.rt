// What a step writes.
ghost use Rattle.std.specs.Prelude.{◌≡◌, ◌+◌, ◌/◌, ◌<◌, ◌≤◌, ◌^◌, ◌++◌, [], ◌∷◌, cond, map, take, length};
ghost use Rattle.model.specs.Limits.{stack_room, store_room, history_room};
ghost use Rattle.model.specs.Goal.{goal_of};
ghost use Rattle.model.specs.Steps.{waiting, activated, without, pruned};
ghost use Rattle.step.specs.Outcomes.{at_occurrence, stays, below, fact_of, fired_as, Fits};
ghost use Rattle.steps.specs.States.{stack_of, state_of, stacked, left_as, Goes};

use crate::Run;
use filled::Filled;
use model::{Entry, FactId, Fired, Goal, Item, Occurrence, Stored};
use step::{Firing, Instance, outcomes};

// The facts that are gone leave the store.
fn leave_out(store: &mut Filled<'_, Stored>, gone: &[FactId])
    ensures facts { take store.new.len store.new.places.now ≡ without gone.now (take store.old.len store.old.places.now) }
    ensures room { length store.new.places.now ≡ length store.old.places.now }
{
    let facts = &mut *store.places;
    let stays = store::leave_out(&mut facts[..store.len], gone);
    store.truncate(stays);
}

// The history forgets the firings that name them.
fn prune(history: &mut Filled<'_, Fired>, gone: &[FactId])
    ensures firings { take history.new.len history.new.places.now ≡ pruned gone.now (take history.old.len history.old.places.now) }
    ensures room { length history.new.places.now ≡ length history.old.places.now }
{
    let firings = &mut *history.places;
    let stays = history::prune(&mut firings[..history.len], gone);
    history.truncate(stays);
}

impl Run<'_> {
    // "The goal's facts start as waiting entries, the first on top."
    pub fn load(&mut self, goal: &[u8])
        requires { self.old.stack.len + length goal.now / 18 ≤ stack_room }
        ensures { Goes self.old self.new (stacked (state_of self.old) (map waiting (goal_of goal.now) ++ stack_of self.old)) self.old.firings }
    {
        for i in (0..goal.len() / Goal::RECORD_LEN).rev() {
            let fact = goal::goal_fact(goal, Goal::RECORD_LEN * i);
            self.stack.push(Entry {
                symbol: fact.symbol,
                item: Item::Waiting(fact),
            });
        }
    }

    // "a waiting fact gets the next identifier, enters the store and becomes active at occurrence 1"
    pub fn activate(&mut self, e: Entry)
        requires { (self.old.stack.len < stack_room) × (self.old.store.len < store_room) × (self.old.given + 1 < 2 ^ 32) }
        ensures { Goes self.old self.new (activated (state_of self.old) e (stack_of self.old) (fact_of e.item)) self.old.firings }
    {
        self.given += 1;
        let id = FactId(self.given);
        let fact = outcomes::fact_of_entry(e);
        self.store.push(Stored { id, fact });
        self.stack.push(Entry {
            symbol: e.symbol,
            item: Item::Active(id, Occurrence(1)),
        });
    }

    // The active fact goes on to an occurrence.
    pub fn advance(&mut self, e: Entry, j: Occurrence)
        requires { self.old.stack.len < stack_room }
        ensures { Goes self.old self.new (stacked (state_of self.old) (at_occurrence e j ∷ stack_of self.old)) self.old.firings }
    {
        match e.item {
            Item::Active(id, _) => self.stack.push(Entry {
                symbol: e.symbol,
                item: Item::Active(id, j),
            }),
            _ => self.stack.push(e),
        }
    }

    // The items of a body go on the stack, the first on top.
    fn push_body(&mut self, body: &[Entry])
        requires { self.old.stack.len + length body.now ≤ stack_room }
        ensures { Goes self.old self.new (stacked (state_of self.old) (body.now ++ stack_of self.old)) self.old.firings }
    {
        for i in (0..body.len()).rev() {
            self.stack.push(body[i]);
        }
    }

    // "All its removed heads leave the store", and the history forgets what names them; a firing of a rule without any is noted.
    fn leave(&mut self, g: Instance, chosen: &[FactId])
        requires { (g.shape.kept ≤ g.shape.heads) × (g.shape.heads ≡ length chosen.now)
            × (g.shape.kept ≡ g.shape.heads → self.old.history.len < history_room) }
        ensures { Goes self.old self.new (left_as (state_of self.old) g chosen.now) self.old.firings }
    {
        let kept = g.shape.kept as usize;
        if kept == chosen.len() {
            self.history.push(history::entry(g.place.rule, chosen));
        } else {
            let gone = &chosen[kept..];
            leave_out(&mut self.store, gone);
            prune(&mut self.history, gone);
        }
    }

    // The active fact's entry goes back on the stack, where the fact is at a kept head.
    fn keep(&mut self, e: Entry, g: Instance)
        requires { below g self.old.stack.len ≤ stack_room }
        ensures goes { Goes self.old self.new (stacked (state_of self.old) (cond (stays g) (e ∷ stack_of self.old) (stack_of self.old))) self.old.firings }
        ensures deep { self.new.stack.len ≡ below g self.old.stack.len }
    {
        if g.stays() {
            self.stack.push(e);
        }
    }

    // Simplify or Propagate: the body goes on the stack, over the active fact's entry where that stays.
    pub fn fire(&mut self, e: Entry, g: Instance, firing: &Firing)
        requires { Fits g self.old.stack.len self.old.history.len × (self.old.firings + 1 < 2 ^ 32) }
        ensures { Goes self.old self.new (fired_as (state_of self.old) e (stack_of self.old) g (take g.shape.heads firing.now.chosen)
            (take g.shape.items firing.now.body)) (self.old.firings + 1) }
    {
        self.keep(e, g);
        self.push_body(&firing.body[..g.shape.items as usize]);
        self.leave(g, &firing.chosen[..g.shape.heads as usize]);
        self.firings += 1;
    }
}
