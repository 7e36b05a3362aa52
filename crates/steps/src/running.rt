// The steps of a run.
ghost use Rattle.std.specs.Prelude.{◌≡◌, ◌<◌, ◌≤◌};
ghost use Rattle.model.specs.Limits.{stack_room, greatest_limit};
ghost use Rattle.model.specs.Results.{counts_of};
ghost use Rattle.model.specs.Run.{run, ended_as};
ghost use Rattle.model.specs.Table.{table_of};
ghost use Rattle.step.specs.Outcomes.{Decided};
ghost use Rattle.step.specs.Deciding.{mark_behind};
ghost use Rattle.steps.specs.States.{state_of, Fresh, Finished};

use crate::Run;
use model::{CallResult, Entry};
use step::{Decision, Ending, Firing};

impl Run<'_> {
    // The end of a run, after so many steps.
    // Kept: a number, as in the definition's `ended_as`; an enum of 0, 1 and 2 would be made where it is at once turned into the number.
    fn ended(&self, number: u8, place: u8, steps: u32) -> CallResult
        ensures { result ≡ (ended_as number place (counts_of steps self.now.firings) (state_of self.now)).result }
    {
        CallResult::new(
            number,
            place as u32,
            steps,
            self.firings,
            self.given,
            self.store.len as u32,
        )
    }

    // What the entry comes to that lay on top.
    fn decide(&mut self, e: Entry, firing: &mut Firing) -> Result<Decision, Ending>
        requires { self.old.stack.len < stack_room }
        ensures decided { Decided (table_of self.old.places.rules.table.now) e self.old.stack.len (state_of self.old).store (state_of self.old).history
            firing.new result }
        ensures state { state_of self.new ≡ state_of self.old }
        ensures firings { self.new.firings ≡ self.old.firings }
        ensures len { self.new.stack.len ≡ self.old.stack.len }
        ensures rules { self.new.places.rules ≡ self.old.places.rules }
        ensures mark { self.new.places.mark ≡ mark_behind self.old.places.rules.table.now self.old.places.mark e.symbol e.item }
    {
        let store = self.store.items();
        let past = self.history.items();
        step::deciding::decide(self.stack.len, store, past, &mut self.places, e, firing)
    }

    // At most `limit` steps. "An empty stack is done, tested before the step limit. Otherwise, with steps left, the top entry decides"; "Numbers
    // 1..7 report the state before the untaken step (for 1, after Fail)".
    pub fn steps(&mut self, limit: u32) -> CallResult
        requires { Fresh self.old × (limit ≤ greatest_limit) }
        ensures { Finished (run (table_of self.old.places.rules.table.now) limit (state_of self.old)) self.new result }
    {
        let mut firing = Firing::new();
        for used in 0..limit {
            let Some(e) = self.stack.pop() else {
                return self.ended(0, 0, used);
            };
            match self.decide(e, &mut firing) {
                Ok(Decision::Activate) => self.activate(e),
                Ok(Decision::Drop) => {}
                Ok(Decision::Default(j)) => self.advance(e, j),
                Ok(Decision::Fire(g)) => self.fire(e, g, &firing),
                Ok(Decision::Fail) => return self.ended(1, 0, used + 1),
                Err(ending) => return self.ended(ending.number(), ending.place(), used),
            }
        }
        if self.stack.len == 0 {
            return self.ended(0, 0, limit);
        }
        self.ended(2, 0, limit)
    }
}
