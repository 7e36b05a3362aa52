// What the top entry comes to.
ghost use Rattle.std.specs.Prelude.{◌≡◌, ◌<◌, ◌≤◌, length};
ghost use Rattle.model.specs.Limits.{stack_room, store_room, history_room};
ghost use Rattle.model.specs.Table.{table_of};
ghost use Rattle.step.specs.Outcomes.{no_firing, Decided};
ghost use Rattle.step.specs.Deciding.{Applying, Applied, Tried, Attempted, mark_behind};

use crate::{Decision, Ending, Firing, Instance};
use model::{Binding, Entry, FactId, Fired, Item, Occurrence, Rule, Store, Stored};
use occurrences::Places;
use records::geometry;
use search::{Quest, Trial};
use values::bodies;

impl Firing {
    // Nothing is chosen, bound or made yet.
    pub fn new() -> Firing
        ensures { result ≡ no_firing }
    {
        Firing {
            chosen: [FactId(0); Rule::HEADS],
            binding: Binding::unbound(),
            body: [Entry::default(); Rule::ITEMS],
        }
    }

    // An instance that applies: its whole body is worked out, then stack and history are asked for room. "Within a firing the order is 3, 4, 6, 7".
    fn apply(&mut self, quest: Quest<'_>, under: usize) -> Result<Instance, Ending>
        requires { Applying quest.table.now quest.shape under }
        ensures { Applied quest.entry under self.old self.new result }
    {
        let Quest {
            table,
            place,
            shape,
            ..
        } = quest;
        let start = geometry::items_start(shape);
        let items = shape.items as usize;
        bodies::work_out(table, start, items, &self.binding, &mut self.body).ok_or(
            Ending::UndefinedArgument(place.rule),
        )?;
        let instance = Instance { place, shape };
        instance.room(under, quest.past.len())?;
        Ok(instance)
    }

    // An active fact at an occurrence that exists: Default, a firing, or an ending 3, 4, 6 or 7 without a step.
    fn attempt(
        &mut self,
        quest: Quest<'_>,
        under: usize,
        next: Occurrence,
    ) -> Result<Decision, Ending>
        requires { Tried quest under }
        ensures { Attempted quest.entry under next self.new result }
    {
        // Nothing is chosen or bound yet.
        self.chosen = [FactId(0); Rule::HEADS];
        self.binding = Binding::unbound();
        match quest.first_instance(&mut self.chosen, &mut self.binding) {
            Trial::Nothing => Ok(Decision::Default(next)),
            Trial::UndefinedGuard => Err(Ending::UndefinedGuard(quest.place.rule)),
            Trial::Applies => Ok(Decision::Fire(self.apply(quest, under)?)),
        }
    }
}

// "the top entry decides": e, which lay over so many others; with the facts stored, and the firings noted.
pub fn decide(
    under: usize,
    store: &[Stored],
    past: &[Fired],
    places: &mut Places<'_>,
    e: Entry,
    firing: &mut Firing,
) -> Result<Decision, Ending>
    requires { (under < stack_room) × ((length store.now ≤ store_room) × (length past.now ≤ history_room)) }
    ensures decided { Decided (table_of places.old.rules.table.now) e under store.now past.now firing.new result }
    ensures rules { places.new.rules ≡ places.old.rules }
    ensures mark { places.new.mark ≡ mark_behind places.old.rules.table.now places.old.mark e.symbol e.item }
{
    match e.item {
        Item::Waiting(_) => {
            if store.len() < Store::CAPACITY {
                Ok(Decision::Activate)
            } else {
                Err(Ending::FullStore)
            }
        }
        Item::Active(active, j) => match places.place_of(e.symbol, j) {
            None => Ok(Decision::Drop),
            Some(place) => {
                let quest = Quest {
                    table: places.rules.table,
                    store,
                    past,
                    place,
                    shape: places.rules.shapes[place.rule.0 as usize],
                    active,
                };
                firing.attempt(quest, under, Occurrence(j.0 + 1))
            }
        },
        Item::Fail => Ok(Decision::Fail),
    }
}
