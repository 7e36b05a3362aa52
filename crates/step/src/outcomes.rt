// What a decision says: the numbers of an ending, what an instance leaves of the stack and whether it has room.
ghost use Rattle.std.specs.Prelude.{◌≡◌, ◌≤◌};
ghost use Rattle.model.specs.Limits.{stack_room};
ghost use Rattle.step.specs.Outcomes.{ending_number, ending_place, stays, fact_of, room_of};

use crate::{Ending, Instance};
use model::{Entry, Fact, History, Item, Stack};

impl Ending {
    // "Ending: 3 guard undefined, 4 body argument undefined, 5 store full, 6 stack full, 7 history full"
    pub fn number(self) -> u8
        ensures { result ≡ ending_number self }
    {
        match self {
            Ending::UndefinedGuard(_) => 3,
            Ending::UndefinedArgument(_) => 4,
            Ending::FullStore => 5,
            Ending::FullStack(_) => 6,
            Ending::FullHistory(_) => 7,
        }
    }

    // The rule, or 0 where it has none.
    pub fn place(self) -> u8
        ensures { result ≡ ending_place self }
    {
        match self {
            Ending::UndefinedGuard(rule) => rule.0,
            Ending::UndefinedArgument(rule) => rule.0,
            Ending::FullStore => 0,
            Ending::FullStack(rule) => rule.0,
            Ending::FullHistory(rule) => rule.0,
        }
    }
}

impl Instance {
    // Whether the active fact stays on the stack: Simplify, where it is a removed head, has popped its entry.
    pub fn stays(self) -> bool
        ensures { result ≡ stays self }
    {
        self.place.head < self.shape.kept
    }

    // 6 or 7, where stack or history have no room: so deep is the stack under the active fact, and so many firings are in the history.
    pub fn room(self, under: usize, noted: usize) -> Result<(), Ending>
        requires { under ≤ stack_room }
        ensures { result ≡ room_of self under noted }
    {
        let below = if self.stays() { under + 1 } else { under };
        if Stack::CAPACITY < below + self.shape.items as usize {
            return Err(Ending::FullStack(self.place.rule));
        }
        if self.shape.kept == self.shape.heads {
            if History::CAPACITY <= noted {
                return Err(Ending::FullHistory(self.place.rule));
            }
        }
        Ok(())
    }
}

// The fact of a waiting entry.
pub fn fact_of_entry(e: Entry) -> Fact
    ensures { result ≡ fact_of e.item }
{
    match e.item {
        Item::Waiting(fact) => fact,
        _ => Fact::default(),
    }
}
