// A run: its state, as the definition has it, and its steps.
#![tactic(auto)]

ghost use Rattle.std.specs.Prelude.{◌≡◌, length};
ghost use Rattle.model.specs.Limits.{stack_room, store_room, history_room};

use filled::Filled;
use model::{Entry, Fired, Stored};
use occurrences::Places;

pub mod running;
pub mod writing;

// "A state is a stack, a store, a history and the next identifier". The stack's top comes last.
#[derive(Drop)]
pub struct Run<'a> {
    pub places: Places<'a>,
    pub stack: Filled<'a, Entry>,
    pub store: Filled<'a, Stored>,
    pub history: Filled<'a, Fired>,
    // how many identifiers are given, and how many firings there were
    pub given: u32,
    pub firings: u32,
    ghost stack_room: { length stack.places.now ≡ stack_room },
    ghost store_room: { length store.places.now ≡ store_room },
    ghost history_room: { length history.places.now ≡ history_room },
}
