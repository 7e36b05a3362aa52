// A head against a stored fact: what a fact must show before it is tried, and the match itself.
#![tactic(auto)]

ghost use Rattle.std.specs.Prelude.{◌<◌};

use model::Symbol;

pub mod heads;
pub mod probing;

// What a fact must show before it is tried for a head: its symbol, and one argument where the head has a constant or a variable
// that is bound.
#[derive(Clone, Copy)]
pub struct Probe {
    pub symbol: Symbol,
    pub asked: Option<Asked>,
}

// The value that the argument at a place must have.
#[derive(Clone, Copy)]
pub struct Asked {
    pub place: usize,
    pub value: i32,
    ghost within: { place < 4 },
}
