// What settles most facts before anything is copied for a match.
ghost use Rattle.std.specs.Prelude.{◌≡◌, ◌+◌, ◌≤◌, length};
ghost use Rattle.model.specs.declared.Kind.TheVariants.{KeptHead};
ghost use Rattle.model.specs.Records.{size_of};
ghost use Rattle.model.specs.Slots.{slot_at};
ghost use Rattle.model.specs.Table.{head_at};
ghost use Rattle.matching.specs.Views.{settled_of, passes_of, from_passing, Probing};

use crate::{Asked, Probe};
use model::{Binding, Fact, Stored, Symbol};
use records::geometry::{HeadBytes, SlotBytes};

// The value that an argument must have at the slot at p, where that is known before the match.
#[tactic(auto, unfolding(crate::specs::Views::settled_of, model::specs::Guards::slot_value, model::specs::Slots::slot_at, model::specs::Slots::slot_by))]
fn settled(table: &[u8], p: usize, binding: &Binding) -> Option<i32>
    requires { p + 5 ≤ length table.now }
    ensures { result ≡ settled_of binding.now (slot_at table.now p) }
{
    if table[p] == 0 {
        return None;
    }
    values::expressions::slot_value_at(table, p, binding)
}

// The probe for the head at p: its first slot that is settled.
pub fn probe(table: &[u8], p: usize, binding: &Binding) -> Probe
    requires { p + size_of KeptHead ≤ length table.now }
    ensures { Probing (head_at table.now p) binding.now result }
{
    let symbol = Symbol(table[p + HeadBytes::SYMBOL]);
    for place in 0..Fact::ARGUMENTS {
        let slot = p + HeadBytes::SLOT_0 + SlotBytes::LEN * place;
        if let Some(value) = settled(table, slot, binding) {
            return Probe {
                symbol,
                asked: Some(Asked { place, value }),
            };
        }
    }
    Probe {
        symbol,
        asked: None,
    }
}

// Whether a fact shows what the probe asks.
#[tactic(auto, unfolding(crate::specs::Views::passes_of))]
pub fn passes(probe: &Probe, fact: &Fact) -> bool
    ensures { result ≡ passes_of probe.now fact.now }
{
    if probe.symbol != fact.symbol {
        return false;
    }
    match probe.asked {
        Some(asked) => asked.value == fact.arguments[asked.place],
        None => true,
    }
}

// What is left of the facts from the first one on that passes. A search goes from one to the next by this short loop of its own.
pub fn from_passing<'a>(facts: &'a [Stored], probe: &Probe) -> &'a [Stored]
    ensures { result.now ≡ from_passing probe.now facts.now }
{
    for i in 0..facts.len() {
        if passes(probe, &facts[i].fact) {
            return &facts[i..];
        }
    }
    &[]
}
