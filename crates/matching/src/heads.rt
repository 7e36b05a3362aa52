// Matching a head with a fact. After a match that fails the binding means nothing.
// Kept: true or false beside the lent binding; as an Option<Binding> 128 bytes would go by value at each slot, on the way of every try.
ghost use Rattle.std.specs.Prelude.{◌≡◌, ◌+◌, ◌≤◌, length};
ghost use Rattle.model.specs.declared.Kind.TheVariants.{KeptHead};
ghost use Rattle.model.specs.Records.{size_of};
ghost use Rattle.model.specs.Matching.{bound_if, match_variable, match_slot, match_head};
ghost use Rattle.model.specs.Slots.{slot_at};
ghost use Rattle.model.specs.Table.{head_at};

use model::{Binding, Fact, Rule};
use records::geometry::{HeadBytes, SlotBytes};

// A variable that is bound must have this value; one that is not gets it. No good table has one above 15.
#[tactic(auto, unfolding(model::specs::Matching::match_variable, model::specs::Matching::with_variable))]
pub fn match_variable(v: u8, a: i32, binding: &mut Binding) -> bool
    ensures { bound_if result binding.new ≡ match_variable binding.old v a }
{
    let at = v as usize;
    if Rule::VARIABLES <= at {
        return false;
    }
    match binding.values[at] {
        Some(value) => value == a,
        None => {
            binding.values[at] = Some(a);
            true
        }
    }
}

// The slot at p with an argument.
// Kept: reads the slot's bytes as `slots::slot_at` does; to make its enum first took a tenth of the time of a short run.
#[tactic(auto, unfolding(model::specs::Matching::match_slot, model::specs::Slots::slot_at, model::specs::Slots::slot_by))]
fn match_slot(table: &[u8], p: usize, a: i32, binding: &mut Binding) -> bool
    requires { p + 5 ≤ length table.now }
    ensures { bound_if result binding.new ≡ match_slot (slot_at table.now p) a binding.old }
{
    let value = wire::u32_within(table, p + SlotBytes::VALUE);
    match table[p] {
        0 => value == 0,
        1 => wire::signed(value) == a,
        2 if (value as usize) < Rule::VARIABLES => match_variable(value as u8, a, binding),
        _ => false,
    }
}

// The head at p with a fact.
pub fn match_head(table: &[u8], p: usize, fact: &Fact, binding: &mut Binding) -> bool
    requires { p + size_of KeptHead ≤ length table.now }
    ensures { bound_if result binding.new ≡ match_head (head_at table.now p) fact.now binding.old }
{
    if table[p + HeadBytes::SYMBOL] != fact.symbol.0 {
        return false;
    }
    for k in 0..Fact::ARGUMENTS {
        let slot = p + HeadBytes::SLOT_0 + SlotBytes::LEN * k;
        if !match_slot(table, slot, fact.arguments[k], binding) {
            return false;
        }
    }
    true
}
