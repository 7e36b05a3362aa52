// Identifiers among others, and what stays of a list where some are gone.
#![tactic(auto)]

ghost use Rattle.std.specs.Prelude.{◌≡◌, ◌≤◌, length, take, Bool};
ghost use Rattle.model.specs.Search.{is_among};
ghost use Rattle.model.specs.Steps.{keep};

use model::FactId;

// Is an identifier among these?
pub fn is_among(id: FactId, ids: &[FactId]) -> bool
    ensures { result ≡ is_among id ids.now }
{
    ids.iter().any(|other| *other == id)
}

// What stays of a list goes to its front, in order. Gives how many those are.
pub fn retain<T: Copy, F: Fn(&T) -> bool>(items: &mut [T], stays: F) -> usize
    requires { F.IsAlwaysCallable stays }
    ensures kept { (test : T → Bool) → ((x : _) (r : Bool) → F.post stays x r → r ≡ test x.now)
        → take result items.new ≡ keep test items.old }
    ensures fewer { result ≤ length items.old }
    ensures long { length items.new ≡ length items.old }
{
    let mut kept = 0;
    for i in 0..items.len() {
        if stays(&items[i]) {
            // Until one is left out, each is where it belongs.
            if kept < i {
                items[kept] = items[i];
            }
            kept += 1;
        }
    }
    kept
}
