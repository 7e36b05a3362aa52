// A list in lent memory: the first places of a slice are in use, and the others have room for more. A struct with an array of its own would be copied
// into a run's frame; this one holds a reference.
#![tactic(auto)]

ghost use Rattle.std.specs.Prelude.{◌≡◌, ◌≤◌, ◌<◌, ◌+◌, ◌-◌, [], ◌∷◌, ◌++◌, IfSome, IfNone, length, take};

#[derive(Drop)]
pub struct Filled<'a, T: Copy> {
    pub places: &'a mut [T],
    pub len: usize,
    ghost fits: { len ≤ length places.now },
}

impl<'a, T: Copy> Filled<'a, T> {
    // An empty one.
    pub fn new(places: &'a mut [T]) -> Filled<'a, T>
        ensures len { result.len ≡ 0 }
        ensures room { length result.places.now ≡ length places.old }
    {
        Filled { places, len: 0 }
    }

    pub fn items(&self) -> &[T]
        ensures { result.now ≡ take self.now.len self.now.places.now }
    {
        &self.places[..self.len]
    }

    pub fn push(&mut self, item: T)
        requires { self.old.len < length self.old.places.now }
        ensures items { take self.new.len self.new.places.now ≡ take self.old.len self.old.places.now ++ item ∷ [] }
        ensures len { self.new.len ≡ self.old.len + 1 }
        ensures room { length self.new.places.now ≡ length self.old.places.now }
    {
        self.places[self.len] = item;
        self.len += 1;
    }

    // The last one, which goes.
    pub fn pop(&mut self) -> Option<T>
        ensures last { IfSome result (λ x. take self.old.len self.old.places.now ≡ take self.new.len self.new.places.now ++ x ∷ []) }
        ensures some { IfSome result (λ _. 0 < self.old.len) }
        ensures none { IfNone result (self.old.len ≡ 0) }
        ensures len { self.new.len ≡ self.old.len - 1 }
        ensures room { length self.new.places.now ≡ length self.old.places.now }
    {
        if self.len == 0 {
            return None;
        }
        self.len -= 1;
        Some(self.places[self.len])
    }

    // Keeps the first ones.
    pub fn truncate(&mut self, len: usize)
        requires { len ≤ self.old.len }
        ensures items { take self.new.len self.new.places.now ≡ take len self.old.places.now }
        ensures len { self.new.len ≡ len }
        ensures room { length self.new.places.now ≡ length self.old.places.now }
    {
        self.len = len;
    }
}
