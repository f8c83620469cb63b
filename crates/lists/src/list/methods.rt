ghost use Rattle.std.specs.Prelude.{◌≡◌, ◌<◌, List, [], ◌∷◌, ◌++◌, length, MatchResult};
ghost use Rattle.lists.specs.Items.{items, room};
ghost use Rattle.std.specs.List.{slice_get};

use super::{BoundedList, Full};

impl<'a, T: Copy> BoundedList<'a, T> {
    // An empty list, whatever the slots hold, with room for one item in each slot.
    pub fn new(slots: &'a mut [T]) -> BoundedList<'a, T>
        ensures empty { items result ≡ [] }
        ensures room { room result ≡ length slots.old }
    {
        BoundedList { slots, len: 0 }
    }

    // How many items there are.
    pub fn len(&self) -> usize
        ensures { result ≡ length (items self.now) }
    {
        self.as_slice().len()
    }

    // Adds `x` as the last item. Refused exactly when the items fill the room; then nothing changes.
    pub fn push(&mut self, x: T) -> Result<(), Full>
        ensures items { MatchResult result
            (λ _. items self.new ≡ items self.old ++ x ∷ [])
            (λ _. items self.new ≡ items self.old) }
        ensures refused { MatchResult result
            (λ _. length (items self.old) < room self.old)
            (λ _. length (items self.old) ≡ room self.old) }
        ensures room { room self.new ≡ room self.old }
    {
        // `get_mut` was tried, and the proof did not close: after it no item is known.
        if self.len >= self.slots.len() {
            return Err(Full);
        }
        self.slots[self.len] = x;
        self.len += 1;
        Ok(())
    }

    // The item at place `i`, counted from 0, and `None` past the last.
    pub fn get(&self, i: usize) -> Option<T>
        ensures { result ≡ slice_get (items self.now) i }
    {
        self.as_slice().get(i).copied()
    }

    // The items, first to last.
    pub fn as_slice(&self) -> &[T]
        ensures { result.now ≡ items self.now }
    {
        &self.slots[..self.len]
    }
}
