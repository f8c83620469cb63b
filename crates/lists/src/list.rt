ghost use Rattle.std.specs.Prelude.{◌≤◌, length};

mod methods;

// The refusal of a push: every slot holds an item.
#[derive(Clone, Copy, Debug, PartialEq, Eq)]
pub struct Full;

// A list in memory that the caller lends. The items are the first `len` of the slots;
// what the other slots hold does not matter. No `Vec`: the project works in fixed memory, with no heap.
#[derive(Drop)]
pub struct BoundedList<'a, T> {
    slots: &'a mut [T],
    len: usize,
    ghost ok: { len ≤ length slots.now },
}
