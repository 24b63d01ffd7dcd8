//! Lists whose memory is taken once.

ghost use Rattle.std.specs.Prelude.{◌≡◌, ◌+◌, ◌<◌, ◌≤◌, [], ◌∷◌, ◌++◌, length, remove, slice_get, Some, IfOk};

use qc_types::NoMemory;
use std::alloc::Global;
use std::marker::Model;

/// A list with room for a number of items that is taken once. Contracts see the items, and the room for more.
#[derive(Drop)]
pub struct ReservedList<T> {
    held: Vec<T>,
}

impl<T> Model for ReservedList<T> {
    ghost use Rattle.std.specs.Prelude.{◌-◌, vec_len, vec_capacity};
    ghost use Rattle.qc_core.specs.ListRoom.{Reserved};

    ghost Value = { Reserved T };

    ghost view = { λ l. record { items = l.held.items; room = vec_capacity l.held - vec_len l.held } };
}

impl<T: Drop> ReservedList<T> {
    /// No items, and room for so many. Fails where memory lacks; no other call takes any.
    pub(crate) fn new(alloc: Global, room: u32) -> Result<ReservedList<T>, NoMemory>
        ensures { IfOk result (λ l. l ≡ record { items = []; room = room }) }
    {
        Ok(ReservedList {
            held: Vec::with_capacity(alloc, room as usize)?,
        })
    }

    /// The items, in their order.
    pub(crate) fn items(&self) -> &[T]
        ensures { result.now ≡ self.now.items }
    {
        self.held.as_slice()
    }

    /// Puts an item at the end.
    pub(crate) fn push(&mut self, item: T)
        requires { 0 < self.old.room }
        ensures items { self.new.items ≡ self.old.items ++ item ∷ [] }
        ensures room { self.old.room ≡ self.new.room + 1 }
    {
        self.held.push_reserved(item);
    }

    /// Takes the item with an index out, and moves those behind it up.
    pub(crate) fn remove(&mut self, index: usize) -> T
        requires { index < length self.old.items }
        ensures item { slice_get self.old.items index ≡ Some result }
        ensures items { self.new.items ≡ remove self.old.items index }
        ensures room { self.new.room ≡ self.old.room + 1 }
    {
        self.held.remove(index)
    }
}
