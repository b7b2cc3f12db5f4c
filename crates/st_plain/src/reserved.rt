//! A list whose room is taken when it is made, so that nothing that is put into it takes memory.
ghost use Rattle.std.specs.Prelude.{◌≡◌, ◌<◌, ◌≤◌, ◌↔◌, ◌++◌, ◌∷◌, [], length, IfOk, IsSome, option_to_list, slice_set, vec_capacity};

use std::alloc::{AllocError, Global};

/// A list with room for so many items.
#[derive(Drop)]
pub struct Reserved<T> {
    pub(crate) items: Vec<T>,
    pub(crate) most: usize,
    ghost room: { most ≤ vec_capacity items },
    ghost few: { length items.items ≤ most },
}

impl<T: Drop + Copy> Reserved<T> {
    /// An empty list with room for so many items.
    pub(crate) fn open(alloc: Global, most: usize) -> Result<Reserved<T>, AllocError>
        ensures items { IfOk result (λ list. list.items.items ≡ []) }
        ensures most { IfOk result (λ list. list.most ≡ most) }
    {
        let items = Vec::with_capacity(alloc, most)?;
        Ok(Reserved { items, most })
    }

    /// Puts an item at the end.
    pub(crate) fn push(&mut self, item: T)
        requires { length self.old.items.items < self.old.most }
        ensures items { self.new.items.items ≡ self.old.items.items ++ item ∷ [] }
        ensures most { self.new.most ≡ self.old.most }
    {
        let Ok(()) = self.items.push(item) else {
            unreachable!()
        };
    }

    /// Puts an item in the place of another.
    pub(crate) fn set(&mut self, at: usize, item: T)
        requires { at < length self.old.items.items }
        ensures items { self.new.items.items ≡ slice_set self.old.items.items at item }
        ensures most { self.new.most ≡ self.old.most }
    {
        self.items[at] = item;
    }

    /// Takes the last item out; `None` exactly where there is none.
    pub(crate) fn pop(&mut self) -> Option<T>
        ensures items { self.old.items.items ≡ self.new.items.items ++ option_to_list result }
        ensures some { IsSome result ↔ (0 < length self.old.items.items) }
        ensures most { self.new.most ≡ self.old.most }
    {
        self.items.pop()
    }
}
