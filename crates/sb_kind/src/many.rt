//! A list that a type which leads back to itself can hold; elsewhere `sb_laws::Items` is the same.
ghost use Rattle.std.specs.Prelude.{◌≡◌, [], length};

use std::alloc::Global;
use std::marker::Model;

/// A `Vec` inside a type that leads back to itself. Contracts see the list of its elements, without its room.
#[derive(Drop)]
pub struct Many<T> {
    items: Vec<T>,
}

impl<T> Model for Many<T> {
    ghost use Rattle.std.specs.Prelude.{List};
    ghost use Rattle.std.specs.Coded.{coded_list};

    ghost Value = { List T };

    ghost coded = { coded_list T.code };

    ghost view = { λ many. many.items.items };
}

impl<T> Many<T> {
    /// The elements of the `Vec`, in its room.
    pub fn from_vec(items: Vec<T>) -> Many<T>
        ensures { result ≡ items.items }
    {
        Many { items }
    }

    /// The `Vec` that holds the elements, with its room. No memory is taken.
    pub fn into_vec(self) -> Vec<T>
        ensures { result.items ≡ self }
    {
        let Many { items } = self;
        items
    }

    /// Takes the elements out, in their room, and leaves none. No memory is taken.
    pub fn take(&mut self) -> Vec<T>
        ensures items { result.items ≡ self.old }
        ensures none { self.new ≡ [] }
    {
        let alloc = *self.items.allocator();
        std::mem::replace(&mut self.items, Vec::new(alloc))
    }

    /// The elements, lent.
    pub fn as_slice(&self) -> &[T]
        ensures { result.now ≡ self.now }
    {
        self.items.as_slice()
    }

    /// The number of elements.
    pub fn len(&self) -> usize
        ensures { result ≡ length self.now }
    {
        self.items.len()
    }
}
