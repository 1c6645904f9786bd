//! A growable list whose capacity is not part of its value.

ghost use Rattle.std.specs.Prelude.{◌≡◌, ◌==◌, ◌<◌, List, [], ◌∷◌, ◌++◌, Some, length, remove};
ghost use Rattle.std.specs.Prelude.{slice_get, OnOk, OnErr, option_to_list};
ghost use Rattle.std.specs.Borrow.{sem};
ghost use Rattle.std.specs.Fn.{CalledAt};
ghost use Rattle.std.specs.List.Retain.{IsFiltered};
ghost use Rattle.stun_types_base.specs.ListLending.{LendsElement, LendsSlice};

use crate::memory::NoMemory;
use std::alloc::Global;
use std::marker::Model;

/// The maximum number of elements in a list.
const MOST: usize = (1 << 32) - 1;

/// A growable list of fewer than 2^32 elements. Contracts see it as the list of its elements, so
/// two lists with equal elements are one value, whatever capacity each has.
#[derive(Debug, Drop)]
pub struct ListOf<T> {
    items: Vec<T>,
}

impl<T> Model for ListOf<T> {
    ghost use Rattle.std.specs.Prelude.{List, ◌<◌, ◌^◌, length};

    ghost Value = { List T };

    ghost view = { λ list. list.items.items };

    ghost invariant = { λ list. length list.items.items < 2 ^ 32 };
}

impl<T> ListOf<T> {
    /// Makes an empty list. It allocates nothing until an element is added.
    pub fn new(alloc: Global) -> Self
        ensures { result ≡ [] }
    {
        ListOf {
            items: Vec::new(alloc),
        }
    }

    /// Returns the number of elements.
    pub fn len(&self) -> usize
        ensures { result ≡ length self.now }
    {
        self.items.len()
    }

    /// Returns the number of elements as a `u32`, in which it always fits.
    pub fn count(&self) -> u32
        ensures { result ≡ length self.now }
    {
        self.items.len() as u32
    }

    /// Returns whether the list is empty.
    pub fn is_empty(&self) -> bool
        ensures { result ≡ (length self.now == 0) }
    {
        self.items.is_empty()
    }

    /// Returns the elements.
    pub fn as_slice(&self) -> &[T]
        ensures { result.now ≡ self.now }
    {
        self.items.as_slice()
    }

    /// Returns a mutable reference to the element at `index`.
    pub fn at_mut(&mut self, index: usize) -> &mut T
        requires { index < length self.old }
        ensures* writes_back { sem 𝓛 (LendsElement T.row self.entry index result) }
        ensures value { slice_get self.old index ≡ Some result.now }
    {
        &mut self.items[index]
    }

    /// Returns the elements as a mutable slice.
    pub fn as_mut_slice(&mut self) -> &mut [T]
        ensures* writes_back { sem 𝓛 (LendsSlice T.row self.entry result) }
        ensures value { result.now ≡ self.old }
    {
        self.items.as_mut_slice()
    }

    /// Removes the last element and returns it, or `None` if the list is empty.
    pub fn pop(&mut self) -> Option<T>
        ensures items { self.old ≡ self.new ++ option_to_list result }
        ensures undone { (xs : List T) (x : T) → self.old ≡ xs ++ x ∷ [] → self.new ≡ xs }
    {
        self.items.pop()
    }

    /// Removes the element at `index` and returns it. The elements after it move up by one.
    pub fn remove(&mut self, index: usize) -> T
        requires { index < length self.old }
        ensures value { slice_get self.old index ≡ Some result }
        ensures others { self.new ≡ remove self.old index }
    {
        self.items.remove(index)
    }
}

impl<T: Drop> ListOf<T> {
    /// Adds an element at the end. Fails with `NoMemory` if the list has 2^32 - 1 elements or an
    /// allocation fails. The list is unchanged then, and `value` is dropped.
    pub fn push(&mut self, value: T) -> Result<(), NoMemory>
        ensures ok { OnOk result (self.new ≡ self.old ++ value ∷ []) }
        ensures err { OnErr result (self.new ≡ self.old) }
    {
        if self.items.len() >= MOST {
            return Err(NoMemory);
        }
        self.items.push(value)?;
        Ok(())
    }

    /// Removes all elements.
    pub fn clear(&mut self)
        ensures { self.new ≡ [] }
    {
        self.items.clear();
    }
    /// Keeps only the elements for which `test` returns `true`, in their order. `test` is called
    /// once for each element.
    pub fn retain<F: FnMut(&T) -> bool>(&mut self, test: F)
        requires { F.IsAlwaysCallable test }
        ensures { IsFiltered (CalledAt F.FnMut) test self.old self.new }
    {
        self.items.retain(test);
    }
}
