//! A queue: first in, first out, except that `push_front` puts an element before all others.

ghost use Rattle.std.specs.Prelude.{◌≡◌, ◌<◌, [], ◌∷◌, ◌++◌, List, Some, IfNone, OnOk, OnErr, length, option_to_list, remove, slice_get, take};
ghost use Rattle.std.specs.Option.{option_copied};

use std::alloc::Global;
use std::collections::VecDeque;
use std::marker::Model;
use stun_types_base::memory::NoMemory;

/// A queue. In contracts it is the list of its elements, the first one first. The cost of a call
/// does not depend on the number of elements, except that a call that drops several costs by their
/// number.
#[derive(Debug, Drop)]
pub struct QueueOf<T> {
    items: VecDeque<T>,
}

impl<T> Model for QueueOf<T> {
    ghost use Rattle.std.specs.Prelude.{List};

    ghost Value = { List T };

    ghost view = { λ queue. queue.items.items };
}

impl<T> QueueOf<T> {
    /// Creates an empty queue, which holds no memory yet.
    pub fn new(alloc: Global) -> Self
        ensures { result ≡ [] }
    {
        QueueOf {
            items: VecDeque::new(alloc),
        }
    }

    /// Returns the number of elements.
    pub fn len(&self) -> usize
        ensures { result ≡ length self.now }
    {
        self.items.len()
    }

    /// Removes and returns the first element, or returns `None` if there is none.
    pub fn pop_front(&mut self) -> Option<T>
        ensures items { self.old ≡ option_to_list result ++ self.new }
        ensures none { IfNone result (self.old ≡ []) }
    {
        self.items.pop_front()
    }

    /// Removes and returns the last element, or returns `None` if there is none.
    pub fn pop_back(&mut self) -> Option<T>
        ensures items { self.old ≡ self.new ++ option_to_list result }
        ensures undone { (xs : List T) (x : T) → self.old ≡ xs ++ x ∷ [] → self.new ≡ xs }
    {
        self.items.pop_back()
    }

    /// Removes and returns the element at an index.
    pub fn remove(&mut self, index: usize) -> Option<T>
        requires { index < length self.old }
        ensures given { result ≡ slice_get self.old index }
        ensures items { self.new ≡ remove self.old index }
    {
        self.items.remove(index)
    }

    /// Returns the elements in two slices, the first elements in the first slice.
    pub fn as_slices(&self) -> (&[T], &[T])
        ensures { result.0.now ++ result.1.now ≡ self.now }
    {
        self.items.as_slices()
    }

    /// Returns the last element, or `None` if there is none.
    pub fn back(&self) -> Option<&T>
        ensures { (xs : List T) (x : T) → self.now ≡ xs ++ x ∷ [] → option_copied result ≡ Some x }
    {
        self.items.back()
    }

    /// Returns the first element, or `None` if there is none.
    pub fn head(&self) -> Option<&T>
        ensures { option_copied result ≡ slice_get self.now 0 }
    {
        self.items.front()
    }
}

impl<T: Drop> QueueOf<T> {
    /// Adds an element at the end. Fails with `NoMemory` if an allocation fails; the queue is
    /// unchanged.
    pub fn push_back(&mut self, value: T) -> Result<(), NoMemory>
        ensures ok { OnOk result (self.new ≡ self.old ++ value ∷ []) }
        ensures err { OnErr result (self.new ≡ self.old) }
    {
        self.items.push_back(value)?;
        Ok(())
    }

    /// Adds an element before all others. Fails with `NoMemory` if an allocation fails; the queue
    /// is unchanged.
    pub fn push_front(&mut self, value: T) -> Result<(), NoMemory>
        ensures ok { OnOk result (self.new ≡ value ∷ self.old) }
        ensures err { OnErr result (self.new ≡ self.old) }
    {
        self.items.push_front(value)?;
        Ok(())
    }

    /// Keeps the first `count` elements, or all if there are no more, and drops the others.
    pub fn truncate(&mut self, count: usize)
        ensures { self.new ≡ take count self.old }
    {
        self.items.truncate(count);
    }

    /// Removes all elements.
    pub fn clear(&mut self)
        ensures { self.new ≡ [] }
    {
        self.items.clear();
    }
}
