//! A queue of bounded length that takes no memory.
#![tactic(auto)]

ghost use Rattle.std.specs.Prelude.{◌≡◌, ◌<◌, ◌++◌, ◌∷◌, [], length, Some, drop, slice_get};
ghost use Rattle.std.specs.Option.{option_copied};

use arrayvec::ArrayVec;
use std::marker::Model;

/// A first-in first-out queue of at most N items. Contracts see the list of them, the oldest first.
#[derive(Drop)]
pub struct Fifo<T: Copy + Default, const N: usize> {
    items: ArrayVec<T, N>,
}

impl<T: Copy + Default, const N: usize> Model for Fifo<T, N> {
    ghost use Rattle.std.specs.Prelude.{List};

    ghost Value = { List T };

    ghost view = { λ queue. queue.items.items };
}

impl<T: Copy + Default, const N: usize> Fifo<T, N> {
    /// A queue without items.
    pub fn new() -> Fifo<T, N>
        ensures { result ≡ [] }
    {
        Fifo {
            items: ArrayVec::new(),
        }
    }

    /// How many items it holds.
    pub fn len(&self) -> usize
        ensures { result ≡ length self.now }
    {
        self.items.len()
    }

    /// The oldest item, if there is one.
    pub fn front(&self) -> Option<&T>
        ensures { option_copied result ≡ slice_get self.now 0 }
    {
        self.items.as_slice().first()
    }

    /// The item at this place, counted from the oldest one, which is at 0.
    pub fn item(&self, at: usize) -> &T
        requires { at < length self.now }
        ensures { Some result.now ≡ slice_get self.now at }
    {
        &self.items.as_slice()[at]
    }

    /// The items, the oldest first.
    pub fn as_slice(&self) -> &[T]
        ensures { result.now ≡ self.now }
    {
        self.items.as_slice()
    }

    /// Adds an item as the youngest; there is room for it.
    pub fn put(&mut self, item: T)
        requires { length self.old < N }
        ensures { self.new ≡ self.old ++ item ∷ [] }
    {
        self.items.push(item);
    }

    /// Removes the oldest item.
    pub fn take(&mut self) -> T
        requires { 0 < length self.old }
        ensures { self.old ≡ result ∷ self.new }
    {
        self.items.remove(0)
    }

    /// Replaces the oldest item.
    pub fn set_front(&mut self, item: T)
        requires { 0 < length self.old }
        ensures { self.new ≡ item ∷ drop 1 self.old }
    {
        self.items.as_mut_slice()[0] = item;
    }
}
