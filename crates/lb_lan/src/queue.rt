// A queue of bounded length.
ghost use Rattle.std.specs.Prelude.{◌≡◌, ◌<◌, ◌+◌, ◌++◌, ◌∷◌, [], length, drop, IfOk};
ghost use Rattle.std.specs.VecDeque.{deque_len, deque_capacity};
ghost use Rattle.lb_lan.specs.Queue.{front_or};

use std::alloc::{AllocError, Global};
use std::collections::VecDeque;
use std::marker::Model;

/// At most N items, the oldest first. Contracts see the list of them. Its memory is taken once, by `new`.
#[derive(Drop)]
pub struct Queue<T: Copy, const N: usize> {
    items: VecDeque<T>,
}

impl<T: Copy, const N: usize> Model for Queue<T, N> {
    ghost use Rattle.std.specs.Prelude.{◌≡◌, List, length};
    ghost use Rattle.std.specs.VecDeque.{deque_len, deque_capacity};

    ghost Value = { List T };

    ghost view = { λ q. q.items.items };

    ghost invariant = { λ q. (deque_capacity q.items ≡ N)
        × (deque_len q.items ≡ length q.items.items) };
}

impl<T: Copy, const N: usize> Queue<T, N> {
    /// An empty queue. Fails only for want of memory.
    pub fn new(alloc: Global) -> Result<Queue<T, N>, AllocError>
        ensures { IfOk result (λ queue. queue ≡ []) }
    {
        let items = VecDeque::with_capacity(alloc, N)?;
        Ok(Queue { items })
    }

    /// How many items it has.
    pub fn len(&self) -> usize
        ensures { result ≡ length self.now }
    {
        self.items.len()
    }

    /// The oldest item, or the one that is handed in where there is none.
    pub fn front_or(&self, default: T) -> T
        ensures { result ≡ front_or default self.now }
    {
        match self.items.front() {
            Some(item) => *item,
            None => default,
        }
    }

    /// Drops the oldest item, if there is one.
    pub fn advance(&mut self)
        ensures { self.new ≡ drop 1 self.old }
    {
        let _oldest = self.items.pop_front();
    }

    /// Adds an item behind the others.
    pub fn push(&mut self, item: T)
        requires { length self.old < N }
        ensures items { self.new ≡ self.old ++ item ∷ [] }
        ensures len { length self.new ≡ length self.old + 1 }
    {
        self.items.push_back_reserved(item);
    }
}
