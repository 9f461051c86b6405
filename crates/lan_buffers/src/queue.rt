// A queue of post numbers, with room for more.
ghost use Rattle.std.specs.Prelude.{◌≡◌, ◌↔◌, ◌-◌, ◌+◌, ◌≤◌, [], ◌∷◌, ◌++◌, ℕ, Some, IsTrue, OnOk, length, drop, slice_get};

use std::alloc::Global;
use std::collections::VecDeque;
use std::marker::Model;
use vio_num::NoMemory;

/// The numbers of the posts of one length that wait. Contracts see them, the oldest first, and the
/// room.
#[derive(Debug, Drop)]
pub struct Queue {
    numbers: VecDeque<u64>,
}

impl Model for Queue {
    ghost use Rattle.std.specs.Prelude.{◌-◌};
    ghost use Rattle.std.specs.VecDeque.{deque_len, deque_capacity};
    ghost use Rattle.lan_buffers.specs.Kept.{QueueValue};

    ghost Value = { QueueValue };

    ghost view = { λ queue. record {
      numbers = queue.numbers.items;
      spare = deque_capacity queue.numbers - deque_len queue.numbers;
    } };
}

impl Queue {
    /// An empty queue with no room.
    pub fn new(alloc: Global) -> Queue
        ensures { result.numbers ≡ [] }
    {
        Queue {
            numbers: VecDeque::new(alloc),
        }
    }

    /// Whether a number waits.
    pub fn has_any(&self) -> bool
        ensures { IsTrue result ↔ (1 ≤ length self.now.numbers) }
    {
        !self.numbers.is_empty()
    }

    /// Adds a number behind the others.
    pub fn push(&mut self, number: u64)
        requires { 1 ≤ self.old.spare }
        ensures numbers { self.new.numbers ≡ self.old.numbers ++ number ∷ [] }
        ensures spare { self.new.spare + 1 ≡ self.old.spare }
    {
        self.numbers.push_back_reserved(number);
    }

    /// The oldest number, of which one waits.
    pub fn oldest(&self) -> u64
        requires { 1 ≤ length self.now.numbers }
        ensures { slice_get self.now.numbers 0 ≡ Some result }
    {
        self.numbers[0]
    }

    /// Takes the oldest number, of which one waits.
    pub fn take(&mut self)
        requires { 1 ≤ length self.old.numbers }
        ensures numbers { self.new.numbers ≡ drop 1 self.old.numbers }
        ensures spare { self.old.spare ≤ self.new.spare }
    {
        self.numbers.pop_front();
    }

    /// Forgets what waits.
    pub fn clear(&mut self)
        ensures numbers { self.new.numbers ≡ [] }
        ensures spare { self.old.spare ≤ self.new.spare }
    {
        self.numbers.clear();
    }

    /// Makes room for this many numbers.
    pub fn reserve(&mut self, n: u64) -> Result<(), NoMemory>
        ensures room { OnOk result (n ≤ self.new.spare) }
        ensures numbers { self.new.numbers ≡ self.old.numbers }
        ensures spare { self.old.spare ≤ self.new.spare }
    {
        self.numbers.reserve(n as usize)?;
        Ok(())
    }
}
