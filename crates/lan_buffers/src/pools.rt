// Pools of waiting posts: a queue of post numbers for each length, of which there are at most 8.
ghost use Rattle.std.specs.Prelude.{◌≡◌, ◌↔◌, ◌+◌, ◌<◌, ◌≤◌, ◌⊎◌, ◌==◌, [], ◌∷◌, ◌++◌, All, ℕ, IsTrue, Some, OnOk, OnErr, IfOk, IfSome, IfNone, IsSomeAnd, length, slice_get, get_or, true, false, vec_len, if◌then◌else◌};
ghost use Rattle.arrayvec.specs.ArrayVec.{array_vec_len};
ghost use Rattle.lan_buffers.specs.Pools.{has_size, with_size};
ghost use Rattle.lan_buffers.specs.Kept.{QueueValue, place_in, waits, IsLeastOf, IsBetter, Adds, Takes};

use crate::queue::Queue;
use arrayvec::ArrayVec;
use std::alloc::Global;
use std::marker::Model;
use vio_num::NoMemory;

/// The number of lengths for which there are pools.
pub const MOST_SIZES: usize = 8;

/// The pools of a port's session. Contracts see its lengths, and what waits of each.
#[derive(Debug, Drop)]
pub struct Pools {
    sizes: ArrayVec<u32, MOST_SIZES>,
    queues: Vec<Queue>,
    spare: u64,
}

impl Model for Pools {
    ghost use Rattle.lan_buffers.specs.Kept.{PoolsValue, KeepsQueues};

    ghost Value = { PoolsValue };

    ghost view = { λ pools. record {
      sizes = pools.sizes.items;
      queues = pools.queues.items;
      spare = pools.spare;
    } };

    ghost invariant = { λ pools. KeepsQueues pools.sizes.items pools.queues.items pools.spare };
}

impl Pools {
    /// Pools of no length, with no room.
    pub fn new(alloc: Global) -> Result<Pools, NoMemory>
        ensures sizes { IfOk result (λ pools. pools.sizes ≡ []) }
        ensures waiting { IfOk result (λ pools. (size : ℕ) → waits pools size ≡ []) }
        ensures spare { IfOk result (λ pools. pools.spare ≡ 0) }
    {
        Ok(Pools {
            sizes: ArrayVec::new(),
            queues: empty_queues(alloc)?,
            spare: 0,
        })
    }

    /// The different lengths, at most 8.
    pub fn sizes(&self) -> &[u32]
        ensures sizes { result.now ≡ self.now.sizes }
        ensures few { length result.now ≤ 8 }
    {
        self.sizes.as_slice()
    }

    /// Whether the length would be the ninth.
    pub fn is_ninth(&self, size: u32) -> bool
        ensures { IsTrue result
            ↔ ((has_size size self.now.sizes ≡ false) × (length self.now.sizes ≡ 8)) }
    {
        self.sizes.is_full() && place_of(self.sizes.as_slice(), size) == MOST_SIZES
    }

    /// Whether each length is below this one.
    pub fn are_below(&self, need: u32) -> bool
        ensures { IsTrue result ↔ All (λ size. size < need) self.now.sizes }
    {
        self.sizes.iter().all(|size| *size < need)
    }

    /// The least length of at least `need` of which a number waits.
    pub fn smallest(&self, need: u32) -> Option<u32>
        ensures found { IfSome result (λ size. (need ≤ size) × (1 ≤ length (waits self.now size))) }
        ensures least { IfSome result (λ size. (other : ℕ) → need ≤ other → other < size
            → waits self.now other ≡ []) }
        ensures none { IfNone result ((other : ℕ) → need ≤ other → waits self.now other ≡ []) }
    {
        let mut best = None;
        for place in 0..self.sizes.len() {
            best = self.better(place, need, best);
        }
        best
    }

    // Takes the length at this place for the best so far, if it is better.
    fn better(&self, place: usize, need: u32, best: Option<u32>) -> Option<u32>
        requires within { place < length self.now.sizes }
        requires before { IsLeastOf need (waits self.now) self.now.sizes place best }
        ensures { IsLeastOf need (waits self.now) self.now.sizes (place + 1) result }
    {
        let size = self.sizes.as_slice()[place];
        if is_better(size, &self.queues[place], need, best) {
            Some(size)
        } else {
            best
        }
    }

    /// Adds a number to the pool of its length.
    pub fn add(&mut self, size: u32, number: u64)
        requires room { 1 ≤ self.old.spare }
        requires few { has_size size self.old.sizes ≡ false → ¬ (length self.old.sizes ≡ 8) }
        ensures { Adds self.old size number self.new }
    {
        let place = self.place_for(size);
        self.queues[place].push(number);
        self.spare -= 1;
    }

    // Finds the place of a length, which is a new one behind the others if it is not among them.
    fn place_for(&mut self, size: u32) -> usize
        requires few { has_size size self.old.sizes ≡ false → ¬ (length self.old.sizes ≡ 8) }
        ensures sizes { self.new.sizes ≡ with_size size self.old.sizes }
        ensures queues { self.new.queues ≡ self.old.queues }
        ensures waiting { (other : ℕ) → waits self.new other ≡ waits self.old other }
        ensures spare { self.new.spare ≡ self.old.spare }
        ensures place { result ≡ place_in size self.new.sizes }
        ensures among { has_size size self.new.sizes ≡ true }
        ensures within { result < length self.new.sizes }
        ensures few { length self.new.sizes ≤ 8 }
    {
        let place = place_of(self.sizes.as_slice(), size);
        if place == self.sizes.len() {
            self.sizes.push(size);
        }
        place
    }

    /// Takes the oldest number of a length, of which one waits.
    pub fn take(&mut self, size: u32)
        requires { 1 ≤ length (waits self.old size) }
        ensures { Takes self.old size self.new }
    {
        let place = place_of(self.sizes.as_slice(), size);
        self.queues[place].take();
    }

    /// The oldest number of a length, of which one waits.
    pub fn oldest(&self, size: u32) -> u64
        requires { 1 ≤ length (waits self.now size) }
        ensures { slice_get (waits self.now size) 0 ≡ Some result }
    {
        self.queues[place_of(self.sizes.as_slice(), size)].oldest()
    }

    /// Forgets every length and what waits.
    pub fn clear(&mut self)
        ensures sizes { self.new.sizes ≡ [] }
        ensures spare { self.new.spare ≡ self.old.spare }
    {
        clear_queues(&mut self.queues);
        self.sizes.clear();
    }

    /// Makes room for this many numbers in each pool.
    pub fn reserve(&mut self, n: u32) -> Result<(), NoMemory>
        ensures room { OnOk result (n ≤ self.new.spare) }
        ensures sizes { self.new.sizes ≡ self.old.sizes }
        ensures waiting { (size : ℕ) → waits self.new size ≡ waits self.old size }
        ensures spare { self.old.spare ≤ self.new.spare }
    {
        let spare = self.spare.max(u64::from(n));
        reserve_queues(&mut self.queues, spare)?;
        self.spare = spare;
        Ok(())
    }
}

// Makes eight empty queues.
fn empty_queues(alloc: Global) -> Result<Vec<Queue>, NoMemory>
    ensures eight { IfOk result (λ queues. length queues.items ≡ 8) }
    ensures empty { IfOk result (λ queues. All (λ queue. queue.numbers ≡ []) queues.items) }
{
    let mut queues = Vec::with_capacity(alloc, MOST_SIZES)?;
    for _ in 0..MOST_SIZES {
        queues.push_reserved(Queue::new(alloc));
    }
    Ok(queues)
}

// Empties the eight queues.
fn clear_queues(queues: &mut Vec<Queue>)
    requires { length queues.old.items ≡ 8 }
    ensures eight { length queues.new.items ≡ 8 }
    ensures empty { (place : ℕ) (d : QueueValue) → place < 8
        → (get_or queues.new.items place d).numbers ≡ [] }
    ensures spare { (n : ℕ) → All (λ queue. n ≤ queue.spare) queues.old.items
        → All (λ queue. n ≤ queue.spare) queues.new.items }
{
    for place in 0..MOST_SIZES {
        queues[place].clear();
    }
}

// Makes room for this many numbers in each of the eight queues.
fn reserve_queues(queues: &mut Vec<Queue>, spare: u64) -> Result<(), NoMemory>
    requires { length queues.old.items ≡ 8 }
    ensures eight { length queues.new.items ≡ 8 }
    ensures numbers { (place : ℕ) (d : QueueValue) → (get_or queues.new.items place d).numbers
        ≡ (get_or queues.old.items place d).numbers }
    ensures spare { (n : ℕ) → All (λ queue. n ≤ queue.spare) queues.old.items
        → All (λ queue. n ≤ queue.spare) queues.new.items }
    ensures room { OnOk result (All (λ queue. spare ≤ queue.spare) queues.new.items) }
{
    for place in 0..MOST_SIZES {
        queues[place].reserve(spare)?;
    }
    Ok(())
}

// Finds the place of a length, or gives their number.
fn place_of(sizes: &[u32], size: u32) -> usize
    ensures place { result ≡ place_in size sizes.now }
    ensures among { has_size size sizes.now ≡ true → result < length sizes.now }
    ensures not_among { has_size size sizes.now ≡ false → result ≡ length sizes.now }
{
    for (place, other) in sizes.iter().enumerate() {
        if *other == size {
            return place;
        }
    }
    sizes.len()
}

// Tells whether the length fits, a number of it waits, and it is below the best so far.
fn is_better(size: u32, queue: &Queue, need: u32, best: Option<u32>) -> bool
    ensures { IsTrue result ↔ IsBetter queue.now.numbers need size best }
{
    need <= size && queue.has_any() && is_below(size, best)
}

// Tells whether the length is below the best so far.
fn is_below(size: u32, best: Option<u32>) -> bool
    ensures { IsTrue result ↔ IfSome best (λ other. size < other) }
{
    match best {
        Some(other) => size < other,
        None => true,
    }
}
