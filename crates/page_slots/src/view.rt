// What the seats at a table of pages know. These types are for the rule alone: no value of them is made.
use crate::stroke::Stroke;
use std::collections::LinkedList;

/// What a table is told when it is made.
#[derive(Clone, Copy)]
pub struct PagesKey {
    pub pages: usize,
    pub seats: usize,
}

/// What one seat knows.
pub struct PageView {
    /// How many of the seats that were opened it stands for: itself, and those that were joined to it.
    pub share: u64,
    /// The slot that is out with it, which is empty between two calls.
    pub carried: Option<usize>,
    /// The strokes of each page that it has seen.
    pub seen: LinkedList<LinkedList<Stroke>>,
    /// Whether each page is in its hand.
    pub held: LinkedList<bool>,
    /// The places, among the strokes of each page, of those that it laid.
    pub laid: LinkedList<LinkedList<u64>>,
    /// What each seat that was joined to it had seen.
    pub told: LinkedList<LinkedList<LinkedList<Stroke>>>,
    /// How many words it read on which an answer may rest, and the last of them.
    pub reads: u64,
    pub word: u64,
}
