// The entries that one unit took, session by session.
use crate::columns::is_same;
use vio_num::{Entry, UnitId};
use vio_trace::QueueRow;

/// A place among the entries that a unit took.
#[derive(Clone, Copy)]
pub struct Entries<'a> {
    rows: &'a [QueueRow],
    unit: UnitId,
    row: usize,
    place: usize,
}

impl<'a> Entries<'a> {
    /// The place before the first entry of the unit.
    pub fn of(rows: &'a [QueueRow], unit: UnitId) -> Entries<'a> {
        let mut entries = Entries {
            rows,
            unit,
            row: 0,
            place: 0,
        };
        entries.skip();
        entries
    }

    /// The place behind the last.
    pub fn none(rows: &'a [QueueRow], unit: UnitId) -> Entries<'a> {
        Entries {
            rows,
            unit,
            row: rows.len(),
            place: 0,
        }
    }

    // Goes on to the next row of the unit that has entries left.
    fn skip(&mut self) {
        for _ in self.row..self.rows.len() {
            if self.is_at_entry() {
                return;
            }
            self.row = self.row.saturating_add(1);
            self.place = 0;
        }
    }

    fn is_at_entry(&self) -> bool {
        match self.rows.get(self.row) {
            Some(row) => is_same(row.unit, self.unit) && self.place < row.taken.len(),
            None => false,
        }
    }

    /// The entry at the place.
    pub fn next(&self) -> Option<Entry> {
        match self.rows.get(self.row) {
            Some(row) => row.taken.as_slice().get(self.place).copied(),
            None => None,
        }
    }

    /// Goes behind the entry at the place.
    pub fn pass(&mut self) {
        self.place = self.place.saturating_add(1);
        self.skip();
    }
}
