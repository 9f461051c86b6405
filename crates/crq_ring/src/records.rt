// Steps on the lists of a pipe.
ghost use Rattle.std.specs.Prelude.{◌≡◌, ◌+◌, ◌<◌, ◌≤◌, [], ◌∷◌, ◌++◌, All, drop, length, map, if◌then◌else◌, vec_len, vec_capacity};
ghost use Rattle.std.specs.List.{AllPairs, slice_get};
ghost use Rattle.crq_ring.specs.Sessions.{recorded, same_number, Precedes, NotAfter};

use crate::rows::{DropRow, PipeRow};
use vio_num::Entry;

/// The entry at this place behind the first `from` rows.
pub fn entry_at(rows: &[PipeRow], from: usize, place: usize) -> Entry
    requires { from + place < length rows.now }
    ensures { slice_get (map (λ row. row.entry) (drop from rows.now)) place ≡ Some result }
{
    rows[from + place].entry
}

/// Whether both records are of one number of one session.
fn is_same_number(a: &DropRow, b: &DropRow) -> bool
    ensures { result ≡ same_number a.now b.now }
{
    a.session == b.session && a.number == b.number
}

/// Whether the number of this record has one already. None comes after it.
fn has_record(drops: &[DropRow], row: &DropRow) -> bool
    requires in_order { AllPairs Precedes drops.now }
    requires last { All (λ other. NotAfter other row.now) drops.now }
    ensures records { recorded drops.now row.now ≡
        (if result then drops.now else drops.now ++ row.now ∷ []) }
    ensures in_order { AllPairs Precedes (recorded drops.now row.now) }
{
    match drops.last() {
        Some(last) => is_same_number(last, row),
        None => false,
    }
}

/// Adds a record, unless its number has one.
pub fn add_record(drops: &mut Vec<DropRow>, row: DropRow)
    requires room { vec_len drops.old < vec_capacity drops.old }
    requires in_order { AllPairs Precedes drops.old.items }
    requires last { All (λ other. NotAfter other row) drops.old.items }
    ensures items { drops.new.items ≡ recorded drops.old.items row }
    ensures in_order { AllPairs Precedes drops.new.items }
    ensures len { vec_len drops.new ≤ vec_len drops.old + 1 }
    ensures capacity { vec_capacity drops.new ≡ vec_capacity drops.old }
{
    if !has_record(drops, &row) {
        drops.push_reserved(row);
    }
}
