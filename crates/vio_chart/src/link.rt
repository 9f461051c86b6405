// Which two units of a trace are a server unit and its client. The trace does not say so; the copies do, which a server
// unit makes alone, between its own pages and its client's.
ghost use Rattle.std.specs.Prelude.{◌≡◌, None};
ghost use Rattle.vio_chart.specs.Partner.{joined_by as joined, names as names_unit, other_of as other, partner_of as partner};

use crate::columns::is_same;
use vio_num::UnitId;
use vio_trace::{CopyRow, PieceRow};

/// A server unit and its client; both are one unit where the trace does not tell its partner.
#[derive(Clone, Copy)]
pub struct Link {
    pub server: UnitId,
    pub client: UnitId,
}

// Finds the first unit of the pieces that is another, or else hands on a further one.
fn other_of(unit: UnitId, pieces: &[PieceRow], further: Option<UnitId>) -> Option<UnitId>
    ensures { result ≡ other unit pieces.now further }
{
    for piece in pieces {
        if !is_same(piece.unit, unit) {
            return Some(piece.unit);
        }
    }
    further
}

// Tells whether a piece is of the unit's window.
fn names(unit: UnitId, pieces: &[PieceRow]) -> bool
    ensures { result ≡ names_unit unit pieces.now }
{
    pieces.iter().any(|piece| is_same(piece.unit, unit))
}

// Finds the unit that a copy joins with this one.
fn joined_by(unit: UnitId, copy: &CopyRow) -> Option<UnitId>
    ensures { result ≡ joined unit copy.now }
{
    if is_same(copy.unit, unit) {
        let written = other_of(unit, copy.to.as_slice(), None);
        return other_of(unit, copy.from.as_slice(), written);
    }
    if names(unit, copy.from.as_slice()) || names(unit, copy.to.as_slice()) {
        Some(copy.unit)
    } else {
        None
    }
}

/// The unit that the first copy joins with this one that joins it with any.
pub fn partner_of(unit: UnitId, copies: &[CopyRow]) -> Option<UnitId>
    ensures { result ≡ partner unit copies.now }
{
    for copy in copies {
        if let Some(other) = joined_by(unit, copy) {
            return Some(other);
        }
    }
    None
}

/// The link to which a unit belongs.
pub fn link_of(copies: &[CopyRow], unit: UnitId) -> Link {
    let Some(other) = partner_of(unit, copies) else {
        return Link {
            server: unit,
            client: unit,
        };
    };
    if copies.iter().any(|copy| is_same(copy.unit, unit)) {
        Link {
            server: unit,
            client: other,
        }
    } else {
        Link {
            server: other,
            client: unit,
        }
    }
}
