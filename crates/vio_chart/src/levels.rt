// The levels of the picture: each link has a band of its own, one below the other, since no clock tells what two links did
// at the same time. Below them stand the frames.
use crate::columns::is_same;
use crate::link::link_of;
use crate::walk::{Step, Walk};
use std::alloc::Global;
use vio_num::{NoMemory, UnitId};
use vio_trace::Trace;

/// For each unit, how far the levels of its link were gone through.
#[derive(Drop)]
pub struct Levels<'a> {
    units: &'a [UnitId],
    walks: Vec<Walk<'a>>,
    end: u64,
}

// Finds the first level of each unit's band, should it be the server unit of its link, and the level behind all bands.
fn bands_of(alloc: Global, trace: &Trace, units: &[UnitId]) -> Result<(Vec<u64>, u64), NoMemory> {
    let mut bands = Vec::new(alloc);
    let mut level = 0;
    for unit in units {
        bands.push(level)?;
        let link = link_of(trace.copies.as_slice(), *unit);
        if is_same(link.server, *unit) {
            level = Walk::of(trace, link, level).end().saturating_add(1);
        }
    }
    Ok((bands, level))
}

// Finds what stands beside a unit.
fn beside(units: &[UnitId], values: &[u64], unit: UnitId) -> u64 {
    for (other, value) in units.iter().zip(values) {
        if is_same(*other, unit) {
            return *value;
        }
    }
    0
}

impl<'a> Levels<'a> {
    /// The place before the first level of each link.
    pub fn of(
        alloc: Global,
        trace: &'a Trace,
        units: &'a [UnitId],
    ) -> Result<Levels<'a>, NoMemory> {
        let (bands, end) = bands_of(alloc, trace, units)?;
        let mut walks = Vec::new(alloc);
        for unit in units {
            let link = link_of(trace.copies.as_slice(), *unit);
            let band = beside(units, bands.as_slice(), link.server);
            walks.push(Walk::of(trace, link, band))?;
        }
        Ok(Levels { units, walks, end })
    }

    /// The next level in which such a thing of the unit stands.
    pub fn level_of(&mut self, unit: UnitId, step: Step) -> u64 {
        for (other, walk) in self.units.iter().zip(self.walks.iter_mut()) {
            if is_same(*other, unit) {
                return walk.level_of(step);
            }
        }
        self.end
    }

    /// The level behind those of all links.
    pub fn end(&self) -> u64 {
        self.end
    }
}
