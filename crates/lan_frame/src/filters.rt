// The filters of a LAN unit (LoPAR, "H_MULTICAST_CTRL"): the groups that it listens to.
ghost use Rattle.std.specs.Prelude.{◌≡◌, ◌↔◌, ◌⊎◌, [], ◌∷◌, ◌++◌, length, Some, IsTrue, IfSome, IfNone};
ghost use Rattle.std.specs.List.{Contains, slice_get};
ghost use Rattle.lan_frame.specs.Filters.{AreFilters, Removes, IsFullFor};

use arrayvec::ArrayVec;
use std::marker::Model;
use vio_num::{Hrc, Mac};

/// The number of filters for which a LAN unit has places.
pub const FILTER_PLACES: usize = 32;

/// The filters of a LAN unit: at most 32 addresses, each once, in the order in which they were added.
/// Contracts see the list of them.
#[derive(Debug, Drop)]
pub struct Filters {
    macs: ArrayVec<Mac, FILTER_PLACES>,
}

impl Model for Filters {
    ghost use Rattle.std.specs.Prelude.{List};
    ghost use Rattle.vio_num.specs.declared.names.Mac.{Mac};
    ghost use Rattle.lan_frame.specs.Filters.{AreFilters};

    ghost Value = { List Mac };

    ghost view = { λ filters. filters.macs.items };

    ghost invariant = { λ filters. AreFilters filters.macs.items };
}

impl Filters {
    /// No filter.
    pub fn new() -> Filters
        ensures { result ≡ [] }
    {
        Filters {
            macs: ArrayVec::new(),
        }
    }

    /// Filters of the same addresses, in the same order.
    pub fn copied(&self) -> Filters
        ensures { result ≡ self.now }
    {
        let mut macs = ArrayVec::new();
        match macs.try_extend_from_slice(self.macs.as_slice()) {
            Ok(()) => Filters { macs },
            Err(_) => unreachable!(),
        }
    }

    /// The addresses, in the order in which they were added.
    pub fn as_slice(&self) -> &[Mac]
        ensures addresses { result.now ≡ self.now }
        ensures filters { AreFilters self.now }
    {
        self.macs.as_slice()
    }

    /// The number of filters, 0 to 32.
    pub fn len(&self) -> usize
        ensures number { result ≡ length self.now }
        ensures filters { AreFilters self.now }
    {
        self.macs.len()
    }

    /// Whether there is no filter.
    pub fn is_empty(&self) -> bool
        ensures { IsTrue result ↔ (self.now ≡ []) }
    {
        self.macs.is_empty()
    }

    /// Whether the address is among the filters.
    pub fn contains(&self, mac: Mac) -> bool
        ensures { IsTrue result ↔ Contains self.now mac }
    {
        self.macs.as_slice().contains(&mac)
    }

    /// Adds the address behind the others: Success, also where it stands already and nothing changes.
    /// Resource where a 33rd filter would stand, which leaves the filters as they are.
    pub fn add(&mut self, mac: Mac) -> Hrc
        ensures resource { (result ≡ Hrc.Resource) ↔ IsFullFor mac self.old }
        ensures answers { (result ≡ Hrc.Success) ⊎ (result ≡ Hrc.Resource) }
        ensures standing { Contains self.old mac → self.new ≡ self.old }
        ensures added { result ≡ Hrc.Success → ¬ Contains self.old mac →
            self.new ≡ self.old ++ mac ∷ [] }
        ensures refused { result ≡ Hrc.Resource → self.new ≡ self.old }
    {
        if self.contains(mac) {
            return Hrc::Success;
        }
        if self.macs.is_full() {
            return Hrc::Resource;
        }
        self.macs.push(mac);
        Hrc::Success
    }

    /// Removes the address: Success, or NotFound where it is not among the filters, which stay as they are.
    pub fn remove(&mut self, mac: Mac) -> Hrc
        ensures absent { (result ≡ Hrc.NotFound) ↔ (¬ Contains self.old mac) }
        ensures answers { (result ≡ Hrc.Success) ⊎ (result ≡ Hrc.NotFound) }
        ensures removed { result ≡ Hrc.Success → Removes mac self.old self.new }
        ensures refused { result ≡ Hrc.NotFound → self.new ≡ self.old }
    {
        match place_of(self.macs.as_slice(), mac) {
            Some(place) => {
                self.macs.remove(place);
                Hrc::Success
            }
            None => Hrc::NotFound,
        }
    }

    /// Removes every address.
    pub fn clear(&mut self)
        ensures { self.new ≡ [] }
    {
        self.macs.clear();
    }
}

// Finds the place of the address.
fn place_of(macs: &[Mac], mac: Mac) -> Option<usize>
    ensures found { IfSome result (λ place. slice_get macs.now place ≡ Some mac) }
    ensures none { IfNone result (¬ Contains macs.now mac) }
{
    for (place, other) in macs.iter().enumerate() {
        if are_same(*other, mac) {
            return Some(place);
        }
    }
    None
}

// Tells whether the two addresses are one.
fn are_same(one: Mac, other: Mac) -> bool
    ensures { IsTrue result ↔ (one ≡ other) }
{
    one == other
}
