// What a port accepts.
ghost use Rattle.std.specs.Prelude.{◌≡◌, ◌↔◌, IsTrue};
ghost use Rattle.lan_frame.specs.Filter.{Accepts};
ghost use Rattle.lan_buffers.specs.Calls.{first_settings};

use lan_frame::{Filters, accepts};
use vio_num::Mac;

/// What an open port accepts (LoPAR, "H_MULTICAST_CTRL").
#[derive(Debug, Drop)]
pub struct Settings {
    /// The port's own address.
    pub mac: Mac,
    /// Whether frames to groups are received.
    pub reception: bool,
    /// Whether they are held against the filters.
    pub filtering: bool,
    /// The groups that are received where they are.
    pub filters: Filters,
}

impl Settings {
    /// The settings with which a session begins: frames to this address and to every station alone.
    pub(crate) fn first(mac: Mac) -> Settings
        ensures { result ≡ first_settings mac }
    {
        Settings {
            mac,
            reception: false,
            filtering: false,
            filters: Filters::new(),
        }
    }

    /// The same settings.
    pub fn copied(&self) -> Settings
        ensures { result ≡ self.now }
    {
        Settings {
            mac: self.mac,
            reception: self.reception,
            filtering: self.filtering,
            filters: self.filters.copied(),
        }
    }

    /// Whether a frame to this address is accepted.
    pub fn accept(&self, to: Mac) -> bool
        ensures { IsTrue result ↔ Accepts self.now.mac self.now.reception self.now.filtering
            self.now.filters to }
    {
        accepts(
            self.mac,
            self.reception,
            self.filtering,
            self.filters.as_slice(),
            to,
        )
    }
}
