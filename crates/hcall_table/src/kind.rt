// The kinds of units.
ghost use Rattle.std.specs.Prelude.{◌≡◌};
ghost use Rattle.hcall_table.specs.Named.{has_queue, is_lan, is_server};

/// What a unit is (LoPAR, "Virtual I/O").
#[derive(Clone, Copy, Debug, PartialEq, Eq)]
pub enum UnitKind {
    /// A virtual SCSI server: a queue, its own window, and its client's.
    Server,
    /// A virtual SCSI client: a queue, and its own window.
    Client,
    /// A port of the logical LAN: its receive queue, and its own window.
    Lan,
}

impl UnitKind {
    /// Whether a unit of this kind has a queue of entries.
    pub fn has_queue(self) -> bool
        ensures { result ≡ has_queue self }
    {
        match self {
            UnitKind::Server | UnitKind::Client => true,
            UnitKind::Lan => false,
        }
    }

    /// Whether a unit of this kind has its client's window beside its own.
    pub fn is_server(self) -> bool
        ensures { result ≡ is_server self }
    {
        matches!(self, UnitKind::Server)
    }

    /// Whether a unit of this kind is a port of the logical LAN.
    pub fn is_lan(self) -> bool
        ensures { result ≡ is_lan self }
    {
        matches!(self, UnitKind::Lan)
    }
}
