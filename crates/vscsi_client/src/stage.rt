// How far a login has come, and what is to be put.
ghost use Rattle.std.specs.Prelude.{◌≡◌, ℕ, filter};
ghost use Rattle.vscsi_client.specs.State.{is_slot, stage_uses};
ghost use Rattle.vscsi_client.specs.Taking.{is_step};
ghost use Rattle.vscsi_client.specs.Login.{login_slot};
ghost use Rattle.vscsi_client.specs.Turned.{is_login, is_idle, sent_stage};

/// How far a login has come.
#[derive(Clone, Copy, Debug, PartialEq, Eq)]
pub enum Stage {
    /// None is under way, or its unit is not written yet.
    Idle,
    /// Its unit is written, and its entry is to be put.
    Written { tag: u64, slot: u64 },
    /// Its entry was put, and its answer is awaited.
    Sent { tag: u64, slot: u64 },
}

/// What is to be put, in its order.
#[derive(Clone, Copy, Debug, PartialEq, Eq)]
pub enum Due {
    /// The initialisation command (LoPAR, "CRQ Initialization").
    Initialize,
    /// The initialisation response.
    Complete,
    /// The login request.
    Login,
}

impl Stage {
    /// The slot of the login that is under way.
    pub(crate) fn slot(self) -> Option<u64>
        ensures { (place : ℕ) → is_slot result place ≡ stage_uses self place }
    {
        match self {
            Stage::Idle => None,
            Stage::Written { tag: _, slot } | Stage::Sent { tag: _, slot } => Some(slot),
        }
    }

    /// The slot of the login that is under way under this tag.
    pub(crate) fn slot_of(self, tag: u64) -> Option<u64>
        ensures { result ≡ login_slot tag self }
    {
        match self {
            Stage::Idle => None,
            Stage::Written { tag: own, slot } | Stage::Sent { tag: own, slot } => {
                if own == tag { Some(slot) } else { None }
            }
        }
    }

    /// Whether none is under way.
    pub(crate) fn is_idle(self) -> bool
        ensures { result ≡ is_idle self }
    {
        matches!(self, Stage::Idle)
    }

    /// The stage once what is due was put.
    pub(crate) fn after(self, due: Due) -> Stage
        ensures { result ≡ sent_stage due self }
    {
        match (due, self) {
            (Due::Login, Stage::Written { tag, slot }) => Stage::Sent { tag, slot },
            _ => self,
        }
    }
}

impl Due {
    // Tells whether it is a step of the handshake.
    fn is_step(&self) -> bool
        ensures { result ≡ is_step self.now }
    {
        !self.is_login()
    }

    /// Whether it is a login.
    pub(crate) fn is_login(&self) -> bool
        ensures { result ≡ is_login self.now }
    {
        matches!(self, Due::Login)
    }
}

/// Takes a login out of what is due.
pub(crate) fn drop_login(due: &mut Vec<Due>)
    ensures { due.new.items ≡ filter is_step due.old.items }
{
    due.retain(|due| due.is_step());
}
