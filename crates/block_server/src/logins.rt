// The logins of a unit: which one is on, and what is outstanding under it (SRP, "Flow control").
ghost use Rattle.std.specs.Prelude.{◌≡◌, ◌↔◌, ◌+◌, ◌-◌, ◌^◌, ◌<◌, ◌≤◌, false, true, Some, None, IsOk, OnOk, OnErr, IsErrOf, if◌then◌else◌};
ghost use Rattle.srp_credits.specs.Target.{over_limit};

use srp_credits::{CreditFault, Target};
use vio_num::NoMemory;

/// One more than the number of the last login that a unit may grant.
pub(crate) const MOST_LOGINS: u64 = 1 << 60;

/// The logins of a unit, each with its number, from 1.
#[derive(Debug, Drop)]
pub(crate) struct Logins {
    target: Target,
    granted: u8,
    // The number of the last login, and of the one that was granted and has not ended; 0 where there is none.
    last: u64,
    current: u64,
    // Whether the current login takes requests: no I_LOGOUT was taken.
    taking: bool,
    ghost counted: { target.logins ≡ last },
    ghost grants: { target.granted ≡ granted },
    ghost takes: { target.on ≡ taking },
    ghost begun: { taking ≡ true → 1 ≤ current },
}

impl Logins {
    /// No login was granted yet; each grants so many requests.
    pub(crate) fn new(grant: u8) -> Logins
        requires some { 1 ≤ grant }
        requires few { grant ≤ 200 }
        ensures granted { result.granted ≡ grant }
        ensures last { result.last ≡ 0 }
        ensures current { result.current ≡ 0 }
        ensures taking { result.taking ≡ false }
    {
        Logins {
            target: Target::new(grant),
            granted: grant,
            last: 0,
            current: 0,
            taking: false,
        }
    }

    /// How many requests a login grants.
    pub(crate) fn credits(&self) -> u32
        ensures { result ≡ self.now.granted }
    {
        u32::from(self.granted)
    }

    /// The login that has not ended, or 0.
    pub(crate) fn current(&self) -> u64
        ensures { result ≡ self.now.current }
    {
        self.current
    }

    /// The login under which a request may be taken, if there is one.
    pub(crate) fn taking(&self) -> Option<u64>
        ensures { result ≡ (if self.now.taking then Some self.now.current else None) }
    {
        if self.taking {
            Some(self.current)
        } else {
            None
        }
    }

    /// Makes sure that one login more has a number.
    pub(crate) fn make_room(&self) -> Result<(), NoMemory>
        ensures { OnOk result (self.now.last + 1 < MOST_LOGINS) }
    {
        if self.last < MOST_LOGINS - 1 {
            Ok(())
        } else {
            Err(NoMemory)
        }
    }

    /// Begins a login while none is on, and gives its number.
    pub(crate) fn begin(&mut self) -> u64
        requires { self.old.last + 1 < MOST_LOGINS }
        ensures number { result ≡ self.old.last + 1 }
        ensures last { self.new.last ≡ result }
        ensures current { self.new.current ≡ result }
        ensures taking { self.new.taking ≡ true }
        ensures granted { self.new.granted ≡ self.old.granted }
        ensures outstanding { self.new.target.outstanding ≡ 0 }
    {
        self.target.lost();
        self.last = self.target.login();
        self.current = self.last;
        self.taking = true;
        self.last
    }

    /// Counts a request that is taken under the open login.
    pub(crate) fn accept(&mut self) -> Result<(), CreditFault>
        ensures over_limit { IsErrOf result (over_limit self.old.target) ↔
            ((self.old.target.on ≡ true) × (self.old.granted < self.old.target.outstanding + 1)) }
        ensures ok { IsOk result ↔
            ((self.old.target.on ≡ true) × (self.old.target.outstanding + 1 ≤ self.old.granted)) }
        ensures err { OnErr result (self.new ≡ self.old) }
        ensures off { IsErrOf result CreditFault.NotLoggedIn ↔ (self.old.taking ≡ false) }
        ensures more { OnOk result (self.new.target.outstanding ≡
            self.old.target.outstanding + 1) }
        ensures within { self.new.target.outstanding ≤ self.new.granted }
        ensures last { self.new.last ≡ self.old.last }
        ensures current { self.new.current ≡ self.old.current }
        ensures taking { self.new.taking ≡ self.old.taking }
        ensures granted { self.new.granted ≡ self.old.granted }
    {
        self.target.accept()
    }

    /// Counts the answer to a request.
    pub(crate) fn answer(&mut self)
        ensures last { self.new.last ≡ self.old.last }
        ensures current { self.new.current ≡ self.old.current }
        ensures taking { self.new.taking ≡ self.old.taking }
        ensures granted { self.new.granted ≡ self.old.granted }
        ensures less { self.new.target.outstanding ≡ self.old.target.outstanding - 1 }
    {
        if self.target.outstanding() > 0 {
            self.target.answer();
        }
    }

    /// An I_LOGOUT was taken: the login takes no request any more.
    pub(crate) fn close(&mut self)
        ensures last { self.new.last ≡ self.old.last }
        ensures current { self.new.current ≡ self.old.current }
        ensures taking { self.new.taking ≡ false }
        ensures granted { self.new.granted ≡ self.old.granted }
        ensures outstanding { self.new.target.outstanding ≡ self.old.target.outstanding }
    {
        self.target.logout();
        self.taking = false;
    }

    /// Ends the current login, if there is one, and gives its number, else 0.
    pub(crate) fn end(&mut self) -> u64
        ensures ended { result ≡ self.old.current }
        ensures last { self.new.last ≡ self.old.last }
        ensures current { self.new.current ≡ 0 }
        ensures taking { self.new.taking ≡ false }
        ensures granted { self.new.granted ≡ self.old.granted }
    {
        let ended = self.current;
        self.target.lost();
        self.current = 0;
        self.taking = false;
        ended
    }
}
