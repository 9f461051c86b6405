// The target's side: how many requests a login grants, and how many are accepted and not answered.
ghost use Rattle.std.specs.Prelude.{◌≡◌, ◌↔◌, ℕ, true, false, List, [], ◌∷◌, ◌+◌, ◌-◌, ◌^◌, ◌<◌, ◌≤◌, Contains, IsOk, OnOk, OnErr, IsErrOf};
ghost use Rattle.srp_credits.specs.History.{Event, Login, Sent, Answered, Logout, Lost, outstanding as tags_after, IsWithinGrant};
ghost use Rattle.srp_credits.specs.Target.{TargetIsAfter, TargetHasHistory, over_limit};

use crate::fault::CreditFault;
use std::marker::Model;

/// The credits of an SRP target. Contracts see what it grants, how many logins there were, whether one is
/// on, and how many requests are outstanding.
#[derive(Debug, Drop)]
pub struct Target {
    granted: u8,
    logins: u64,
    logged_in: bool,
    outstanding: u8,
}

impl Model for Target {
    ghost use Rattle.srp_credits.specs.Target.{TargetCredits, TargetHasHistory};

    ghost Value = { TargetCredits };

    ghost view = { λ target. record {
      granted = target.granted;
      logins = target.logins;
      on = target.logged_in;
      outstanding = target.outstanding;
    } };

    ghost invariant = { λ target. TargetHasHistory (record {
      granted = target.granted;
      logins = target.logins;
      on = target.logged_in;
      outstanding = target.outstanding;
    }) };
}

impl Target {
    /// A target whose logins grant `grant` requests; none was on yet.
    pub fn new(grant: u8) -> Target
        requires some { 1 ≤ grant }
        requires few { grant ≤ 200 }
        ensures state { result ≡
            record { granted = grant; logins = 0; on = false; outstanding = 0 } }
        ensures after { TargetIsAfter [] result }
    {
        Target {
            granted: grant,
            logins: 0,
            logged_in: false,
            outstanding: 0,
        }
    }

    /// Begins a login with nothing outstanding, and gives its number, from 1.
    pub fn login(&mut self) -> u64
        requires off { self.old.on ≡ false }
        requires few { self.old.logins < 2 ^ 60 }
        ensures number { result ≡ self.old.logins + 1 }
        ensures state { self.new ≡
            record self.old { logins = self.old.logins + 1; on = true; outstanding = 0 } }
        ensures after { (es : List Event) → TargetIsAfter es self.old →
            TargetIsAfter (Login self.old.granted ∷ es) self.new }
    {
        self.logins += 1;
        self.logged_in = true;
        self.outstanding = 0;
        self.logins
    }

    /// How many requests are accepted and not answered, of those that the login grants.
    pub fn outstanding(&self) -> u32
        ensures outstanding { result ≡ self.now.outstanding }
        ensures history { TargetHasHistory self.now }
    {
        u32::from(self.outstanding)
    }

    /// Takes a request. A refusal changes nothing.
    pub fn accept(&mut self) -> Result<(), CreditFault>
        ensures not_logged_in { IsErrOf result CreditFault.NotLoggedIn ↔ (self.old.on ≡ false) }
        ensures over_limit { IsErrOf result (over_limit self.old) ↔
            ((self.old.on ≡ true) × (self.old.granted < self.old.outstanding + 1)) }
        ensures ok { IsOk result ↔
            ((self.old.on ≡ true) × (self.old.outstanding + 1 ≤ self.old.granted)) }
        ensures state { OnOk result (self.new ≡
            record self.old { outstanding = self.old.outstanding + 1 }) }
        ensures history { TargetHasHistory self.new }
        ensures after { (es : List Event) (tag : ℕ) → TargetIsAfter es self.old →
            OnOk result (TargetIsAfter (Sent tag ∷ es) self.new) }
        ensures refused { (es : List Event) (tag : ℕ) → TargetIsAfter es self.old →
            OnErr result (¬ IsWithinGrant self.old.granted (Sent tag ∷ es)) }
        ensures err { OnErr result (self.new ≡ self.old) }
    {
        if !self.logged_in {
            return Err(CreditFault::NotLoggedIn);
        }
        if self.outstanding >= self.granted {
            return Err(CreditFault::OverLimit {
                outstanding: u32::from(self.outstanding) + 1,
                granted: u32::from(self.granted),
            });
        }
        self.outstanding += 1;
        Ok(())
    }

    /// A request was answered, under the login or after its logout.
    pub fn answer(&mut self)
        requires { 0 < self.old.outstanding }
        ensures state { self.new ≡ record self.old { outstanding = self.old.outstanding - 1 } }
        ensures after { (es : List Event) (tag delta : ℕ) → Contains (tags_after es) tag →
            TargetIsAfter es self.old → TargetIsAfter (Answered tag delta ∷ es) self.new }
    {
        self.outstanding -= 1;
    }

    /// Ends the login. What was accepted stays outstanding until it is answered or the next login begins.
    pub fn logout(&mut self)
        ensures state { self.new ≡ record self.old { on = false } }
        ensures after { (es : List Event) → TargetIsAfter es self.old →
            TargetIsAfter (Logout ∷ es) self.new }
    {
        self.logged_in = false;
    }

    /// Ends the login and forgets what is outstanding.
    pub fn lost(&mut self)
        ensures state { self.new ≡ record self.old { on = false; outstanding = 0 } }
        ensures after { (es : List Event) → TargetIsAfter es self.old →
            TargetIsAfter (Lost ∷ es) self.new }
    {
        self.logged_in = false;
        self.outstanding = 0;
    }
}
