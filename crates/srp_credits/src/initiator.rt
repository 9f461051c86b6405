// The initiator's side: the request limit of the login that is on, and the tags that are outstanding.
ghost use Rattle.std.specs.Prelude.{◌≡◌, ◌↔◌, ℕ, List, [], ◌∷◌, ◌++◌, ◌+◌, ◌-◌, ◌<◌, ◌≤◌, min, length, IsTrue, Contains, IsOk, IsSomeAnd, IfSome, OnOk, OnErr, IsErrOf};
ghost use Rattle.std.specs.Option.{option_map};
ghost use Rattle.srp_credits.specs.History.{Event, Login, Sent, Answered, Lost, without, IsLawful};
ghost use Rattle.srp_credits.specs.Initiator.{IsAfter, HasHistory};

use crate::fault::CreditFault;
use crate::tags::place_of;
use arrayvec::ArrayVec;
use std::marker::Model;

/// The most requests that a login may have outstanding, whatever it grants.
const MOST: u32 = 200;

/// The credits of an SRP initiator. Contracts see the request limit, in requests, `None` where no login
/// is on, and the outstanding tags.
#[derive(Debug, Drop)]
pub struct Initiator {
    limit: Option<u32>,
    tags: ArrayVec<u64, 200>,
}

impl Model for Initiator {
    ghost use Rattle.srp_credits.specs.Initiator.{InitiatorCredits, HasHistory};

    ghost Value = { InitiatorCredits };

    ghost view = { λ initiator. record { limit = initiator.limit; tags = initiator.tags.items } };

    ghost invariant = { λ initiator. HasHistory (record { limit = initiator.limit; tags = initiator.tags.items }) };
}

impl Initiator {
    /// Not logged in, and nothing is outstanding.
    pub fn new() -> Initiator
        ensures limit { result.limit ≡ None }
        ensures tags { result.tags ≡ [] }
        ensures after { IsAfter [] result }
    {
        Initiator {
            limit: None,
            tags: ArrayVec::new(),
        }
    }

    /// Begins a login with nothing outstanding, which grants `delta` requests; at most 200 count.
    pub fn login(&mut self, delta: u32)
        ensures limit { self.new.limit ≡ Some (min delta 200) }
        ensures tags { self.new.tags ≡ [] }
        ensures after { (es : List Event) → IsAfter es self.old →
            IsAfter (Login delta ∷ es) self.new }
    {
        self.limit = Some(delta.min(MOST));
        self.tags.clear();
    }

    /// Ends the login and forgets what is outstanding.
    pub fn lost(&mut self)
        ensures limit { self.new.limit ≡ None }
        ensures tags { self.new.tags ≡ [] }
        ensures after { (es : List Event) → IsAfter es self.old → IsAfter (Lost ∷ es) self.new }
    {
        self.limit = None;
        self.tags.clear();
    }

    /// Whether a request may be sent now.
    pub fn may_send(&self) -> bool
        ensures { IsTrue result ↔ IsSomeAnd self.now.limit (λ n. 0 < n) }
    {
        matches!(self.limit, Some(limit) if limit > 0)
    }

    /// How many more requests may be sent; `None` where no login is on.
    pub fn limit(&self) -> Option<u32>
        ensures { result ≡ self.now.limit }
    {
        self.limit
    }

    /// The outstanding tags, the oldest first.
    pub fn outstanding(&self) -> &[u64]
        ensures tags { result.now ≡ self.now.tags }
        ensures history { HasHistory self.now }
    {
        self.tags.as_slice()
    }

    /// A request with this tag was sent. A refusal changes nothing.
    pub fn sent(&mut self, tag: u64) -> Result<(), CreditFault>
        requires { ¬ Contains self.old.tags tag }
        ensures not_logged_in { IsErrOf result CreditFault.NotLoggedIn ↔ (self.old.limit ≡ None) }
        ensures no_credit { IsErrOf result (CreditFault.NoCredit 0) ↔ (self.old.limit ≡ Some 0) }
        ensures ok { IsOk result ↔ IsSomeAnd self.old.limit (λ n. 0 < n) }
        ensures limit { OnOk result (IfSome self.old.limit (λ n. self.new.limit ≡ Some (n - 1))) }
        ensures tags { OnOk result (self.new.tags ≡ self.old.tags ++ tag ∷ []) }
        ensures after { (es : List Event) → IsAfter es self.old →
            OnOk result (IsAfter (Sent tag ∷ es) self.new) }
        ensures refused { (es : List Event) → IsAfter es self.old →
            OnErr result (¬ IsLawful (Sent tag ∷ es)) }
        ensures err { OnErr result (self.new ≡ self.old) }
    {
        match self.limit {
            None => Err(CreditFault::NotLoggedIn),
            Some(0) => Err(CreditFault::NoCredit { limit: 0 }),
            Some(limit) => {
                self.limit = Some(limit - 1);
                self.tags.push(tag);
                Ok(())
            }
        }
    }

    /// The request with this tag was answered, and the answer grants `delta` more requests; the limit and
    /// what is outstanding stay at most 200 together. A refusal changes nothing.
    pub fn answered(&mut self, tag: u64, delta: u32) -> Result<(), CreditFault>
        ensures stray { IsErrOf result (CreditFault.StrayTag tag) ↔ (¬ Contains self.old.tags tag) }
        ensures ok { IsOk result ↔ Contains self.old.tags tag }
        ensures limit { OnOk result (self.new.limit ≡
            option_map (λ n. min (n + delta) (200 - length self.new.tags)) self.old.limit) }
        ensures tags { OnOk result (self.new.tags ≡ without tag self.old.tags) }
        ensures after { (es : List Event) → IsAfter es self.old →
            OnOk result (IsAfter (Answered tag delta ∷ es) self.new) }
        ensures refused { (es : List Event) → IsAfter es self.old →
            OnErr result (¬ IsLawful (Answered tag delta ∷ es)) }
        ensures err { OnErr result (self.new ≡ self.old) }
    {
        let Some(place) = place_of(self.tags.as_slice(), tag) else {
            return Err(CreditFault::StrayTag(tag));
        };
        self.tags.remove(place);
        self.limit = raised(self.limit, delta, self.tags.len());
        Ok(())
    }
}

// Computes the request limit after an answer that grants `delta` more requests.
fn raised(limit: Option<u32>, delta: u32, outstanding: usize) -> Option<u32>
    requires { outstanding ≤ 200 }
    ensures { result ≡ option_map (λ n. min (n + delta) (200 - outstanding)) limit }
{
    let most = MOST - outstanding as u32;
    limit.map(|limit| limit.saturating_add(delta).min(most))
}
