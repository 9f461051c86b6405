// Which slot the next unit has.
ghost use Rattle.std.specs.Prelude.{◌≡◌, ◌<◌, ◌||◌, ℕ, Bool, MatchOption, None, Some, length, slice_get};
ghost use Rattle.vscsi_client.specs.State.{is_asked, is_slot, is_used, IsFull, IsLeastFree, IsLoginSlot, IsNextSlot, IsTheLogins};

use crate::SLOTS;
use crate::client::Client;
use crate::outgoing::Outgoing;
use crate::stage::Stage;

// Marks this slot, where there is one, and it is one of those that there are.
fn mark(used: &mut [bool; 200], slot: Option<u64>)
    ensures { (place : ℕ) (was : Bool) → slice_get used.old place ≡ Some was →
        slice_get used.new place ≡ Some (was || is_slot slot place) }
{
    if let Some(slot) = slot {
        if slot < SLOTS {
            used[slot as usize] = true;
        }
    }
}

// Marks each slot that one of these requests has.
fn asked_slots(outgoing: &[Outgoing]) -> [bool; 200]
    ensures { (place : ℕ) → place < SLOTS →
        slice_get result place ≡ Some (is_asked outgoing.now place) }
{
    let mut used = [false; 200];
    for request in outgoing {
        mark(&mut used, Some(request.slot));
    }
    used
}

impl Client {
    // Marks each slot whose unit may be unread, or whose answer is awaited.
    fn used_slots(&self) -> [bool; 200]
        ensures { (place : ℕ) → place < SLOTS →
            slice_get result place ≡ Some (is_used self.now place) }
    {
        let mut used = asked_slots(&self.outgoing);
        mark(&mut used, self.login.slot());
        mark(&mut used, self.logout);
        used
    }

    // Finds the least slot that is not used.
    fn free_slot(&self) -> Option<u64>
        ensures { MatchOption result (IsFull (is_used self.now))
            (λ slot. IsLeastFree (is_used self.now) slot) }
    {
        let used = self.used_slots();
        let place = used.iter().position(|used| !*used)?;
        Some(place as u64)
    }

    /// The slot of a login: the place behind all slots where none is free.
    pub(crate) fn login_slot(&self) -> u64
        ensures { IsLoginSlot self.now result }
    {
        match self.free_slot() {
            Some(slot) => slot,
            None => SLOTS,
        }
    }

    /// The slot of a command, a task or a logout: that of a login under way where none is free.
    pub(crate) fn next_slot(&self) -> u64
        requires few { length self.now.outgoing < 200 }
        requires over { self.now.logout ≡ None }
        ensures next { IsNextSlot self.now result }
        ensures within { result < SLOTS }
    {
        match self.free_slot() {
            Some(slot) => slot,
            None => self.slot_of_login(),
        }
    }

    // Gives the slot of a login that is under way, where no slot is free.
    fn slot_of_login(&self) -> u64
        requires full { IsFull (is_used self.now) }
        requires few { length self.now.outgoing < 200 }
        requires over { self.now.logout ≡ None }
        ensures { IsTheLogins (is_used self.now) self.now.outgoing self.now.login result }
    {
        match self.login {
            Stage::Written { tag: _, slot } => slot,
            Stage::Sent { tag: _, slot } => slot,
            Stage::Idle => unreachable!(),
        }
    }
}
