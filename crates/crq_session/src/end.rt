// The calls of an end of a link, of which the plain form and the shared form are kinds.
ghost use Rattle.std.specs.Prelude.{◌≡◌, ◌↔◌, ◌+◌, ◌<◌, ◌≤◌, Bool, false, List, OnOk};
ghost use Rattle.vio_num.specs.Entry.{first_byte};
ghost use Rattle.crq_ring.specs.declared.rows.PipeRow.{PipeRow};
ghost use Rattle.crq_session.specs.declared.answers.RegAnswer.TheVariants as reg;
ghost use Rattle.crq_session.specs.declared.answers.FreeAnswer.TheVariants as freeing;
ghost use Rattle.crq_session.specs.declared.answers.SendAnswer.TheVariants as sending;
ghost use Rattle.crq_session.specs.declared.answers.PollAnswer.TheVariants as polling;
ghost use Rattle.crq_session.specs.Answers.{OnOpened, OnBoth, IfAlone, IfHeldUp, OnNotRegistered};
ghost use Rattle.crq_session.specs.Answers.{OnFreed, OnNotFreed, IfInUse, OnNothing, OnPut, IfKept};
ghost use Rattle.crq_session.specs.Answers.{IfSent, OnNotSent, OnReached, IfClosed, IfDropped, IfGot, IfEmpty, OnNotPolled};
ghost use Rattle.crq_session.specs.Answered.{fits_own, IsUnregistered, IsRegisteredAt, SendsUnregistered, MaySend};
ghost use Rattle.crq_session.specs.Answered.{Sends, TurnsBack, FindsFull, Takes, FindsNone, Opens, MeetsOpen, FindsClosed};
ghost use Rattle.crq_session.specs.Answered.{HoldsUp, TellsFreed, TellsFailed, FindsInUse, Pushes, PutsNone, StillKept};
ghost use Rattle.crq_session.specs.Control.{IsQueueSize};
ghost use Rattle.crq_session.specs.Heard.{HearsOn};
ghost use Rattle.crq_session.specs.EndState.{EndState, IsLawfulEnd, OnlyReserves, OnlyRegisters, OnlyFrees, OnlySends, OnlyTakes, OnlyPushes};

use crate::answers::{EventAnswer, FreeAnswer, PollAnswer, RegAnswer, SendAnswer};
use vio_num::{Entry, NoMemory};

/// One end of a link: it polls its own queue, and sends to its partner's.
pub trait CrqEnd {
    // Whether others change the link while this end is held: an answer may then come for what they do.
    ghost is_shared: { Bool };

    ghost state: { Self → EndState };

    // What this end knows was put into its own queue, by rows. Of a session that was freed it stays as it
    // is, whatever call comes later: no sender puts anything in it any more.
    ghost heard: { Self → List PipeRow };

    /// The number of slots of the own queue, 256 for each queue page.
    fn slots(&self) -> u32
        ensures slots { result ≡ (state self.now).place.own_slots }
        ensures size { IsQueueSize result };

    /// The number of the own queue's last session, 0 before the first.
    fn session(&self) -> u64
        ensures session { result ≡ (state self.now).last_session }
        ensures laws { IsLawfulEnd (state self.now) };

    /// Makes room for this many calls of each kind. No other call takes memory.
    fn reserve(&mut self, n: u32) -> Result<(), NoMemory>
        ensures room { OnOk result (n ≤ (state self.new).spare) }
        ensures spare { (state self.old).spare ≤ (state self.new).spare }
        ensures rest { OnlyReserves (state self.old) (state self.new) }
        ensures heard { HearsOn (state self.old) (heard self.old) (heard self.new) };

    /// Registers the own queue, whose address and length are in bytes (LoPAR, "H_REG_CRQ"). The kept event
    /// is put first.
    fn register(&mut self, ioba: u64, length: u64) -> RegAnswer
        requires { 0 < (state self.old).spare }
        ensures parameter { (result ≡ reg.Parameter) ↔
            (fits_own (state self.old) ioba length ≡ false) }
        ensures resource { (result ≡ reg.Resource) ↔ IsRegisteredAt (state self.old) ioba length }
        ensures opened { OnOpened result (Opens is_shared (state self.old) (state self.new)) }
        ensures success { OnBoth result (MeetsOpen is_shared (state self.old)) }
        ensures closed { IfAlone result (FindsClosed is_shared (state self.old) (state self.new)) }
        ensures busy { IfHeldUp result (HoldsUp is_shared (state self.old) (state self.new)) }
        ensures refused { OnNotRegistered result (OnlyReserves (state self.old) (state self.new)) }
        ensures spare { (state self.old).spare ≤ (state self.new).spare + 1 }
        ensures rest { OnlyRegisters is_shared (state self.old) (state self.new) }
        ensures heard { HearsOn (state self.old) (heard self.old) (heard self.new) };

    /// Frees the own queue (LoPAR, "H_FREE_CRQ"), and tells the partner that it is free. Entries that were
    /// not taken are lost.
    fn free(&mut self) -> FreeAnswer
        requires { 0 < (state self.old).spare }
        ensures parameter { (result ≡ freeing.Parameter) ↔ IsUnregistered (state self.old) }
        ensures success { OnFreed result (TellsFreed is_shared (state self.old) (state self.new)) }
        ensures busy { IfInUse result (FindsInUse is_shared (state self.old) (state self.new)) }
        ensures refused { OnNotFreed result (OnlyReserves (state self.old) (state self.new)) }
        ensures spare { (state self.old).spare ≤ (state self.new).spare + 1 }
        ensures rest { OnlyFrees is_shared (state self.old) (state self.new) }
        ensures heard { HearsOn (state self.old) (heard self.old) (heard self.new) };

    /// Frees the own queue, and tells the partner that this side failed.
    fn fail(&mut self) -> FreeAnswer
        requires { 0 < (state self.old).spare }
        ensures parameter { (result ≡ freeing.Parameter) ↔ IsUnregistered (state self.old) }
        ensures success { OnFreed result (TellsFailed is_shared (state self.old) (state self.new)) }
        ensures busy { IfInUse result (FindsInUse is_shared (state self.old) (state self.new)) }
        ensures refused { OnNotFreed result (OnlyReserves (state self.old) (state self.new)) }
        ensures spare { (state self.old).spare ≤ (state self.new).spare + 1 }
        ensures rest { OnlyFrees is_shared (state self.old) (state self.new) }
        ensures heard { HearsOn (state self.old) (heard self.old) (heard self.new) };

    /// Sends an entry to the partner's queue (LoPAR, "H_SEND_CRQ"). An answer but `Success` puts nothing.
    fn send(&mut self, entry: Entry) -> SendAnswer
        requires { 0 < (state self.old).spare }
        ensures parameter { (result ≡ sending.Parameter) ↔ (first_byte entry < 0x80) }
        ensures unregistered { (result ≡ sending.NotRegistered) ↔
            SendsUnregistered (state self.old) entry }
        ensures may { OnReached result (MaySend (state self.old) entry) }
        ensures success { IfSent result (Sends is_shared (state self.old) entry (state self.new)) }
        ensures closed { IfClosed result (TurnsBack is_shared (state self.old) (state self.new)) }
        ensures dropped { IfDropped result (FindsFull is_shared (state self.old) (state self.new)) }
        ensures refused { OnNotSent result (OnlyReserves (state self.old) (state self.new)) }
        ensures spare { (state self.old).spare ≤ (state self.new).spare + 1 }
        ensures rest { OnlySends is_shared (state self.old) (state self.new) }
        ensures heard { HearsOn (state self.old) (heard self.old) (heard self.new) };

    /// Takes the next entry of the own queue.
    fn poll(&mut self) -> PollAnswer
        requires { 0 < (state self.old).spare }
        ensures unregistered { (result ≡ polling.NotRegistered) ↔ IsUnregistered (state self.old) }
        ensures got { IfGot result (Takes is_shared (state self.old) (state self.new)) }
        ensures empty { IfEmpty result (FindsNone is_shared (state self.old) (state self.new)) }
        ensures refused { OnNotPolled result (OnlyReserves (state self.old) (state self.new)) }
        ensures spare { (state self.old).spare ≤ (state self.new).spare + 1 }
        ensures rest { OnlyTakes is_shared (state self.old) (state self.new) }
        ensures heard { HearsOn (state self.old) (heard self.old) (heard self.new) };

    /// Puts the event that is kept, if there is one. It is lost where the partner's queue is not registered.
    fn push_event(&mut self) -> EventAnswer
        requires { 0 < (state self.old).spare }
        ensures nothing { OnNothing result (PutsNone is_shared (state self.old) (state self.new)) }
        ensures put { OnPut result (Pushes is_shared (state self.old) (state self.new)) }
        ensures still { IfKept result (StillKept is_shared (state self.old) (state self.new)) }
        ensures spare { (state self.old).spare ≤ (state self.new).spare + 1 }
        ensures rest { OnlyPushes is_shared (state self.old) (state self.new) }
        ensures heard { HearsOn (state self.old) (heard self.old) (heard self.new) };
}
