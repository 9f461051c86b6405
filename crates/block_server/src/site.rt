// What a server unit does with its queue and with the two windows.
ghost use Rattle.block_server.specs.Talk.{IsReadWhole, StaysKnown};
ghost use Rattle.std.specs.Prelude.{◌≡◌, ◌↔◌, ◌+◌, ◌<◌, ◌≤◌, Bool, IsErrOf, OnErr, OnOk, false, length, slice_index, true};
ghost use Rattle.crq_ring.specs.declared.TheConstants.{MAX_SLOTS};
ghost use Rattle.tce_window.specs.declared.piece.TheConstants.{MOST_BYTES};
ghost use Rattle.vio_num.specs.declared.TheConstants.{PAGE_BYTES};
ghost use Rattle.srp_desc.specs.declared.pieces.TheConstants.{MAX_DATA_LEN, MAX_TABLE_LEN};
ghost use Rattle.tce_window.specs.declared.answers.Right.TheVariants.{Read, Write};
ghost use Rattle.crq_session.specs.declared.answers.FreeAnswer.TheVariants as freeing;
ghost use Rattle.crq_session.specs.declared.answers.PollAnswer.TheVariants as polling;
ghost use Rattle.crq_session.specs.Answers.{OnOpened, OnNotRegistered, IfHeldUp, OnFreed, OnNotFreed, IfInUse, IfSent, OnNotSent, OnReached, IfClosed, IfDropped, IfGot, IfEmpty, OnNotPolled, OnNothing, OnPut, IfKept};
ghost use Rattle.crq_session.specs.Answered.{Opens, HoldsUp, TellsFreed, FindsInUse, Sends, TurnsBack, FindsFull, Takes, FindsNone, PutsNone, Pushes, StillKept, IsUnregistered};
ghost use Rattle.crq_session.specs.EndState.{OnlyReserves, OnlyRegisters, OnlyFrees, OnlySends, OnlyTakes, OnlyPushes};
ghost use Rattle.rdma_copy.specs.Copies.{MayHold};
ghost use Rattle.block_server.specs.Advances.{Advances};
ghost use Rattle.block_server.specs.Answering.{responses};
ghost use Rattle.block_server.specs.Bearing.{BearsIn, IsShownAs};
ghost use Rattle.block_server.specs.Cargo.{AreShown, FetchesPart, SendsPart, data_bytes, pages_of};
ghost use Rattle.block_server.specs.Copied.{own_name};
ghost use Rattle.block_server.specs.Delivers.{DeliversOne, FetchesTo};
ghost use Rattle.block_server.specs.Entries.{MayPut};
ghost use Rattle.block_server.specs.LoginAnswers.{login_answers};
ghost use Rattle.block_server.specs.Moves.{FetchesOne, Passes};
ghost use Rattle.block_server.specs.Standing.{Stands};
ghost use Rattle.block_server.specs.Ranges.{IsRange, LaysIn, client_known};
ghost use Rattle.block_server.specs.SiteState.{IsDeniedBetween, SiteState, SameWindows};
ghost use Rattle.block_server.specs.Waits.{MeetsUse};

use crq_session::{EventAnswer, FreeAnswer, PollAnswer, RegAnswer, SendAnswer};
use vio_num::{Entry, NoMemory};

/// Why a copy was not made.
#[derive(Clone, Copy, Debug, PartialEq, Eq)]
pub(crate) enum Halt {
    /// A window refused it.
    Refused,
    /// A page is in use.
    Busy,
    NoMemory,
}

/// The queue of a server unit, its own window and its client's, and the list to which each copy is added.
pub(crate) trait Site {
    // Whether others change the link.
    ghost link_shared: { Bool };

    // What the unit knows of its queue's end, of its own window and of its client's.
    ghost state: { Self → SiteState };

    /// The number of slots of the own queue.
    fn slots(&self) -> u32
        ensures slots { result ≡ (state self.now).queue.place.own_slots }
        ensures some { 1 ≤ result }
        ensures few { result ≤ MAX_SLOTS };

    /// The number of the own queue's last session.
    fn session(&self) -> u64
        ensures { result ≡ (state self.now).queue.last_session };

    /// Makes room for this many calls of the queue.
    fn reserve(&mut self, n: u32) -> Result<(), NoMemory>
        ensures room { OnOk result (n ≤ (state self.new).queue.spare) }
        ensures rest { OnlyReserves (state self.old).queue (state self.new).queue }
        ensures windows { SameWindows (state self.old) (state self.new) }
        ensures advances { Advances (state self.old) (state self.new) }
        ensures passes { Passes (state self.old) (state self.new) };

    /// Registers the own queue, all of it.
    fn register(&mut self) -> RegAnswer
        requires { 0 < (state self.old).queue.spare }
        ensures opened { OnOpened result
            (Opens link_shared (state self.old).queue (state self.new).queue) }
        ensures busy { IfHeldUp result
            (HoldsUp link_shared (state self.old).queue (state self.new).queue) }
        ensures refused { OnNotRegistered result
            (OnlyReserves (state self.old).queue (state self.new).queue) }
        ensures stands { OnNotRegistered result ((state self.old).queue.registered ≡ true) }
        ensures plain { responses (state self.new).queue.sent ≡
            responses (state self.old).queue.sent }
        ensures logins { login_answers (state self.new).queue.sent ≡
            login_answers (state self.old).queue.sent }
        ensures spare { (state self.old).queue.spare ≤ (state self.new).queue.spare + 1 }
        ensures rest { OnlyRegisters link_shared (state self.old).queue (state self.new).queue }
        ensures windows { SameWindows (state self.old) (state self.new) }
        ensures advances { Advances (state self.old) (state self.new) };

    /// Frees the own queue.
    fn free(&mut self) -> FreeAnswer
        requires { 0 < (state self.old).queue.spare }
        ensures parameter { (result ≡ freeing.Parameter) ↔ IsUnregistered (state self.old).queue }
        ensures success { OnFreed result
            (TellsFreed link_shared (state self.old).queue (state self.new).queue) }
        ensures busy { IfInUse result
            (FindsInUse link_shared (state self.old).queue (state self.new).queue) }
        ensures refused { OnNotFreed result
            (OnlyReserves (state self.old).queue (state self.new).queue) }
        ensures plain { responses (state self.new).queue.sent ≡
            responses (state self.old).queue.sent }
        ensures logins { login_answers (state self.new).queue.sent ≡
            login_answers (state self.old).queue.sent }
        ensures spare { (state self.old).queue.spare ≤ (state self.new).queue.spare + 1 }
        ensures rest { OnlyFrees link_shared (state self.old).queue (state self.new).queue }
        ensures windows { SameWindows (state self.old) (state self.new) }
        ensures advances { Advances (state self.old) (state self.new) }
        ensures passes { Passes (state self.old) (state self.new) };

    /// Sends an entry to the client's queue.
    fn send(&mut self, entry: Entry) -> SendAnswer
        requires room { 0 < (state self.old).queue.spare }
        requires may { MayPut entry }
        ensures told { OnReached result ((state self.old).queue.registered ≡ true) }
        ensures unregistered { OnNotSent result ((state self.old).queue.registered ≡ false) }
        ensures success { IfSent result
            (Sends link_shared (state self.old).queue entry (state self.new).queue) }
        ensures closed { IfClosed result
            (TurnsBack link_shared (state self.old).queue (state self.new).queue) }
        ensures dropped { IfDropped result
            (FindsFull link_shared (state self.old).queue (state self.new).queue) }
        ensures refused { OnNotSent result
            (OnlyReserves (state self.old).queue (state self.new).queue) }
        ensures spare { (state self.old).queue.spare ≤ (state self.new).queue.spare + 1 }
        ensures rest { OnlySends link_shared (state self.old).queue (state self.new).queue }
        ensures windows { SameWindows (state self.old) (state self.new) }
        ensures advances { Advances (state self.old) (state self.new) }
        ensures passes { Passes (state self.old) (state self.new) };

    /// Takes the next entry of the own queue.
    fn poll(&mut self) -> PollAnswer
        requires { 0 < (state self.old).queue.spare }
        ensures unregistered { (result ≡ polling.NotRegistered) ↔
            IsUnregistered (state self.old).queue }
        ensures got { IfGot result
            (Takes link_shared (state self.old).queue (state self.new).queue) }
        ensures empty { IfEmpty result
            (FindsNone link_shared (state self.old).queue (state self.new).queue) }
        ensures refused { OnNotPolled result
            (OnlyReserves (state self.old).queue (state self.new).queue) }
        ensures spare { (state self.old).queue.spare ≤ (state self.new).queue.spare + 1 }
        ensures rest { OnlyTakes link_shared (state self.old).queue (state self.new).queue }
        ensures windows { SameWindows (state self.old) (state self.new) }
        ensures advances { Advances (state self.old) (state self.new) };

    /// Puts the event that is kept, if there is one.
    fn push_event(&mut self) -> EventAnswer
        requires { 0 < (state self.old).queue.spare }
        ensures nothing { OnNothing result
            (PutsNone link_shared (state self.old).queue (state self.new).queue) }
        ensures put { OnPut result
            (Pushes link_shared (state self.old).queue (state self.new).queue) }
        ensures still { IfKept result
            (StillKept link_shared (state self.old).queue (state self.new).queue) }
        ensures plain { responses (state self.new).queue.sent ≡
            responses (state self.old).queue.sent }
        ensures logins { login_answers (state self.new).queue.sent ≡
            login_answers (state self.old).queue.sent }
        ensures spare { (state self.old).queue.spare ≤ (state self.new).queue.spare + 1 }
        ensures rest { OnlyPushes link_shared (state self.old).queue (state self.new).queue }
        ensures windows { SameWindows (state self.old) (state self.new) }
        ensures advances { Advances (state self.old) (state self.new) }
        ensures passes { Passes (state self.old) (state self.new) };

    /// Copies an information unit of 1 to 256 bytes from this address of the client's window to page 0, and reads
    /// it.
    fn fetch_unit(&mut self, address: u64, out: &mut [u8]) -> Result<(), Halt>
        requires some { 1 ≤ length out.old }
        requires few { length out.old ≤ 256 }
        ensures refused { IsErrOf result Halt.Refused →
            IsDeniedBetween (state self.old) (state self.new) Read address (length out.old) }
        ensures busy { IsErrOf result Halt.Busy →
            MeetsUse (state self.old) (state self.new) }
        ensures queue { (state self.new).queue ≡ (state self.old).queue }
        ensures advances { Advances (state self.old) (state self.new) }
        ensures fetched { OnOk result
            (FetchesOne (state self.old) (state self.new) address out.new) }
        ensures missed { OnErr result (Passes (state self.old) (state self.new)) }
        ensures whole { OnOk result
            (IsReadWhole (state self.new).client address out.new) }
        ensures client { (state self.old).shared ≡ false →
            StaysKnown (state self.old).client (state self.new).client }
        ensures data { pages_of (state self.new) ≡ pages_of (state self.old) };

    /// Copies a table of 1 to 4,096 bytes from this address of the client's window to page 1, and reads it.
    fn fetch_table(&mut self, address: u64, out: &mut [u8]) -> Result<(), Halt>
        requires some { 1 ≤ length out.old }
        requires few { length out.old ≤ MAX_TABLE_LEN }
        ensures refused { IsErrOf result Halt.Refused →
            IsDeniedBetween (state self.old) (state self.new) Read address (length out.old) }
        ensures busy { IsErrOf result Halt.Busy →
            MeetsUse (state self.old) (state self.new) }
        ensures queue { (state self.new).queue ≡ (state self.old).queue }
        ensures advances { Advances (state self.old) (state self.new) }
        ensures passes { Passes (state self.old) (state self.new) }
        ensures fetched { OnOk result
            (FetchesTo (state self.old) (state self.new) address PAGE_BYTES out.new) }
        ensures none { OnErr result ((state self.new).copies ≡ (state self.old).copies) }
        ensures known { client_known (state self.new) ≡ client_known (state self.old) }
        ensures whole { OnOk result
            (IsReadWhole (state self.new).client address out.new) };

    /// Writes an information unit of 1 to 256 bytes to page 0, and copies it over this address of the client's
    /// window.
    fn deliver_unit(&mut self, address: u64, bytes: &[u8], mark: u64) -> Result<(), Halt>
        requires some { 1 ≤ length bytes.now }
        requires few { length bytes.now ≤ 256 }
        ensures refused { IsErrOf result Halt.Refused → IsDeniedBetween
            (state self.old) (state self.new) Write address (length bytes.now) }
        ensures busy { IsErrOf result Halt.Busy →
            MeetsUse (state self.old) (state self.new) }
        ensures queue { (state self.new).queue ≡ (state self.old).queue }
        ensures advances { Advances (state self.old) (state self.new) }
        ensures passes { Passes (state self.old) (state self.new) }
        ensures delivered { OnOk result
            (DeliversOne (state self.old) (state self.new) 0 address mark bytes.now) }
        ensures may { OnOk result ((state self.old).shared ≡ false →
            MayHold (state self.old).client Write address (length bytes.now)) }
        ensures none { OnErr result ((state self.new).copies ≡ (state self.old).copies) }
        ensures data { pages_of (state self.new) ≡ pages_of (state self.old) }
        ensures wrote { LaysIn (IsRange address (length bytes.now))
            (client_known (state self.old)) (client_known (state self.new)) }
        ensures bears { BearsIn (IsShownAs (own_name (state self.old).own mark) address
            (length bytes.now) (slice_index bytes.now))
            (client_known (state self.old)) (client_known (state self.new)) }
        ensures laid { OnOk result (Stands (state self.new).client
            (own_name (state self.old).own mark) address bytes.now) }
        ensures missed { OnErr result
            (client_known (state self.new) ≡ client_known (state self.old)) };

    /// Copies data from this address of the client's window to a place of the data's pages.
    fn fetch_data(&mut self, at: u32, address: u64, len: u32) -> Result<(), Halt>
        requires some { 1 ≤ len }
        requires few { len ≤ MOST_BYTES }
        requires inside { at + len ≤ MAX_DATA_LEN }
        ensures refused { IsErrOf result Halt.Refused →
            IsDeniedBetween (state self.old) (state self.new) Read address len }
        ensures busy { IsErrOf result Halt.Busy →
            MeetsUse (state self.old) (state self.new) }
        ensures queue { (state self.new).queue ≡ (state self.old).queue }
        ensures advances { Advances (state self.old) (state self.new) }
        ensures passes { Passes (state self.old) (state self.new) }
        ensures none { OnErr result ((state self.new).copies ≡ (state self.old).copies) }
        ensures brought { OnOk result
            (FetchesPart (state self.old) (state self.new) address at len) }
        ensures kept { OnErr result
            (pages_of (state self.new) ≡ pages_of (state self.old)) }
        ensures known { client_known (state self.new) ≡ client_known (state self.old) };

    /// Reads the first bytes of the data's pages.
    fn read_data(&mut self, out: &mut [u8])
        requires { length out.old ≤ MAX_DATA_LEN }
        ensures queue { (state self.new).queue ≡ (state self.old).queue }
        ensures advances { Advances (state self.old) (state self.new) }
        ensures passes { Passes (state self.old) (state self.new) }
        ensures none { (state self.new).copies ≡ (state self.old).copies }
        ensures data { pages_of (state self.new) ≡ pages_of (state self.old) }
        ensures read { AreShown (data_bytes (state self.new).own) out.new }
        ensures known { client_known (state self.new) ≡ client_known (state self.old) };

    /// Writes the first bytes of the data's pages.
    fn write_data(&mut self, bytes: &[u8], mark: u64) -> Result<(), NoMemory>
        requires { length bytes.now ≤ MAX_DATA_LEN }
        ensures queue { (state self.new).queue ≡ (state self.old).queue }
        ensures advances { Advances (state self.old) (state self.new) }
        ensures passes { Passes (state self.old) (state self.new) }
        ensures none { (state self.new).copies ≡ (state self.old).copies }
        ensures shown { OnOk result (AreShown (data_bytes (state self.new).own) bytes.now) }
        ensures known { client_known (state self.new) ≡ client_known (state self.old) };

    /// Copies data from a place of the data's pages to this address of the client's window.
    fn deliver_data(&mut self, at: u32, address: u64, len: u32, mark: u64) -> Result<(), Halt>
        requires some { 1 ≤ len }
        requires few { len ≤ MOST_BYTES }
        requires inside { at + len ≤ MAX_DATA_LEN }
        ensures refused { IsErrOf result Halt.Refused →
            IsDeniedBetween (state self.old) (state self.new) Write address len }
        ensures busy { IsErrOf result Halt.Busy →
            MeetsUse (state self.old) (state self.new) }
        ensures queue { (state self.new).queue ≡ (state self.old).queue }
        ensures advances { Advances (state self.old) (state self.new) }
        ensures passes { Passes (state self.old) (state self.new) }
        ensures none { OnErr result ((state self.new).copies ≡ (state self.old).copies) }
        ensures data { data_bytes (state self.new).own ≡ data_bytes (state self.old).own }
        ensures sent { OnOk result
            (SendsPart (state self.old) (state self.new) at address len mark) }
        ensures wrote { LaysIn (IsRange address len)
            (client_known (state self.old)) (client_known (state self.new)) }
        ensures bears { BearsIn (IsShownAs (own_name (state self.old).own mark) address len
            (λ k. data_bytes (state self.old).own (at + k)))
            (client_known (state self.old)) (client_known (state self.new)) }
        ensures missed { OnErr result
            (client_known (state self.new) ≡ client_known (state self.old)) };
}
