// The calls of a window, of its owner and of a guest, of which the plain and the shared form are kinds.
ghost use Rattle.std.specs.Prelude.{◌≡◌, ◌↔◌, ℕ, ◌+◌, ◌*◌, ◌<◌, ◌≤◌, [], ◌∷◌, All, Bool, false, Some, length, replicate, slice_get, IsTrue, IfOk, IfErr, IsErrOf, OnOk, OnErr};
ghost use Rattle.vio_num.specs.declared.TheConstants.{PAGE_BYTES};
ghost use Rattle.tce_window.specs.declared.piece.TheConstants.{MOST_BYTES};
ghost use Rattle.tce_window.specs.PortState.{PortState, HasAllPages, contains, AreInPlace, Holds, Reads, Writes, Puts, MeetsPins, FindsInUse, FindsStale, LaysNone, LaysNothing, HoldsNone, Lays, places_since, OnlyPuts, OnlyReads, OnlyWrites, OnlyHolds, OnlyGivesBack};
ghost use Rattle.tce_window.specs.Port.{CountsPut, CountsOwn, CountsNamed, CountsHold, NamesFound};
ghost use Rattle.tce_window.specs.Puts.{takes, takes_all, put_by};
ghost use Rattle.tce_window.specs.Region.{first_page, end_page};
ghost use Rattle.tce_window.specs.Named.{AreFresh};
ghost use Rattle.tce_window.specs.Pieces.{IsRefused, IsSharedUse};
ghost use Rattle.tce_window.specs.Held.{HeldValue, held_strokes, either};
ghost use Rattle.tce_window.specs.Moved.{Follows};
ghost use Rattle.tce_window.specs.Strokes.{AllWithin};
ghost use Rattle.tce_window.specs.Answers.{IfBusy, IfInUse, IfNamedInUse, IfStale, gives};

use crate::answers::{GetTce, HoldFault, NamedFault, OwnFault, Right, TceAnswer};
use crate::held::Held;
use page_slots::StrokeName;
use vio_num::NoMemory;

/// What a port of a window knows of it. On the plain form that is all there is; on a shared form others
/// may have put more values and laid more strokes.
pub trait WindowPort {
    // Whether others have a hand in the window too. If not, what the port knows is all there is.
    ghost is_shared: { Bool };

    // What is known of the window: its pages, its entries, and what is held.
    ghost state: { Self → PortState };

    // Version 0 of entry e grants all that may be done with page e.
    ghost begins: { (port : Self) (e : ℕ) → slice_get ((state port).values e) 0 ≡ Some (PAGE_BYTES * e + 3) };
}

/// The owner of a window and of the region behind it.
pub trait OwnerPort: WindowPort {
    // The values for which room is reserved.
    ghost spare: { Self → ℕ };

    /// The number of pages of the region, 1 to 256.
    fn pages(&self) -> u16
        ensures pages { result ≡ (Self.state self.now).place.size }
        ensures least { 1 ≤ result }
        ensures most { result ≤ 256 }
        ensures there { HasAllPages (Self.state self.now) }
        ensures within { AllWithin (Self.state self.now).strokes };

    /// Makes room for at least this many values.
    fn reserve(&mut self, puts: u32) -> Result<(), NoMemory>
        ensures ok { OnOk result (puts ≤ spare self.new) }
        ensures spare { spare self.old ≤ spare self.new }
        ensures rest { Self.state self.new ≡ Self.state self.old };

    /// Puts the value into the entry of this address, as its next version. An entry that is held keeps its
    /// value.
    fn put_tce(&mut self, ioba: u64, tce: u64) -> TceAnswer
        requires { 1 ≤ spare self.old }
        ensures parameter { (result ≡ TceAnswer.Parameter) ↔
            (takes (Self.state self.old).place.size ioba tce ≡ false) }
        ensures busy { IfBusy result (MeetsPins Self.is_shared (Self.state self.old) ioba
            (tce ∷ [])) }
        ensures put { Puts (Self.state self.old) ioba (put_by result (tce ∷ []))
            (Self.state self.new) }
        ensures spare { spare self.old ≤ spare self.new + length (put_by result (tce ∷ [])) }
        ensures counts { CountsPut result (Self.state self.old).in_use
            (Self.state self.new).in_use }
        ensures rest { OnlyPuts (Self.state self.old) (Self.state self.new) };

    /// Puts one value into `count` entries from this address on, up to the first one that is held.
    fn stuff_tce(&mut self, ioba: u64, tce: u64, count: u64) -> TceAnswer
        requires { count ≤ 512 → count ≤ spare self.old }
        ensures parameter { (result ≡ TceAnswer.Parameter) ↔
            (takes_all (Self.state self.old).place.size ioba (replicate count tce) ≡ false) }
        ensures busy { IfBusy result (MeetsPins Self.is_shared (Self.state self.old) ioba
            (replicate count tce)) }
        ensures put { Puts (Self.state self.old) ioba (put_by result (replicate count tce))
            (Self.state self.new) }
        ensures spare { spare self.old ≤ spare self.new + length
            (put_by result (replicate count tce)) }
        ensures counts { CountsPut result (Self.state self.old).in_use
            (Self.state self.new).in_use }
        ensures rest { OnlyPuts (Self.state self.old) (Self.state self.new) };

    /// Puts a list of values into consecutive entries from this address on, up to the first one that is held.
    fn put_tce_indirect(&mut self, ioba: u64, list: &[u64]) -> TceAnswer
        requires { length list.now ≤ 512 → length list.now ≤ spare self.old }
        ensures parameter { (result ≡ TceAnswer.Parameter) ↔
            (takes_all (Self.state self.old).place.size ioba list.now ≡ false) }
        ensures busy { IfBusy result (MeetsPins Self.is_shared (Self.state self.old) ioba
            list.now) }
        ensures put { Puts (Self.state self.old) ioba (put_by result list.now)
            (Self.state self.new) }
        ensures spare { spare self.old ≤ spare self.new + length (put_by result list.now) }
        ensures counts { CountsPut result (Self.state self.old).in_use
            (Self.state self.new).in_use }
        ensures rest { OnlyPuts (Self.state self.old) (Self.state self.new) };

    /// The value of the entry of this address.
    fn get_tce(&mut self, ioba: u64) -> GetTce
        ensures value { gives (Self.state self.old).place.size
            (Self.state self.new).values ioba result }
        ensures spare { spare self.old ≤ spare self.new }
        ensures rest { Self.state self.new ≡ Self.state self.old };

    /// Copies the bytes of the region from the address on, 1 to 65,536 of them. Where it refuses, `out` is
    /// as before.
    fn read(&mut self, at: u64, out: &mut [u8]) -> Result<(), OwnFault>
        ensures ok { OnOk result (Reads (Self.state self.new) at out.new) }
        ensures range { IsErrOf result OwnFault.Range ↔
            (contains (Self.state self.old) at (length out.old) ≡ false) }
        ensures in_use { IfInUse result
            (λ page _. FindsInUse Self.is_shared (Self.state self.old) at (length out.old) page) }
        ensures memory { ¬ IsErrOf result OwnFault.NoMemory }
        ensures err { OnErr result (out.new ≡ out.old) }
        ensures spare { spare self.old ≤ spare self.new }
        ensures counts { CountsOwn result (Self.state self.old).in_use
            (Self.state self.new).in_use }
        ensures rest { OnlyReads Self.is_shared (Self.state self.old) (Self.state self.new) };

    /// Writes the bytes over the region from the address on, 1 to 65,536 of them: one stroke on each page
    /// that they touch, named by the unit and the mark. Where it refuses, it lays no stroke.
    fn write(&mut self, at: u64, bytes: &[u8], mark: u64) -> Result<(), OwnFault>
        ensures ok { OnOk result (Writes Self.is_shared (Self.state self.old) at bytes.now mark
            (Self.state self.new)) }
        ensures range { IsErrOf result OwnFault.Range ↔
            (contains (Self.state self.old) at (length bytes.now) ≡ false) }
        ensures in_use { IfInUse result
            (λ page _. FindsInUse Self.is_shared (Self.state self.old) at (length bytes.now) page) }
        ensures memory { IsErrOf result OwnFault.NoMemory
            → IsTrue (contains (Self.state self.old) at (length bytes.now))
            × AreInPlace (Self.state self.new) at (length bytes.now) }
        ensures err { OnErr result (LaysNone Self.is_shared (Self.state self.old)
            (Self.state self.new)) }
        ensures spare { spare self.old ≤ spare self.new }
        ensures counts { CountsOwn result (Self.state self.old).in_use
            (Self.state self.new).in_use }
        ensures rest { OnlyWrites (Self.state self.old) (Self.state self.new) };

    /// Copies the bytes of the region from the address on, 1 to 65,536 of them, if on each page that they
    /// touch the last strokes are of this name and cover them. Where it refuses, `out` is as before.
    fn read_named(&mut self, at: u64, out: &mut [u8], name: StrokeName) -> Result<(), NamedFault>
        ensures ok { OnOk result (Reads (Self.state self.new) at out.new) }
        ensures fresh { OnOk result (AreFresh name at (length out.old) (Self.state self.new).strokes
            (first_page at) (end_page at (length out.old))) }
        ensures range { IsErrOf result NamedFault.Range ↔
            (contains (Self.state self.old) at (length out.old) ≡ false) }
        ensures in_use { IfNamedInUse result
            (λ page _. FindsInUse Self.is_shared (Self.state self.old) at (length out.old) page) }
        ensures stale { IfStale result (FindsStale name (Self.state self.new) at (length out.old)) }
        ensures err { OnErr result (out.new ≡ out.old) }
        ensures spare { spare self.old ≤ spare self.new }
        ensures counts { CountsNamed result (Self.state self.old).in_use
            (Self.state self.new).in_use }
        ensures rest { OnlyReads Self.is_shared (Self.state self.old) (Self.state self.new) };
}

/// A guest of a window, which copies between its ranges.
pub trait GuestPort: WindowPort {
    // Whether it is the range that the port's last hold answered, which may have been written through.
    ghost fits: { Self → HeldValue → Type 0 };

    // Whether the port's last hold found this page in use, by this word of it.
    ghost found: { Self → ℕ → ℕ → Type 0 };

    /// Holds a range of 1 to 65,536 bytes for this right, if the port holds nothing. Until it is given back
    /// its entries keep their values and its pages are in the holder's hand. Where it refuses, nothing is
    /// held.
    fn hold(&mut self, ioba: u64, len: u32, right: Right) -> Result<Held, HoldFault>
        requires free { (Self.state self.old).held_count ≡ 0 }
        requires len { (1 ≤ len) × (len ≤ MOST_BYTES) }
        ensures ok { IfOk result (Holds Self.is_shared (Self.state self.old) ioba len right
            (Self.state self.new)) }
        ensures fits { IfOk result (λ held. fits self.new held) }
        ensures cause { IfErr result (λ fault. IsRefused (Self.state self.new).values right
            (Self.state self.old).place.size ioba len fault) }
        ensures found { IfErr result (NamesFound (found self.new)) }
        ensures shared { IfErr result (IsSharedUse Self.is_shared) }
        ensures err { OnErr result (HoldsNone Self.is_shared (Self.state self.old)
            (Self.state self.new)) }
        ensures nothing { LaysNothing Self.is_shared (Self.state self.old) (Self.state self.new) }
        ensures counts { CountsHold result (Self.state self.old).in_use
            (Self.state self.new).in_use }
        ensures rest { OnlyHolds Self.is_shared (Self.state self.old) (Self.state self.new) };

    /// Gives the range back that the last hold of this port answered: its entries may take values again, and
    /// its pages are in their places with all their strokes.
    fn give_back(&mut self, held: Held)
        requires { fits self.old held }
        ensures strokes { (p : ℕ) → (Self.state self.new).strokes p ≡ either
            ((Self.state self.old).strokes p) (held_strokes held.pages p) }
        ensures laid { Lays Self.is_shared (places_since (Self.state self.old).taken held)
            (Self.state self.old) (Self.state self.new) }
        ensures free { (Self.state self.new).held_count ≡ 0 }
        ensures rest { OnlyGivesBack (Self.state self.old) (Self.state self.new) };

    // A range that was written through is still the one that is to be given back.
    ghost written_fits: { (port : Self) (old new : HeldValue) → fits port old → Follows old new → fits port new };
}
