// The plain form of a window: its table of values, the pages of its region, and the range that is held
// (LoPAR, "H_PUT_TCE", "H_STUFF_TCE", "H_PUT_TCE_INDIRECT", "H_GET_TCE").
ghost use Rattle.std.specs.Prelude.{◌≡◌, ◌↔◌, ℕ, ◌+◌, ◌-◌, ◌*◌, ◌/◌, ◌%◌, ◌^◌, ◌<◌, ◌≤◌, All, Some, None, IsSome, IsTrue, false, true, IfOk, IfErr, IsErrOf, OnOk, OnErr, [], ◌∷◌, max, min, length, replicate, slice_get, slice_index, is_some, if◌then◌else◌};
ghost use Rattle.tce_window.specs.declared.piece.TheConstants.{MOST_BYTES};
ghost use Rattle.tce_window.specs.Answers.{IfInUse, IfNamedInUse, IfStale, times_in_use, times_own, times_named, gives};
ghost use Rattle.tce_window.specs.Grant.{AreNumbered, grants, told, values_of};
ghost use Rattle.tce_window.specs.Held.{held_len, held_strokes, either};
ghost use Rattle.tce_window.specs.Lent.{IsLentBy};
ghost use Rattle.tce_window.specs.Named.{AreFresh, IsFirstStale};
ghost use Rattle.tce_window.specs.Pieces.{IsPieceAt, Touches, IsGranted, IsLast, HasStrokes, IsUsable, MayUse, IsRefused, IsRefusedAt, IsOfEntry};
ghost use Rattle.tce_window.specs.PlainPort.{known_of, MayTake, MayTakeEach};
ghost use Rattle.tce_window.specs.PortState.{Holds, Reads};
ghost use Rattle.tce_window.specs.Puts.{takes, takes_each, takes_all, put_rows, put_by, put_answer};
ghost use Rattle.tce_window.specs.Region.{in_region, first_page, end_page, IsInPlace, ReadsRange, region_byte, IsAwayFirst, written};
ghost use Rattle.tce_window.specs.Window.{blank_page, holds, strokes_at, AllThere};
ghost use Rattle.tce_window.specs.Strokes.{AllWithin};

use crate::answers::{GetTce, HoldFault, NamedFault, OwnFault, Right, TceAnswer, TceRow};
use crate::held::Held;
use crate::piece::{MOST_PIECES, Piece};
use crate::region::Region;
use crate::table::{MOST_PUTS, TceTable};
use arrayvec::ArrayVec;
use page_slots::{Page, Stroke, StrokeName};
use std::alloc::Global;
use std::marker::Model;
use vio_num::{NoMemory, PAGE_BYTES, UnitId};

/// The word of a page that is held.
const TAKEN: u64 = 1;

/// A window over the pages of a unit's region, owner and guest in one hand. At most one range of it is
/// held at a time; the pages of that range are then away.
#[derive(Debug, Drop)]
pub struct PlainWindow {
    pub(crate) alloc: Global,
    pub(crate) unit: UnitId,
    pub(crate) table: TceTable,
    pub(crate) region: Region,
    pub(crate) held_from: usize,
    pub(crate) held_count: usize,
    pub(crate) in_use: u64,
}

impl Model for PlainWindow {
    ghost use Rattle.std.specs.Prelude.{◌≡◌, length};
    ghost use Rattle.tce_window.specs.Window.{WindowValue, KeepsPages};

    ghost Value = { WindowValue };

    ghost view = { λ window. record {
      unit = window.unit;
      pages = window.region;
      rows = window.table.rows;
      spare = window.table.spare;
      held_from = window.held_from;
      held_count = window.held_count;
      in_use = window.in_use;
    } };

    ghost invariant = { λ window. record {
      size : window.table.size ≡ length window.region;
      kept : KeepsPages window.region window.held_from window.held_count;
    } };
}

impl PlainWindow {
    /// A window of 1 to 256 pages of zeros, in which entry i has the value `i * PAGE_BYTES + 3`.
    pub fn open(alloc: Global, unit: UnitId, pages: u16) -> Result<PlainWindow, NoMemory>
        requires { (1 ≤ pages) × (pages ≤ 256) }
        ensures { IfOk result (λ window. window ≡ record {
          unit = unit;
          pages = replicate pages blank_page;
          rows = [];
          spare = 0;
          held_from = 0;
          held_count = 0;
          in_use = 0;
        }) }
    {
        let table = TceTable::open(alloc, pages)?;
        let region = Region::zero(alloc, pages)?;
        Ok(PlainWindow {
            alloc,
            unit,
            table,
            region,
            held_from: 0,
            held_count: 0,
            in_use: 0,
        })
    }

    /// A window over a region of which each page is in its place, with the values of a table of as many
    /// entries. Words were read in use this often.
    pub fn of_parts(
        alloc: Global,
        unit: UnitId,
        table: TceTable,
        region: Region,
        in_use: u64,
    ) -> PlainWindow
        requires size { table.size ≡ length region }
        requires there { AllThere region }
        ensures { result ≡ record {
          unit = unit;
          pages = region;
          rows = table.rows;
          spare = table.spare;
          held_from = 0;
          held_count = 0;
          in_use = in_use;
        } }
    {
        let _size = region.size();
        PlainWindow {
            alloc,
            unit,
            table,
            region,
            held_from: 0,
            held_count: 0,
            in_use,
        }
    }

    /// The number of pages, 1 to 256.
    pub fn pages(&self) -> u16
        ensures pages { result ≡ length self.now.pages }
        ensures least { 1 ≤ result }
        ensures most { result ≤ 256 }
        ensures there { self.now.held_count ≡ 0 → AllThere self.now.pages }
        ensures within { AllWithin (strokes_at self.now.pages) }
    {
        self.region.size() as u16
    }

    /// Makes room for at least this many values. Those put and those for which there is room stay below
    /// 2^31; a window that would pass that is out of memory. It is then as before.
    pub fn reserve(&mut self, puts: u32) -> Result<(), NoMemory>
        ensures ok { OnOk result (self.new ≡ record self.old { spare = max self.old.spare puts }) }
        ensures err { OnErr result (self.new ≡ self.old) }
    {
        self.table.reserve(puts)
    }

    /// Each value that was put, in order of time.
    pub fn values(&self) -> &[TceRow]
        ensures rows { result.now ≡ self.now.rows }
        ensures numbered { AreNumbered (length self.now.pages) [] self.now.rows }
    {
        self.table.rows()
    }

    /// Puts the value into the entry of this address, as its next version. It needs room for one value.
    pub fn put_tce(&mut self, ioba: u64, tce: u64) -> TceAnswer
        requires { 1 ≤ self.old.spare }
        ensures parameter { takes (length self.old.pages) ioba tce ≡ false
            → result ≡ TceAnswer.Parameter }
        ensures answer { IsTrue (takes (length self.old.pages) ioba tce)
            → result ≡ put_answer (holds self.old) (ioba / PAGE_BYTES) 0 (tce ∷ []) }
        ensures rows { self.new.rows ≡ put_rows self.old.rows (ioba / PAGE_BYTES)
            (put_by result (tce ∷ [])) }
        ensures spare { self.new.spare + length (put_by result (tce ∷ [])) ≡ self.old.spare }
        ensures in_use { self.new.in_use ≡ times_in_use result self.old.in_use }
        ensures others { self.new ≡ record self.old
            { rows = self.new.rows; spare = self.new.spare; in_use = self.new.in_use } }
    {
        self.put_tce_indirect(ioba, &[tce])
    }

    /// Puts one value into `count` entries from this address on. It needs room for them, if they are 512 at
    /// most.
    pub fn stuff_tce(&mut self, ioba: u64, tce: u64, count: u64) -> TceAnswer
        requires { count ≤ 512 → count ≤ self.old.spare }
        ensures parameter { takes_all (length self.old.pages) ioba (replicate count tce) ≡ false
            → result ≡ TceAnswer.Parameter }
        ensures answer { IsTrue (takes_all (length self.old.pages) ioba (replicate count tce))
            → result ≡ put_answer (holds self.old) (ioba / PAGE_BYTES) 0 (replicate count tce) }
        ensures rows { self.new.rows ≡ put_rows self.old.rows (ioba / PAGE_BYTES)
            (put_by result (replicate count tce)) }
        ensures spare { self.new.spare + length
            (put_by result (replicate count tce)) ≡ self.old.spare }
        ensures in_use { self.new.in_use ≡ times_in_use result self.old.in_use }
        ensures others { self.new ≡ record self.old
            { rows = self.new.rows; spare = self.new.spare; in_use = self.new.in_use } }
    {
        if count > MOST_PUTS as u64 {
            return TceAnswer::Parameter;
        }
        let list = [tce; MOST_PUTS];
        self.put_tce_indirect(ioba, &list[..count as usize])
    }

    /// Puts a list of values into consecutive entries from this address on. It needs room for them, if they
    /// are 512 at most.
    pub fn put_tce_indirect(&mut self, ioba: u64, list: &[u64]) -> TceAnswer
        requires { length list.now ≤ 512 → length list.now ≤ self.old.spare }
        ensures parameter { takes_all (length self.old.pages) ioba list.now ≡ false
            → result ≡ TceAnswer.Parameter }
        ensures answer { IsTrue (takes_all (length self.old.pages) ioba list.now)
            → result ≡ put_answer (holds self.old) (ioba / PAGE_BYTES) 0 list.now }
        ensures rows { self.new.rows ≡ put_rows self.old.rows (ioba / PAGE_BYTES)
            (put_by result list.now) }
        ensures spare { self.new.spare + length (put_by result list.now) ≡ self.old.spare }
        ensures in_use { self.new.in_use ≡ times_in_use result self.old.in_use }
        ensures others { self.new ≡ record self.old
            { rows = self.new.rows; spare = self.new.spare; in_use = self.new.in_use } }
    {
        if !self.table.takes_all(ioba, list) {
            return TceAnswer::Parameter;
        }
        if list.is_empty() {
            return TceAnswer::Done;
        }
        self.put_each((ioba / PAGE_BYTES) as usize, list)
    }

    /// The value of the entry of this address.
    pub fn get_tce(&self, ioba: u64) -> GetTce
        ensures { gives (length self.now.pages) (values_of self.now.rows) ioba result }
    {
        self.table.get(ioba)
    }

    // Tells whether the entry is held.
    fn is_held(&self, entry: usize) -> bool
        requires { entry < length self.now.pages }
        ensures { result ≡ holds self.now entry }
    {
        self.held_from <= entry && entry < self.held_from + self.held_count
    }

    // Puts good values into the entries from `first` on, up to the first one that is held.
    fn put_each(&mut self, first: usize, list: &[u64]) -> TceAnswer
        requires entry { first < length self.old.pages }
        requires good { IsTrue (takes_each (length self.old.pages) (first * PAGE_BYTES) list.now) }
        requires spare { length list.now ≤ self.old.spare }
        requires few { length list.now ≤ 512 }
        ensures answer { result ≡ put_answer (holds self.old) first 0 list.now }
        ensures rows { self.new.rows ≡ put_rows self.old.rows first (put_by result list.now) }
        ensures spare { self.new.spare + length (put_by result list.now) ≡ self.old.spare }
        ensures in_use { self.new.in_use ≡ times_in_use result self.old.in_use }
        ensures others { self.new ≡ record self.old
            { rows = self.new.rows; spare = self.new.spare; in_use = self.new.in_use } }
    {
        for (done, tce) in list.iter().enumerate() {
            let entry = first + done;
            if self.is_held(entry) {
                self.in_use = self.in_use.saturating_add(1);
                return TceAnswer::Busy {
                    entry: entry as u16,
                    pins: 1,
                    done: done as u32,
                };
            }
            self.table.put(entry, *tce);
        }
        TceAnswer::Done
    }

    /// Every stroke on a page of the region that is not held, in order of time.
    pub fn strokes(&self, page: u16) -> &[Stroke]
        requires { IsSome (strokes_at self.now.pages page) }
        ensures { strokes_at self.now.pages page ≡ Some result.now }
    {
        self.region.page(page as usize).strokes()
    }

    /// The pages of the region, given away, each in its place but those that are held. It takes no memory.
    pub fn into_pages(self) -> Vec<Option<Page>>
        ensures { result.items ≡ self.pages }
    {
        self.region.into_pages()
    }

    // Tests whether the range lies inside the region, and each page that it touches is in its place.
    fn touched(&mut self, at: u64, len: usize) -> Result<(), OwnFault>
        ensures pages { OnOk result (end_page at len ≤ length self.old.pages) }
        ensures inside { OnOk result (IsTrue (in_region (length self.old.pages) at len)) }
        ensures there { OnOk result (IsInPlace (strokes_at self.old.pages) at len) }
        ensures near { OnOk result (at + len ≤ 2 ^ 20) }
        ensures few { OnOk result (len ≤ MOST_BYTES) }
        ensures range { IsErrOf result OwnFault.Range ↔
            (in_region (length self.old.pages) at len ≡ false) }
        ensures in_use { IfInUse result
            (λ page word. IsAwayFirst (strokes_at self.old.pages)
            (length self.old.pages) at len page × (word ≡ TAKEN)) }
        ensures memory { ¬ IsErrOf result OwnFault.NoMemory }
        ensures state { self.new ≡ record self.old { in_use = times_own result self.old.in_use } }
    {
        if !self.region.contains(at, len) {
            return Err(OwnFault::Range);
        }
        if let Some(page) = self.region.first_held(at as usize, len) {
            self.in_use = self.in_use.saturating_add(1);
            return Err(OwnFault::InUse {
                page: page as u16,
                word: TAKEN,
            });
        }
        Ok(())
    }

    /// Copies the bytes of the region from the address on, 1 to 65,536 of them. Where it refuses, `out` is
    /// as before.
    pub fn read(&mut self, at: u64, out: &mut [u8]) -> Result<(), OwnFault>
        ensures ok { OnOk result (Reads (known_of self.old) at out.new) }
        ensures range { IsErrOf result OwnFault.Range ↔
            (in_region (length self.old.pages) at (length out.old) ≡ false) }
        ensures in_use { IfInUse result
            (λ page word. IsAwayFirst (strokes_at self.old.pages) (length self.old.pages) at
            (length out.old) page × (word ≡ TAKEN)) }
        ensures memory { ¬ IsErrOf result OwnFault.NoMemory }
        ensures err { OnErr result (out.new ≡ out.old) }
        ensures state { self.new ≡ record self.old { in_use = times_own result self.old.in_use } }
    {
        self.touched(at, out.len())?;
        self.region.read(at as usize, out);
        Ok(())
    }

    /// Copies the bytes of the region from the address on, 1 to 65,536 of them, if on each page that they
    /// touch the last strokes are of this name and cover them. Where it refuses, `out` is as before.
    pub fn read_named(
        &mut self,
        at: u64,
        out: &mut [u8],
        name: StrokeName,
    ) -> Result<(), NamedFault>
        ensures ok { OnOk result (Reads (known_of self.old) at out.new) }
        ensures fresh { OnOk result (AreFresh name at (length out.old) (strokes_at self.old.pages)
            (first_page at) (end_page at (length out.old))) }
        ensures range { IsErrOf result NamedFault.Range ↔
            (in_region (length self.old.pages) at (length out.old) ≡ false) }
        ensures in_use { IfNamedInUse result
            (λ page word. IsAwayFirst (strokes_at self.old.pages) (length self.old.pages) at
            (length out.old) page × (word ≡ TAKEN)) }
        ensures stale { IfStale result
            (λ page found. IsFirstStale name at (length out.old) (strokes_at self.old.pages)
            (first_page at) (end_page at (length out.old)) page found) }
        ensures stale_there { IfStale result
            (λ _ _. IsInPlace (strokes_at self.old.pages) at (length out.old)
            × IsTrue (in_region (length self.old.pages) at (length out.old))) }
        ensures err { OnErr result (out.new ≡ out.old) }
        ensures state { self.new ≡ record self.old { in_use = times_named result self.old.in_use } }
    {
        match self.touched(at, out.len()) {
            Ok(()) => {}
            Err(OwnFault::InUse { page, word }) => return Err(NamedFault::InUse { page, word }),
            Err(_) => return Err(NamedFault::Range),
        }
        let at = at as usize;
        if let Some((page, found)) = self.region.first_stale(at, out.len(), name) {
            return Err(NamedFault::Stale {
                page: page as u16,
                found,
            });
        }
        self.region.read(at, out);
        Ok(())
    }

    /// Writes the bytes over the region from the address on, 1 to 65,536 of them: one stroke on each page
    /// that they touch, named by the unit and the mark. Where it refuses, no page has another stroke.
    pub fn write(&mut self, at: u64, bytes: &[u8], mark: u64) -> Result<(), OwnFault>
        ensures inside { OnOk result
            (IsTrue (in_region (length self.old.pages) at (length bytes.now))) }
        ensures there { OnOk result (IsInPlace (strokes_at self.old.pages) at (length bytes.now)) }
        ensures strokes { OnOk result ((p : ℕ)
            → strokes_at self.new.pages p ≡ written
            (record { who = self.old.unit; mark = mark }) at bytes.now p
            (strokes_at self.old.pages p)) }
        ensures range { IsErrOf result OwnFault.Range ↔
            (in_region (length self.old.pages) at (length bytes.now) ≡ false) }
        ensures in_use { IfInUse result
            (λ page word. IsAwayFirst (strokes_at self.old.pages) (length self.old.pages) at
            (length bytes.now) page × (word ≡ TAKEN)) }
        ensures memory { IsErrOf result OwnFault.NoMemory
            → IsTrue (in_region (length self.old.pages) at (length bytes.now))
            × IsInPlace (strokes_at self.old.pages) at (length bytes.now) }
        ensures err { OnErr result ((p : ℕ)
            → strokes_at self.new.pages p ≡ strokes_at self.old.pages p) }
        ensures size { length self.new.pages ≡ length self.old.pages }
        ensures others { self.new ≡ record self.old
            { pages = self.new.pages; in_use = times_own result self.old.in_use } }
    {
        self.touched(at, bytes.len())?;
        let name = StrokeName {
            who: self.unit,
            mark,
        };
        self.region.write(self.alloc, name, at as usize, bytes)?;
        Ok(())
    }

    // Makes the piece with which a range of `left` bytes begins.
    fn piece(&self, address: u64, left: u32, right: Right) -> Result<Piece, HoldFault>
        requires free { self.now.held_count ≡ 0 }
        requires some { 1 ≤ left }
        ensures ok { IfOk result (MayTake (known_of self.now) right address left) }
        ensures near { OnOk result (address < 2 ^ 20) }
        ensures cause { IfErr result
            (IsRefusedAt (values_of self.now.rows) right (length self.now.pages) (address / PAGE_BYTES)) }
    {
        let entry = address / PAGE_BYTES;
        if entry >= u64::from(self.pages()) {
            return Err(HoldFault::Past { entry });
        }
        let last = self.table.current(entry as usize);
        if !is_granted(right, last.value) {
            return Err(HoldFault::NotGranted {
                entry: entry as u16,
                version: last.version,
                tce: told_of(last.value),
            });
        }
        let page = (last.value / PAGE_BYTES) as usize;
        let offset = (address % PAGE_BYTES) as u16;
        Ok(Piece {
            unit: self.unit,
            entry: entry as u16,
            version: last.version,
            page: page as u16,
            offset,
            len: left.min(PAGE_BYTES as u32 - u32::from(offset)) as u16,
            at: self.region.page(page).strokes().len() as u32,
        })
    }

    /// The pieces of a range, or why its first bad entry is refused.
    pub(crate) fn pieces(
        &self,
        ioba: u64,
        len: u32,
        right: Right,
    ) -> Result<ArrayVec<Piece, MOST_PIECES>, HoldFault>
        requires free { self.now.held_count ≡ 0 }
        requires len { (1 ≤ len) × (len ≤ MOST_BYTES) }
        ensures ok { IfOk result (λ pieces.
            MayTakeEach (known_of self.now) right ioba len pieces.items) }
        ensures cause { IfErr result (λ fault. IsRefused (values_of self.now.rows) right
            (length self.now.pages) ioba len fault) }
        ensures entry { IfErr result IsOfEntry }
    {
        let mut pieces = ArrayVec::new();
        let mut done = 0;
        while done < len {
            let piece = self.piece(ioba + u64::from(done), len - done, right)?;
            done += u32::from(piece.len);
            pieces.push(piece);
        }
        Ok(pieces)
    }

    /// Holds a range of 1 to 65,536 bytes for this right: its entries keep their values, and its pages are
    /// in the holder's hand, until it is given back. Where it refuses, the window is as before.
    pub fn hold(&mut self, ioba: u64, len: u32, right: Right) -> Result<Held, HoldFault>
        requires free { self.old.held_count ≡ 0 }
        requires len { (1 ≤ len) × (len ≤ MOST_BYTES) }
        ensures ok { IfOk result
            (Holds false (known_of self.old) ioba len right (known_of self.new)) }
        ensures lent { IfOk result (λ held. IsLentBy self.new held) }
        ensures size { length self.new.pages ≡ length self.old.pages }
        ensures others { self.new ≡ record self.old {
          pages = self.new.pages;
          held_from = self.new.held_from;
          held_count =
              self.new.held_count;
        } }
        ensures cause { IfErr result (λ fault. IsRefused (values_of self.old.rows) right
            (length self.old.pages) ioba len fault) }
        ensures entry { IfErr result IsOfEntry }
        ensures err { OnErr result (self.new ≡ self.old) }
    {
        let pieces = self.pieces(ioba, len, right)?;
        let pages = self.region.take(&pieces);
        self.held_from = (ioba / PAGE_BYTES) as usize;
        self.held_count = pieces.len();
        Ok(Held {
            alloc: self.alloc,
            right,
            pieces,
            pages,
        })
    }

    /// Gives the range back that the last hold of this window answered: its entries may take values again,
    /// and its pages are in their places with all their strokes.
    pub fn give_back(&mut self, held: Held)
        requires { IsLentBy self.old held }
        ensures strokes { (p : ℕ) → strokes_at self.new.pages p ≡ either
            (strokes_at self.old.pages p) (held_strokes held.pages p) }
        ensures size { length self.new.pages ≡ length self.old.pages }
        ensures free { self.new.held_count ≡ 0 }
        ensures others { self.new ≡ record self.old
            { pages = self.new.pages; held_from = 0; held_count = 0 } }
    {
        let Held {
            alloc: _,
            right: _,
            pieces: _,
            pages,
        } = held;
        self.region.put(pages);
        self.held_from = 0;
        self.held_count = 0;
    }
}

// Tells whether the value grants the right.
fn is_granted(right: Right, tce: u64) -> bool
    ensures { result ≡ grants right tce }
{
    match right {
        Right::Read => tce % 2 == 1,
        Right::Write => tce / 2 % 2 == 1,
    }
}

// Gives the value as a refusal tells it: its page and its rights alone, or 0 where it has no right.
fn told_of(tce: u64) -> u64
    ensures { result ≡ told tce }
{
    if tce % 4 != 0 {
        tce / PAGE_BYTES * PAGE_BYTES + tce % 4
    } else {
        0
    }
}
