// A copy holds both ranges, then takes memory for what it will write, then writes. `IsLawful` in
// specs/Copy.antt is what a copy that was made is.
ghost use Rattle.std.specs.Prelude.{◌≡◌, ◌↔◌, ◌<◌, ◌≤◌, ◌⊎◌, [], IfOk, OnErr, OnOk, length};
ghost use Rattle.tce_window.specs.declared.answers.Right.TheVariants.{Read, Write};
ghost use Rattle.tce_window.specs.PortState.{LaysNone};
ghost use Rattle.tce_window.specs.Held.{held_len};
ghost use Rattle.tce_window.specs.Moved.{Follows};
ghost use Rattle.rdma_copy.specs.Copies.{Copies, Fills, IsOverwritten, IsRecordOf, IsUnwritten, MayHold, OnlyCopies, RefusesRange};
ghost use Rattle.rdma_copy.specs.Answers.{IfCopied, IsCopied, OnHeld, OnRefused, IfSourceParm, IfDestParm, IfBusy, IsBusySide, CountsCopy, CountsTarget};

use arrayvec::ArrayVec;
use page_slots::StrokeName;
use std::alloc::Global;
use tce_window::{GuestPort, Held, HoldFault, MOST_BYTES, Piece, Right};
use vio_num::NoMemory;

/// A copy that was made.
#[derive(Debug, PartialEq, Eq, Drop)]
pub struct CopyRecord {
    /// The copier, and its mark.
    pub name: StrokeName,
    /// The number of bytes.
    pub len: u32,
    /// The pieces that were read, at most 17, in the order of their addresses.
    pub from: Vec<Piece>,
    /// The pieces that were written, at most 17, each with the place of its stroke.
    pub to: Vec<Piece>,
}

/// What became of a copy.
#[derive(Debug, PartialEq, Eq, Drop)]
pub enum CopyAnswer {
    /// All bytes were copied.
    Copied(CopyRecord),
    /// More than 65,536 bytes.
    Parameter,
    /// The source's range is past its window, or not granted for reading.
    SourceParm(HoldFault),
    /// The target's range is past its window, or not granted for writing.
    DestParm(HoldFault),
    /// This page is in use, by this word of it.
    Busy { page: u16, word: u64 },
    NoMemory,
}

/// Copies `len` bytes, at most 65,536, from one window to the other, as strokes of this name. The source is
/// held, then the target, then memory is taken, then the bytes move. Every answer but `Copied` lays no
/// stroke and changes no byte.
pub fn copy_rdma<S: GuestPort, D: GuestPort>(
    alloc: Global,
    src: &mut S,
    s_ioba: u64,
    dst: &mut D,
    d_ioba: u64,
    len: u64,
    name: StrokeName,
) -> CopyAnswer
    requires source_free { (S.state src.old).held_count ≡ 0 }
    requires target_free { (D.state dst.old).held_count ≡ 0 }
    ensures copied { IfCopied result
        (Copies D.is_shared (S.state src.new) (D.state dst.old) (D.state dst.new) s_ioba d_ioba len name) }
    ensures refused { OnRefused result (LaysNone D.is_shared (D.state dst.old) (D.state dst.new)) }
    ensures read { LaysNone S.is_shared (S.state src.old) (S.state src.new) }
    ensures empty { len ≡ 0 →
        IsCopied result (λ copy. (copy.from.items ≡ []) × (copy.to.items ≡ [])) }
    ensures parameter { (result ≡ CopyAnswer.Parameter) ↔ (MOST_BYTES < len) }
    ensures held { OnHeld result (1 ≤ len → MayHold (S.state src.new) Read s_ioba len
        × MayHold (D.state dst.new) Write d_ioba len) }
    ensures source_parm { IfSourceParm result (RefusesRange (S.state src.new) Read s_ioba len) }
    ensures dest_parm { IfDestParm result (λ fault.
        RefusesRange (D.state dst.new) Write d_ioba len fault
        × MayHold (S.state src.new) Read s_ioba len) }
    ensures busy { IfBusy result (λ page word. (1 ≤ len) × (len ≤ MOST_BYTES)
        × MayHold (S.state src.new) Read s_ioba len
        × (IsBusySide S.is_shared (S.state src.new).values s_ioba len page (S.found src.new page word)
        ⊎ (IsBusySide D.is_shared (D.state dst.new).values d_ioba len page (D.found dst.new page word)
        × MayHold (D.state dst.new) Write d_ioba len))) }
    ensures source { OnlyCopies S.is_shared (S.state src.old) (S.state src.new) }
    ensures target { OnlyCopies D.is_shared (D.state dst.old) (D.state dst.new) }
    ensures counts { CountsCopy result
        (S.state src.old).in_use (S.state src.new).in_use (D.state dst.old).in_use (D.state dst.new).in_use }
{
    if len > MOST_BYTES {
        return CopyAnswer::Parameter;
    }
    if len == 0 {
        return CopyAnswer::Copied(CopyRecord {
            name,
            len: 0,
            from: Vec::new(alloc),
            to: Vec::new(alloc),
        });
    }
    let len = len as u32;
    let source = match src.hold(s_ioba, len, Right::Read) {
        Ok(held) => held,
        Err(HoldFault::InUse { page, word }) => return CopyAnswer::Busy { page, word },
        Err(fault) => return CopyAnswer::SourceParm(fault),
    };
    let answer = copy_held(alloc, &source, dst, d_ioba, len, name);
    src.give_back(source);
    answer
}

// Copies the bytes of the source's range, `len` of them, over the target's. Every answer but `Copied` lays no
// stroke.
fn copy_held<D: GuestPort>(
    alloc: Global,
    source: &Held,
    dst: &mut D,
    d_ioba: u64,
    len: u32,
    name: StrokeName,
) -> CopyAnswer
    requires free { (D.state dst.old).held_count ≡ 0 }
    requires some { (1 ≤ len) × (len ≤ MOST_BYTES) }
    requires source { held_len source.now.pieces ≡ len }
    ensures copied { IfCopied result
        (Fills D.is_shared source.now (D.state dst.old) (D.state dst.new) d_ioba len name) }
    ensures refused { OnRefused result (LaysNone D.is_shared (D.state dst.old) (D.state dst.new)) }
    ensures parameter { ¬ (result ≡ CopyAnswer.Parameter) }
    ensures held { OnHeld result (MayHold (D.state dst.new) Write d_ioba len) }
    ensures source_parm { IfSourceParm result (λ _. ⊥) }
    ensures dest_parm { IfDestParm result (RefusesRange (D.state dst.new) Write d_ioba len) }
    ensures busy { IfBusy result (λ page word. MayHold (D.state dst.new) Write d_ioba len
        × IsBusySide D.is_shared (D.state dst.new).values d_ioba len page (D.found dst.new page word)) }
    ensures target { OnlyCopies D.is_shared (D.state dst.old) (D.state dst.new) }
    ensures counts { CountsTarget result (D.state dst.old).in_use (D.state dst.new).in_use }
{
    let mut target = match dst.hold(d_ioba, len, Right::Write) {
        Ok(held) => held,
        Err(HoldFault::InUse { page, word }) => return CopyAnswer::Busy { page, word },
        Err(fault) => return CopyAnswer::DestParm(fault),
    };
    let copied = write_held(alloc, source, &mut target, len, name);
    dst.give_back(target);
    match copied {
        Ok(copy) => CopyAnswer::Copied(copy),
        Err(NoMemory) => CopyAnswer::NoMemory,
    }
}

// Writes the bytes of the one range over the other, which is as long. The record's lists are as long as their
// pieces and are made first, so that nothing is written where memory runs out.
fn write_held(
    alloc: Global,
    source: &Held,
    target: &mut Held,
    len: u32,
    name: StrokeName,
) -> Result<CopyRecord, NoMemory>
    requires right { target.old.right ≡ Write }
    requires long { held_len source.now.pieces ≡ held_len target.old.pieces }
    ensures record { IfOk result (IsRecordOf name len source.now.pieces target.new.pieces) }
    ensures written { OnOk result (IsOverwritten name source.now target.old target.new) }
    ensures err { OnErr result (IsUnwritten target.old target.new) }
    ensures follows { Follows target.old target.new }
{
    let from = Vec::from_slice(alloc, source.pieces())?;
    let mut to = Vec::from_slice(alloc, target.pieces())?;
    target.copy_from(alloc, name, source)?;
    to.copy_from_slice(target.pieces());
    Ok(CopyRecord {
        name,
        len,
        from,
        to,
    })
}

/// Copies the pieces of a held range, of which there are at most 17, into a list of their own.
pub fn copied_pieces(pieces: &[Piece]) -> ArrayVec<Piece, 17>
    requires { length pieces.now ≤ 17 }
    ensures { result.items ≡ pieces.now }
{
    let mut copied = ArrayVec::new();
    match copied.try_extend_from_slice(pieces) {
        Ok(()) => copied,
        Err(_) => unreachable!(),
    }
}
