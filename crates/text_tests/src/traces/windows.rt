// The lines of windows and pages, as runs wrote them: values, copies (of a unit, of data over two
// pages, of nothing), and strokes.
ghost use Rattle.std.specs.Prelude.{◌≡◌, IfOk};
ghost use Rattle.vio_trace.specs.Form.{Ascend, CopyBefore, StrokeBefore, TceValueBefore, IsInOrder};

use super::{CLIENT, MOST, OTHER, SERVER, is_text_of, nothing, spelled};
use std::alloc::Global;
use std::test::Fail;
use vio_num::{Bytes, NoMemory, Sequence, UnitId};
use vio_trace::{CopyRow, PieceRow, StrokeRow, TceValueRow, Trace};

/// A piece that lies in an entry of its page's number.
fn piece(unit: UnitId, page: u16, version: u32, offset: u16, len: u16, at: u32) -> PieceRow {
    PieceRow {
        unit,
        entry: page,
        version,
        page,
        offset,
        len,
        at,
    }
}

fn values(alloc: Global) -> Result<Sequence<TceValueRow>, Fail>
    ensures { IfOk result (λ tces. Ascend TceValueBefore tces) }
{
    let mut tces = Sequence::new(alloc);
    tces.push(TceValueRow {
        unit: CLIENT,
        entry: 15,
        version: 1,
        value: 0xf002,
    })?;
    tces.push(TceValueRow {
        unit: CLIENT,
        entry: 15,
        version: 2,
        value: 0xf003,
    })?;
    tces.push(TceValueRow {
        unit: OTHER,
        entry: u16::MAX,
        version: u32::MAX,
        value: MOST,
    })?;
    Ok(tces)
}

/// A copy of the server's with this mark and length.
fn copy(
    alloc: Global,
    mark: u64,
    len: u32,
    from: &[PieceRow],
    to: &[PieceRow],
) -> Result<CopyRow, NoMemory>
    ensures unit { IfOk result (λ row. row.unit ≡ SERVER) }
    ensures mark { IfOk result (λ row. row.mark ≡ mark) }
{
    Ok(CopyRow {
        unit: SERVER,
        mark,
        len,
        from: Sequence::from_slice(alloc, from)?,
        to: Sequence::from_slice(alloc, to)?,
    })
}

/// A copy of a unit, from one page to another.
fn unit_copy(alloc: Global) -> Result<CopyRow, NoMemory>
    ensures unit { IfOk result (λ row. row.unit ≡ SERVER) }
    ensures mark { IfOk result (λ row. row.mark ≡ 0) }
{
    let from = [piece(CLIENT, 0, 0, 0, 64, 1)];
    let to = [piece(SERVER, 0, 0, 0, 64, 0)];
    copy(alloc, 0, 64, &from, &to)
}

/// A copy of data that lie on two pages.
fn data_copy(alloc: Global) -> Result<CopyRow, NoMemory>
    ensures unit { IfOk result (λ row. row.unit ≡ SERVER) }
    ensures mark { IfOk result (λ row. row.mark ≡ MOST) }
{
    let from = [
        piece(CLIENT, 13, 4, 1688, 2408, 4),
        piece(CLIENT, 14, 0, 0, 1688, 0),
    ];
    let to = [piece(SERVER, 2, 0, 0, 4096, 15)];
    copy(alloc, MOST, 4096, &from, &to)
}

fn copies(alloc: Global) -> Result<Sequence<CopyRow>, Fail>
    ensures { IfOk result (λ copies. Ascend CopyBefore copies) }
{
    let mut copies = Sequence::new(alloc);
    copies.push(unit_copy(alloc)?)?;
    copies.push(data_copy(alloc)?)?;
    copies.push(CopyRow {
        unit: OTHER,
        mark: 5,
        len: 0,
        from: Sequence::new(alloc),
        to: Sequence::new(alloc),
    })?;
    Ok(copies)
}

fn strokes(alloc: Global) -> Result<Sequence<StrokeRow>, Fail>
    ensures { IfOk result (λ strokes. Ascend StrokeBefore strokes) }
{
    let mut strokes = Sequence::new(alloc);
    strokes.push(StrokeRow {
        unit: SERVER,
        page: 0,
        place: 3,
        writer: SERVER,
        mark: 2,
        offset: 0,
        bytes: spelled(alloc, "c10000000000000100000000000000020000")?,
    })?;
    strokes.push(StrokeRow {
        unit: CLIENT,
        page: 13,
        place: 0,
        writer: CLIENT,
        mark: 12,
        offset: 1227,
        bytes: spelled(alloc, "7a7b")?,
    })?;
    strokes.push(StrokeRow {
        unit: CLIENT,
        page: u16::MAX,
        place: u32::MAX,
        writer: OTHER,
        mark: MOST,
        offset: 4096,
        bytes: Bytes::new(alloc),
    })?;
    Ok(strokes)
}

/// A trace that has these lines alone.
fn windows(alloc: Global) -> Result<Trace, Fail>
    ensures { IfOk result (λ trace. IsInOrder trace) }
{
    Ok(Trace {
        tces: values(alloc)?,
        copies: copies(alloc)?,
        strokes: strokes(alloc)?,
        ..nothing(alloc)
    })
}

#[test]
fn lines_of_windows(rt: HostRuntime) -> Result<(), Fail> {
    let trace = windows(rt.alloc())?;
    assert!(rt; is_text_of(rt.alloc(), trace, WINDOWS)?);
    Ok(())
}

pub const WINDOWS: &[u8] = b"trace 1\n\
tce 1.0 15 1 000000000000f002\n\
tce 1.0 15 2 000000000000f003\n\
tce 255.10 65535 4294967295 ffffffffffffffff\n\
copy 0.0 0 64 1 1\n\
from 1.0 0 0 0 0 64 1\n\
to 0.0 0 0 0 0 64 0\n\
copy 0.0 18446744073709551615 4096 2 1\n\
from 1.0 13 4 13 1688 2408 4\n\
from 1.0 14 0 14 0 1688 0\n\
to 0.0 2 0 2 0 4096 15\n\
copy 255.10 5 0 0 0\n\
stroke 0.0 0 3 0.0 2 0 c10000000000000100000000000000020000\n\
stroke 1.0 13 0 1.0 12 1227 7a7b\n\
stroke 1.0 65535 4294967295 255.10 18446744073709551615 4096 -\n\
end\n";
