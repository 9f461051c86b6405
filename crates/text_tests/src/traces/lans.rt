// The lines of LAN ports: frames with their pieces and offers, sessions, buffers, receive entries.
ghost use Rattle.std.specs.Prelude.{◌≡◌, IfOk, All};
ghost use Rattle.vio_trace.specs.Form.{Ascend, FrameBefore, IsOfferOf, PortBefore, PostBefore, DeliverBefore, HarvestBefore, IsInOrder};

use super::{CLIENT, MOST, OTHER, SERVER, is_text_of, nothing, spelled};
use std::alloc::Global;
use std::test::Fail;
use vio_num::{Bytes, Hrc, Sequence, UnitId};
use vio_trace::{
    DeliverRow, Filled, FrameRow, HarvestRow, OfferRow, Offered, PieceRow, PortRow, PostRow, Trace,
};

fn piece(unit: UnitId, at: u32) -> PieceRow {
    PieceRow {
        unit,
        entry: 2,
        version: 0,
        page: 3,
        offset: 64,
        len: 20,
        at,
    }
}

fn offer(port: UnitId, offered: Offered) -> OfferRow
    ensures unit { result.unit ≡ CLIENT }
    ensures number { result.number ≡ 7 }
{
    OfferRow {
        unit: CLIENT,
        number: 7,
        port,
        offered,
    }
}

fn offers(alloc: Global) -> Result<Sequence<OfferRow>, Fail>
    ensures { IfOk result (λ rows. All (λ row. (row.unit ≡ CLIENT) × (row.number ≡ 7)) rows) }
{
    let offers = [
        offer(SERVER, Offered::Done),
        offer(OTHER, Offered::NoBuffer),
    ];
    Ok(Sequence::from_slice(alloc, &offers)?)
}

fn frames(alloc: Global) -> Result<Sequence<FrameRow>, Fail>
    ensures order { IfOk result (λ frames. Ascend FrameBefore frames) }
    ensures offers { IfOk result (λ rows. All (λ row. All (IsOfferOf row) row.offers) rows) }
{
    let mut frames = Sequence::new(alloc);
    frames.push(FrameRow {
        unit: CLIENT,
        number: 7,
        code: Hrc::Dropped,
        from: Sequence::from_slice(alloc, &[piece(CLIENT, 5), piece(CLIENT, 6)])?,
        bytes: spelled(alloc, "ffffffffffff02000000000188b5")?,
        offers: offers(alloc)?,
    })?;
    frames.push(FrameRow {
        unit: OTHER,
        number: MOST,
        code: Hrc::Success,
        from: Sequence::new(alloc),
        bytes: Bytes::new(alloc),
        offers: Sequence::new(alloc),
    })?;
    Ok(frames)
}

fn posts(alloc: Global) -> Result<Sequence<PostRow>, Fail>
    ensures { IfOk result (λ posts. Ascend PostBefore posts) }
{
    let post = PostRow {
        unit: SERVER,
        session: 1,
        number: 0,
        descriptor: 0x8000_0016_0000_3000,
        correlator: 0x3000,
    };
    let mut posts = Sequence::new(alloc);
    posts.push(post)?;
    posts.push(PostRow { number: 1, ..post })?;
    posts.push(PostRow { session: 2, ..post })?;
    Ok(posts)
}

fn delivers(alloc: Global) -> Result<Sequence<DeliverRow>, Fail>
    ensures { IfOk result (λ delivers. Ascend DeliverBefore delivers) }
{
    let mut delivers = Sequence::new(alloc);
    delivers.push(DeliverRow {
        unit: SERVER,
        session: 1,
        post: 1,
        sender: CLIENT,
        frame: 7,
        filled: Filled::Frame,
        to: Sequence::from_slice(alloc, &[piece(SERVER, 4)])?,
    })?;
    delivers.push(DeliverRow {
        unit: SERVER,
        session: 1,
        post: 0,
        sender: OTHER,
        frame: MOST,
        filled: Filled::Blank,
        to: Sequence::new(alloc),
    })?;
    Ok(delivers)
}

fn ports(alloc: Global) -> Result<Sequence<PortRow>, Fail>
    ensures { IfOk result (λ ports. Ascend PortBefore ports) }
{
    let port = PortRow {
        unit: SERVER,
        session: 1,
        slots: 16,
        drops: MOST,
    };
    Ok(Sequence::from_slice(alloc, &[port])?)
}

fn harvests(alloc: Global) -> Result<Sequence<HarvestRow>, Fail>
    ensures { IfOk result (λ harvests. Ascend HarvestBefore harvests) }
{
    let harvest = HarvestRow {
        unit: SERVER,
        session: 1,
        high: 0xc008_0000_0000_000e,
        low: 0x3000,
    };
    Ok(Sequence::from_slice(alloc, &[harvest])?)
}

/// A trace that has these lines alone.
fn lans(alloc: Global) -> Result<Trace, Fail>
    ensures { IfOk result (λ trace. IsInOrder trace) }
{
    Ok(Trace {
        frames: frames(alloc)?,
        ports: ports(alloc)?,
        posts: posts(alloc)?,
        delivers: delivers(alloc)?,
        harvests: harvests(alloc)?,
        ..nothing(alloc)
    })
}

#[test]
fn lines_of_lan_ports(rt: HostRuntime) -> Result<(), Fail> {
    let trace = lans(rt.alloc())?;
    assert!(rt; is_text_of(rt.alloc(), trace, LANS)?);
    Ok(())
}

pub const LANS: &[u8] = b"trace 1\n\
frame 1.0 7 -12 2 ffffffffffff02000000000188b5\n\
from 1.0 2 0 3 64 20 5\n\
from 1.0 2 0 3 64 20 6\n\
offer 1.0 7 0.0 done\n\
offer 1.0 7 255.10 nobuffer\n\
frame 255.10 18446744073709551615 0 0 -\n\
port 0.0 1 16 18446744073709551615\n\
post 0.0 1 0 8000001600003000 0000000000003000\n\
post 0.0 1 1 8000001600003000 0000000000003000\n\
post 0.0 2 0 8000001600003000 0000000000003000\n\
deliver 0.0 1 1 1.0 7 frame 1\n\
to 0.0 2 0 3 64 20 4\n\
deliver 0.0 1 0 255.10 18446744073709551615 blank 0\n\
harvest 0.0 1 c00800000000000e 0000000000003000\n\
end\n";
