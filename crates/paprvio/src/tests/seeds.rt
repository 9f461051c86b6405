// Boot texts of seeds, and the summaries of their runs.
use super::{UNUSED, run_text};
use crate::draws::Draws;
use crate::run::run;
use std::alloc::Global;
use std::test::Fail;
use std::thread::Threads;
use vio_io::{FreeGate, MemSink, MemSource, SureBlocks};

/// Lines 1 to 21 of the text of seed 7. The last five are the first transfer.
const FRONT: &[u8] = b"vio 1\nrounds 4096\ngrant 8\n\
partition\nserver 1\nserver 1\nserver 1\nserver 1\nserver 1\nserver 1\nserver 1\nserver 1\nend\n\
partition\nclient 0.0 pages 64 queue 1\n0 login\n\
0 fill 65536 3072 85\n0 write 13 6 65536\n0 take 1\n0 read 13 6 98304\n0 take 1\n";

// Tells whether the first seed's text is written whatever the outside does, and begins so, and whether the
// other's is the same.
fn is_seed_of_both<R: Threads + Sync>(
    rt: &R,
    alloc: Global,
    seed: &str,
    other: &str,
) -> Result<(bool, bool), Fail> {
    let (status, written) = run_text(rt, alloc, &["gen", seed], b"", &UNUSED)?;
    let (status_of_other, again) = run_text(rt, alloc, &["gen", other], b"", &UNUSED)?;
    Ok((
        status == 0 && written.starts_with(FRONT),
        status_of_other == 0 && again.as_slice() == written.as_slice(),
    ))
}

#[test]
fn the_text_of_a_seed_asks_nothing_of_the_outside(rt: HostRuntime) -> Result<(), Fail> {
    let seen = is_seed_of_both(&rt, rt.alloc(), "7", "2147483655")?;
    assert_eq!(rt; seen, (true, true));
    Ok(())
}

#[test]
fn the_first_draw_of_a_seed(rt: HostRuntime) {
    let mut draws = Draws::of(7);
    assert_eq!(rt; draws.draw(), 1_282_168_116);
}

// Tells whether the summary of seed 7 is written, over a source that fails.
fn is_summed<R: Threads + Sync>(rt: &R, alloc: Global) -> Result<bool, Fail> {
    let mut words = Vec::new(alloc);
    for word in ["summary", "7"] {
        words.push(String::from_str(alloc, word)?)?;
    }
    let mut failing = Vec::new(alloc);
    failing.push(0)?;
    let mut source = MemSource::new(Vec::new(alloc), 1, failing);
    let mut sink = MemSink::new(alloc, 4096, Vec::new(alloc));
    let image = SureBlocks::zeros(alloc, 2048)?;
    let ended = run(rt, alloc, &words, &mut source, image, &mut sink, &FreeGate);
    let told = b"served 1024\nanswers 1024\nin 148512000\n".as_slice();
    Ok(ended.status == 0 && sink.bytes() == told)
}

#[test]
fn the_summary_of_a_seed(rt: HostRuntime) -> Result<(), Fail> {
    assert!(rt; is_summed(&rt, rt.alloc())?);
    Ok(())
}
