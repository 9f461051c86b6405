// Runs of plans, over the machine.
use super::{FIRST_LOGIN, Outside, SURE, edited, run_text};
use std::alloc::Global;
use std::test::Fail;
use std::thread::Threads;

/// What the trace of the first login begins with.
const FRONT: &[u8] = b"trace 1\nlog 1 9 granted 8\nlog 1 10 sent 2\nqueue 0.0 1 256 3 3 0\n";

// Tells whether a text runs to its end, and its trace begins and ends so.
fn runs_to<R: Threads + Sync>(
    rt: &R,
    alloc: Global,
    text: &[u8],
    outside: &Outside,
    front: &[u8],
    end: &[u8],
) -> Result<bool, Fail> {
    let (status, written) = run_text(rt, alloc, &["run"], text, outside)?;
    Ok(status == 0 && written.starts_with(front) && written.ends_with(end))
}

// Tells whether the first login's trace is the same where a read and a write move no more than this.
fn runs_alike<R: Threads + Sync>(
    rt: &R,
    alloc: Global,
    whole: &[u8],
    (read_most, write_most): (usize, usize),
) -> Result<bool, Fail> {
    let outside = Outside {
        read_most,
        write_most,
        ..SURE
    };
    let text = FIRST_LOGIN.as_bytes();
    let (status, written) = run_text(rt, alloc, &["run"], text, &outside)?;
    Ok(status == 0 && written.as_slice() == whole)
}

/// The most bytes that a read and a write move.
static PIECES: [(usize, usize); 4] = [(1, 4096), (2, 1), (3, 7), (10, 100)];

// Gives the number of the first of these with which the trace of the first login is another one.
fn first_other<R: Threads + Sync>(rt: &R, alloc: Global) -> Result<Option<usize>, Fail> {
    let whole = run_text(rt, alloc, &["run"], FIRST_LOGIN.as_bytes(), &SURE)?;
    for (number, most) in PIECES.iter().enumerate() {
        if !runs_alike(rt, alloc, &whole.1, *most)? {
            return Ok(Some(number));
        }
    }
    Ok(None)
}

#[test]
fn first_login_in_any_pieces(rt: HostRuntime) -> Result<(), Fail> {
    let text = FIRST_LOGIN.as_bytes();
    assert!(rt; runs_to(&rt, rt.alloc(), text, &SURE, FRONT, b"\nend\n")?);
    assert_eq!(rt; first_other(&rt, rt.alloc())?, None);
    Ok(())
}

/// Parts of the first login's text, and what stands in their place.
static EDITS: [(&str, &str); 13] = [
    ("vio 1", "  vio   1 "),
    ("rounds 8\n", "# rounds\n\nrounds 00000000000000000008\n"),
    ("rounds 8", "rounds 1048576"),
    ("grant 8", "grant 0200"),
    ("grant 8", "grant 1"),
    ("server 1", "server 16"),
    ("pages 14 queue 1", "pages 256 queue 16"),
    ("0 tur\n", ""),
    ("0 tur\n", "0 tur\n0 tur\n0 take 2\n0 logout\n"),
    ("0 tur\n", "0 fail\n"),
    ("0 login\n0 tur\n", ""),
    ("0 tur\nend\n", "0 tur\nend"),
    ("0 tur\nend\n", "0 tur\nend\n# more"),
];

// Tells whether the first login with one part in another's place runs.
fn runs_edited<R: Threads + Sync>(
    rt: &R,
    alloc: Global,
    old: &str,
    new: &str,
    outside: &Outside,
    front: &[u8],
) -> Result<bool, Fail> {
    let text = edited(alloc, old, new)?;
    runs_to(rt, alloc, text.as_bytes(), outside, front, b"end\n")
}

#[test]
fn texts_of_plans_run(rt: HostRuntime) -> Result<(), Fail> {
    for (old, new) in &EDITS {
        let is_so = runs_edited(&rt, rt.alloc(), old, new, &SURE, b"trace 1\n")?;
        assert!(rt; is_so, "{old:?} {new:?}");
    }
    Ok(())
}

#[test]
fn a_text_of_servers_alone_runs(rt: HostRuntime) -> Result<(), Fail> {
    let text = b"vio 1\nrounds 8\ngrant 8\npartition\nserver 1\nend\n".as_slice();
    assert!(rt; runs_to(&rt, rt.alloc(), text, &SURE, b"trace 1\n", b"end\n")?);
    Ok(())
}

// Tells whether the first login runs with ends of lines behind it, up to the longest text.
fn runs_filled<R: Threads + Sync>(rt: &R, alloc: Global) -> Result<bool, Fail> {
    let mut text = FIRST_LOGIN.as_bytes().to_vec(alloc)?;
    text.resize(1_048_576, b'\n')?;
    runs_to(rt, alloc, &text, &SURE, FRONT, b"end\n")
}

#[test]
fn the_longest_text_runs(rt: HostRuntime) -> Result<(), Fail> {
    assert!(rt; runs_filled(&rt, rt.alloc())?);
    Ok(())
}

// Tells whether a sink that fails in this call took a front of 100 bytes for each call before it.
fn is_front_taken<R: Threads + Sync>(
    rt: &R,
    alloc: Global,
    whole: &[u8],
    call: u64,
) -> Result<bool, Fail> {
    let outside = Outside {
        write_most: 100,
        write_failing: Some(call),
        ..SURE
    };
    let text = FIRST_LOGIN.as_bytes();
    let (status, written) = run_text(rt, alloc, &["run"], text, &outside)?;
    let calls = written.len() as u64 / 100;
    Ok(status == 4 && calls == call && written.len() % 100 == 0 && whole.starts_with(&written))
}

// Gives the first call in which the sink fails and it is not so.
fn first_other_call<R: Threads + Sync>(rt: &R, alloc: Global) -> Result<Option<u64>, Fail> {
    let whole = run_text(rt, alloc, &["run"], FIRST_LOGIN.as_bytes(), &SURE)?;
    for call in 0..whole.1.len() as u64 / 100 {
        if !is_front_taken(rt, alloc, &whole.1, call)? {
            return Ok(Some(call));
        }
    }
    Ok(None)
}

#[test]
fn a_sink_that_fails_took_a_front_of_the_trace(rt: HostRuntime) -> Result<(), Fail> {
    assert_eq!(rt; first_other_call(&rt, rt.alloc())?, None);
    Ok(())
}

#[test]
fn a_disk_that_fails_in_the_run_does_not_end_it(rt: HostRuntime) -> Result<(), Fail> {
    let outside = Outside {
        image_failing: Some(1),
        ..SURE
    };
    let front = b"trace 1\nlog 1 9 granted 8\nlog 1 10 sent 2\n".as_slice();
    let read = "0 read 0 1 53248\n0 take 1\n";
    assert!(rt; runs_edited(&rt, rt.alloc(), "0 tur\n", read, &outside, front)?);
    Ok(())
}
