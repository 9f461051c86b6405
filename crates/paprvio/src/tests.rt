// Runs that are refused or that the outside ends, against causes that were written by hand from the formats' tables.
mod runs;
mod seeds;
mod words;

use crate::run::run;
use std::alloc::{AllocError, Global};
use std::test::Fail;
use std::thread::Threads;
use vio_io::{FreeGate, MemBlocks, MemSink, MemSource};

const FIRST_LOGIN: &str =
    "vio 1\nrounds 8\ngrant 8\npartition\nserver 1\nend\npartition\nclient 0.0 pages 14 queue 1\n0 login\n0 tur\nend\n";

const LAN_PORT: &str =
    "vio 1\nrounds 8\ngrant 8\npartition\nlan 02:00:00:00:00:01 pages 16 slots 8\nend\n";

const USAGE: &str = "paprvio: usage\n";

// The trace of a port that does nothing.
const PORT_TRACE: &str = "trace 1\nend\n";

const TOO_LONG: &str = "paprvio: line 0: TooLong\n";

// How the outside behaves in a run: the most bytes that one call moves, and the calls that fail.
#[derive(Clone, Copy)]
struct Outside {
    read_most: usize,
    read_failing: Option<u64>,
    write_most: usize,
    write_failing: Option<u64>,
    image_failing: Option<u64>,
}

const SURE: Outside = Outside {
    read_most: 4096,
    read_failing: None,
    write_most: 4096,
    write_failing: None,
    image_failing: None,
};

fn failing_calls(alloc: Global, call: Option<u64>) -> Result<Vec<u64>, AllocError> {
    let mut calls = Vec::new(alloc);
    if let Some(call) = call {
        calls.push(call)?;
    }
    Ok(calls)
}

// Makes an image of one block.
fn one_block(alloc: Global, failing: Vec<u64>) -> Result<MemBlocks, AllocError> {
    let mut blocks = Vec::new(alloc);
    blocks.push([0; 512])?;
    Ok(MemBlocks::new(blocks, failing))
}

// Runs the words over a boot text, and answers the status and what was written.
fn run_text<R: Threads + Sync>(
    rt: &R,
    alloc: Global,
    words: &[&str],
    text: &[u8],
    outside: &Outside,
) -> Result<(u8, Vec<u8>), Fail> {
    let mut owned = Vec::new(alloc);
    for word in words {
        owned.push(String::from_str(alloc, word)?)?;
    }
    let failing = failing_calls(alloc, outside.read_failing)?;
    let mut source = MemSource::new(text.to_vec(alloc)?, outside.read_most.max(1), failing);
    let failing = failing_calls(alloc, outside.write_failing)?;
    let mut sink = MemSink::new(alloc, outside.write_most.max(1), failing);
    let image = one_block(alloc, failing_calls(alloc, outside.image_failing)?)?;
    let ended = run(rt, alloc, &owned, &mut source, image, &mut sink, &FreeGate);
    Ok((ended.status, sink.bytes().to_vec(alloc)?))
}

// Tells whether a run of the words over a text ends with this status, and writes this.
fn ends_so<R: Threads + Sync>(
    rt: &R,
    alloc: Global,
    words: &[&str],
    text: &[u8],
    outside: &Outside,
    want: (u8, &[u8]),
) -> Result<bool, Fail> {
    let (status, written) = run_text(rt, alloc, words, text, outside)?;
    Ok(status == want.0 && written.as_slice() == want.1)
}

/// Parts of the first login's text, what stands in their place, and what is told of the text then.
static REFUSALS: [(&str, &str, &str); 23] = [
    ("vio 1", "vio\t1", "paprvio: line 1: BadByte\n"),
    ("0 tur", "0 tur\u{7f}", "paprvio: line 10: BadByte\n"),
    ("end\npart", "end\r\npart", "paprvio: line 6: BadByte\n"),
    ("vio 1", "vio 2", "paprvio: line 1: Header\n"),
    ("vio 1\n", "", "paprvio: line 1: Header\n"),
    ("rounds 8", "round 8", "paprvio: line 2: Word\n"),
    (
        "0 login\n",
        "\n# more\n0 logn\n",
        "paprvio: line 11: Word\n",
    ),
    ("0 tur", "0 tus", "paprvio: line 10: Word\n"),
    ("rounds 8\n", "", "paprvio: line 2: Place\n"),
    ("0 tur\nend\n", "0 tur\n", "paprvio: line 11: Place\n"),
    ("tur\nend\n", "tur\nend\nend\n", "paprvio: line 12: Place\n"),
    ("grant 8", "grant 8 8", "paprvio: line 3: Count\n"),
    ("pages 14", "page 14", "paprvio: line 8: Count\n"),
    ("rounds 8", "rounds 0", "paprvio: line 2: Number\n"),
    ("rounds 8", "rounds 1048577", "paprvio: line 2: Number\n"),
    ("grant 8", "grant 201", "paprvio: line 3: Number\n"),
    ("server 1", "server 17", "paprvio: line 5: Number\n"),
    ("pages 14", "pages 13", "paprvio: line 8: Number\n"),
    ("client 0.0", "client 0.1", "paprvio: line 8: Link\n"),
    (
        "client 0.0 pages 14 queue 1",
        "server 1",
        "paprvio: line 8: Link\n",
    ),
    ("0 login", "1 login", "paprvio: line 9: Unit\n"),
    ("0 tur", "0 open", "paprvio: line 10: Unit\n"),
    (
        "server 1\n",
        "server 1\nserver 1\nserver 1\nserver 1\nserver 1\nserver 1\nserver 1\nserver 1\nserver 1\n",
        "paprvio: line 13: Limit\n",
    ),
];

// The first login with one part of its text put in another's place.
fn edited(alloc: Global, old: &str, new: &str) -> Result<String, AllocError> {
    let mut text = String::new(alloc);
    match FIRST_LOGIN.split_once(old) {
        Some((front, rest)) => {
            text.push_str(front)?;
            text.push_str(new)?;
            text.push_str(rest)?;
        }
        None => text.push_str("the part is not there")?,
    }
    Ok(text)
}

// Tells whether the first login with one part in another's place is refused so.
fn is_told<R: Threads + Sync>(
    rt: &R,
    alloc: Global,
    old: &str,
    new: &str,
    told: &str,
) -> Result<bool, Fail> {
    let text = edited(alloc, old, new)?;
    let want = (2, told.as_bytes());
    ends_so(rt, alloc, &["run"], text.as_bytes(), &SURE, want)
}

#[test]
fn each_fault_is_told_at_its_line(rt: HostRuntime) -> Result<(), Fail> {
    for (old, new, told) in &REFUSALS {
        let is_so = is_told(&rt, rt.alloc(), old, new, told)?;
        assert!(rt; is_so, "{old:?} {new:?}");
    }
    Ok(())
}

// A text of this front and of a piece that stands so many times behind it.
fn repeated(alloc: Global, front: &str, piece: &str, times: usize) -> Result<Vec<u8>, AllocError> {
    let mut text = front.as_bytes().to_vec(alloc)?;
    for _ in 0..times {
        text.extend_from_slice(piece.as_bytes())?;
    }
    Ok(text)
}

/// The first login's text up to its script.
const UP_TO_SCRIPT: &str =
    "vio 1\nrounds 8\ngrant 8\npartition\nserver 1\nend\npartition\nclient 0.0 pages 14 queue 1\n";

const FILLED: &str = "0 fill 0 65536 1\n";

/// A front, a piece that stands so many times behind it, and what is told of the text then.
static LONG: [(&str, &str, usize, &str); 5] = [
    ("vio 1\n", "#", 1024, "paprvio: line 3: Place\n"),
    ("vio 1\n", "#", 1025, "paprvio: line 2: LineLength\n"),
    (UP_TO_SCRIPT, FILLED, 256, "paprvio: line 265: Place\n"),
    (UP_TO_SCRIPT, FILLED, 257, "paprvio: line 265: Transfer\n"),
    (UP_TO_SCRIPT, FILLED, 300, "paprvio: line 265: Transfer\n"),
];

// Tells whether such a text is refused so.
fn is_told_of_long<R: Threads + Sync>(
    rt: &R,
    alloc: Global,
    (front, piece, times, told): (&str, &str, usize, &str),
) -> Result<bool, Fail> {
    let text = repeated(alloc, front, piece, times)?;
    ends_so(rt, alloc, &["run"], &text, &SURE, (2, told.as_bytes()))
}

#[test]
fn long_texts_are_told_at_their_line(rt: HostRuntime) -> Result<(), Fail> {
    for row in &LONG {
        let is_so = is_told_of_long(&rt, rt.alloc(), *row)?;
        assert!(rt; is_so, "{}", row.2);
    }
    Ok(())
}

// Tells whether a text is refused at some line.
fn is_refused<R: Threads + Sync>(rt: &R, alloc: Global, text: &[u8]) -> Result<bool, Fail> {
    let (status, written) = run_text(rt, alloc, &["run"], text, &SURE)?;
    Ok(status == 2 && written.starts_with(b"paprvio: line ") && written.ends_with(b"\n"))
}

#[test]
fn a_text_cut_short_is_refused(rt: HostRuntime) -> Result<(), Fail> {
    let text = FIRST_LOGIN.as_bytes();
    for len in 0..text.len() - 1 {
        // Behind the end of the first partition the text says a plan.
        if len == 45 || len == 46 {
            continue;
        }
        let is_so = is_refused(&rt, rt.alloc(), &text[..len])?;
        assert!(rt; is_so, "{len}");
    }
    Ok(())
}

// Tells whether the text of a LAN port, with ends of lines up to this length, ends so.
fn ends_filled<R: Threads + Sync>(
    rt: &R,
    alloc: Global,
    len: usize,
    want: (u8, &str),
) -> Result<bool, Fail> {
    let mut text = LAN_PORT.as_bytes().to_vec(alloc)?;
    text.resize(len, b'\n')?;
    let want = (want.0, want.1.as_bytes());
    ends_so(rt, alloc, &["run"], &text, &SURE, want)
}

#[test]
fn a_text_too_long_is_refused(rt: HostRuntime) -> Result<(), Fail> {
    for (len, want) in [
        (1_048_576, (0, PORT_TRACE)),
        (1_048_577, (2, TOO_LONG)),
        (1_100_000, (2, TOO_LONG)),
    ] {
        let is_so = ends_filled(&rt, rt.alloc(), len, want)?;
        assert!(rt; is_so, "{len}");
    }
    Ok(())
}

#[test]
fn a_text_without_its_end_is_refused(rt: HostRuntime) -> Result<(), Fail> {
    let text = LAN_PORT.as_bytes();
    let cut = &text[..text.len().saturating_sub(4)];
    let want = (2, b"paprvio: line 6: Place\n".as_slice());
    assert!(rt; ends_so(&rt, rt.alloc(), &["run"], cut, &SURE, want)?);
    Ok(())
}

/// The most bytes that a read and a write move.
static PIECES: [(usize, usize); 5] = [(1, 4096), (2, 1), (3, 7), (10, 100), (4096, 4096)];

// Tells whether a refusal ends so where a read and a write move no more than this.
fn is_told_in_pieces<R: Threads + Sync>(
    rt: &R,
    alloc: Global,
    (read_most, write_most): (usize, usize),
) -> Result<bool, Fail> {
    let text = edited(alloc, "0 tur", "0 tus")?;
    let outside = Outside {
        read_most,
        write_most,
        ..SURE
    };
    let want = (2, b"paprvio: line 10: Word\n".as_slice());
    ends_so(rt, alloc, &["run"], text.as_bytes(), &outside, want)
}

#[test]
fn a_refusal_is_read_and_written_in_any_pieces(rt: HostRuntime) -> Result<(), Fail> {
    for most in &PIECES {
        let is_so = is_told_in_pieces(&rt, rt.alloc(), *most)?;
        assert!(rt; is_so, "{} {}", most.0, most.1);
    }
    Ok(())
}

/// Words that are not accepted, parted by spaces; source and image would fail, and are not used.
static OTHER_WORDS: [&[&str]; 6] = [&[], &["run", "run"], &["Run"], &[""], &["--"], &["run", ""]];

/// How the outside behaves where it is not to be used.
const UNUSED: Outside = Outside {
    read_failing: Some(0),
    image_failing: Some(0),
    ..SURE
};

// Tells whether the words are answered by the usage.
fn are_refused<R: Threads + Sync>(rt: &R, alloc: Global, words: &[&str]) -> Result<bool, Fail> {
    let want = (1, USAGE.as_bytes());
    ends_so(rt, alloc, words, FIRST_LOGIN.as_bytes(), &UNUSED, want)
}

// The same of one word of 1,048,576 letters.
fn is_long_word_refused<R: Threads + Sync>(rt: &R, alloc: Global) -> Result<bool, Fail> {
    let long = String::from_utf8(vec![in alloc; b'r'; 1_048_576]?)?;
    are_refused(rt, alloc, &[long.as_str()])
}

#[test]
fn other_words_are_refused(rt: HostRuntime) -> Result<(), Fail> {
    for words in &OTHER_WORDS {
        let is_so = are_refused(&rt, rt.alloc(), words)?;
        assert!(rt; is_so, "{words:?}");
    }
    assert!(rt; is_long_word_refused(&rt, rt.alloc())?);
    Ok(())
}

#[test]
fn a_source_that_fails_ends_the_run(rt: HostRuntime) -> Result<(), Fail> {
    for call in 0..FIRST_LOGIN.len() as u64 / 10 + 2 {
        let outside = Outside {
            read_most: 10,
            read_failing: Some(call),
            image_failing: Some(0),
            ..SURE
        };
        let text = FIRST_LOGIN.as_bytes();
        let is_so = ends_so(&rt, rt.alloc(), &["run"], text, &outside, (3, &[]))?;
        assert!(rt; is_so, "{call}");
    }
    Ok(())
}

// Tells whether a sink that fails in its second call took nine bytes of what is told.
fn is_front_taken<R: Threads + Sync>(
    rt: &R,
    alloc: Global,
    words: &str,
    text: &str,
    told: &str,
) -> Result<bool, Fail> {
    let outside = Outside {
        write_most: 9,
        write_failing: Some(1),
        ..SURE
    };
    let (status, written) = run_text(rt, alloc, &[words], text.as_bytes(), &outside)?;
    Ok(status == 4 && written.len() == 9 && told.as_bytes().starts_with(&written))
}

#[test]
fn a_sink_that_fails_ends_the_run(rt: HostRuntime) -> Result<(), Fail> {
    for (words, text, told) in [
        ("Run", FIRST_LOGIN, USAGE),
        ("run", "", "paprvio: line 1: Header\n"),
        ("run", "vio 1", "paprvio: line 2: Place\n"),
    ] {
        let is_so = is_front_taken(&rt, rt.alloc(), words, text, told)?;
        assert!(rt; is_so, "{told:?}");
    }
    Ok(())
}

#[test]
fn an_image_that_fails_ends_a_run_of_a_plan_alone(rt: HostRuntime) -> Result<(), Fail> {
    let outside = Outside {
        image_failing: Some(0),
        ..SURE
    };
    for (text, status, told) in [
        (FIRST_LOGIN, 5, ""),
        (LAN_PORT, 5, ""),
        ("vio 1", 2, "paprvio: line 2: Place\n"),
    ] {
        let want = (status, told.as_bytes());
        let is_so = ends_so(&rt, rt.alloc(), &["run"], text.as_bytes(), &outside, want)?;
        assert!(rt; is_so, "{told:?}");
    }
    Ok(())
}
