// Words that are accepted, and words that are not.
use crate::request::Request;
use crate::words::read_words;
use std::alloc::Global;
use std::test::Fail;

const RUN: Option<Request> = Some(Request::Run { workers: 1 });

const RUN_BY_FOUR: Option<Request> = Some(Request::Run { workers: 4 });

const LAST_SEED: Option<Request> = Some(Request::Summarize {
    seed: 4_294_967_295,
    workers: 3,
});

/// Words, parted by spaces, and what they ask for.
static ROWS: [(&str, Option<Request>); 30] = [
    ("", None),
    ("run", RUN),
    ("run run", None),
    ("run --workers 4", RUN_BY_FOUR),
    ("run --workers=4", RUN_BY_FOUR),
    ("--workers 4 run", RUN_BY_FOUR),
    ("run --workers 04", RUN_BY_FOUR),
    ("run --workers 16", Some(Request::Run { workers: 16 })),
    ("run --workers 17", None),
    ("run --workers 0", None),
    ("run --workers 004", None),
    ("run --workers=", None),
    ("run --workers", None),
    ("run --workers --", None),
    ("run --workers -- 4", None),
    ("run --workers 2 --workers 2", None),
    ("run --", RUN),
    ("-- run", RUN),
    ("-- run --", None),
    ("-- run --workers 4", None),
    ("run --help", None),
    ("run -h", None),
    ("run --version", None),
    ("run --work 4", None),
    ("run -w 4", None),
    ("gen 7", Some(Request::Generate { seed: 7 })),
    ("gen", None),
    ("gen 7 --workers 1", None),
    ("gen 4294967296", None),
    ("summary 4294967295 --workers 3", LAST_SEED),
];

// Gives what the words of a line ask for.
fn asked_by(alloc: Global, line: &str) -> Result<Option<Request>, Fail> {
    let mut words = Vec::new(alloc);
    for word in line.split(' ') {
        if !word.is_empty() {
            words.push(String::from_str(alloc, word)?)?;
        }
    }
    Ok(read_words(alloc, &words)?)
}

#[test]
fn words_and_what_they_ask_for(rt: HostRuntime) -> Result<(), Fail> {
    for (line, asked) in &ROWS {
        let found = asked_by(rt.alloc(), line)?;
        assert!(rt; found == *asked, "{line}");
    }
    Ok(())
}
