// The words behind the image's name, read as those of one simple command.
ghost use Rattle.std.specs.Prelude.{◌≡◌, ◌≤◌, IfOk, map, option_map, string_bytes};
ghost use Rattle.std.specs.List.{list_all};
ghost use Rattle.clap.specs.Matches.{found_of};
ghost use Rattle.clap.specs.Simple.{app_of};
ghost use Rattle.clap.specs.Walk.{rows_of};
ghost use Rattle.paprvio.specs.Words.{asked, decimal_of, is_digit, request_in, request_of, seed_of, texts, words_app, workers_in, workers_of};

use crate::request::Request;
use clap::error::ErrorKind;
use clap::{Arg, ArgMatches, Command};
use std::alloc::{AllocError, Global};
use vio_num::NoMemory;

/// The most digits of a seed, and of a number of workers.
pub const SEED_DIGITS: usize = 10;

pub const WORKERS_DIGITS: usize = 2;

/// The most workers.
pub const MOST_WORKERS: u64 = 16;

// The command: a mode and a seed by their places, and the option of workers.
fn command<'a>(alloc: Global) -> Result<Command<'a>, AllocError>
    ensures { IfOk result (λ command. app_of command ≡ words_app) }
{
    let mode = Arg::new(alloc, "mode");
    let seed = Arg::new(alloc, "seed");
    let workers = Arg::new(alloc, "workers").long("workers");
    Command::new(alloc, "paprvio")
        .no_binary_name(true)
        .disable_help_flag(true)
        .disable_version_flag(true)
        .arg(mode)?
        .arg(seed)?
        .arg(workers)
}

// The number that a text of 1 to `most` decimal digits writes.
fn decimal(text: &str, most: usize) -> Option<u64>
    requires { most ≤ SEED_DIGITS }
    ensures { result ≡ decimal_of most text.now }
{
    if text.len() > most || !are_digits(text.as_bytes()) {
        return None;
    }
    u64::from_str_radix(text, 10).ok()
}

// Whether a text has decimal digits alone.
fn are_digits(text: &[u8]) -> bool
    ensures { result ≡ list_all is_digit text.now }
{
    text.iter().all(|byte| byte.is_ascii_digit())
}

// The seed that a word says.
fn seed_of(text: &str) -> Option<u32>
    ensures { result ≡ seed_of text.now }
{
    u32::try_from(decimal(text, SEED_DIGITS)?).ok()
}

// The number of workers that a word says; one where no word does.
fn workers_of(text: Option<&str>) -> Option<u8>
    ensures { result ≡ workers_of (texts text.entry) }
{
    match text {
        Some(text) => workers_in(text),
        None => Some(1),
    }
}

// The number of workers that a word says.
fn workers_in(text: &str) -> Option<u8>
    ensures { result ≡ workers_in text.now }
{
    let workers = decimal(text, WORKERS_DIGITS)?;
    if 1 <= workers && workers <= MOST_WORKERS {
        Some(workers as u8)
    } else {
        None
    }
}

// What a mode, a seed and a number of workers ask for together.
fn request(mode: &str, seed: Option<&str>, workers: Option<&str>) -> Option<Request>
    ensures { result ≡ request_of mode.now (texts seed.entry)
        (texts workers.entry) }
{
    match (mode, seed) {
        ("run", None) => Some(Request::Run {
            workers: workers_of(workers)?,
        }),
        ("gen", Some(seed)) if workers.is_none() => Some(Request::Generate {
            seed: seed_of(seed)?,
        }),
        ("summary", Some(seed)) => Some(Request::Summarize {
            seed: seed_of(seed)?,
            workers: workers_of(workers)?,
        }),
        _ => None,
    }
}

// What the entries of a parse ask for.
fn asked_by(matches: &ArgMatches<'_>) -> Option<Request>
    ensures { result ≡ request_in (rows_of (found_of matches.now)) }
{
    let mode = matches.get_str("mode")?;
    request(mode, matches.get_str("seed"), matches.get_str("workers"))
}

/// What the words ask for; none where they are not accepted.
pub fn read_words(alloc: Global, words: &[String]) -> Result<Option<Request>, NoMemory>
    ensures { IfOk result (λ request. request ≡ asked (map string_bytes words.now)) }
{
    let Ok(command) = command(alloc) else {
        return Err(NoMemory);
    };
    match command.try_get_matches_from(words) {
        Ok(matches) => Ok(asked_by(&matches)),
        Err(error) if error.kind() == ErrorKind::OutOfMemory => Err(NoMemory),
        Err(_) => Ok(None),
    }
}
