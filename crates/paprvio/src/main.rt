// The program `paprvio`: reads a boot text from standard input, runs it over an image, and writes the
// trace to standard output.
#![tactic(auto)]

ghost use Rattle.std.specs.Prelude.{◌≡◌, ◌⊎◌, map, string_bytes};
ghost use Rattle.paprvio.specs.Run.{FitsWords};
ghost use Rattle.paprvio.specs.Status.{status_code};
ghost use Rattle.paprvio.specs.declared.status.Status.TheVariants.{Done, SinkFailed};

mod answer;
mod answering;
mod draws;
mod generator;
mod reading;
mod refusal;
mod request;
mod run;
mod running;
mod status;
mod stop;
mod summary;
mod task;
mod telling;
#[cfg(test)]
mod tests;
mod words;

use crate::run::run;
use crate::status::Status;
use std::process::ExitCode;
use std::rt::{Env, Files};
use std::thread::Threads;
use std::{env, io};
use vio_io::{Blocks, FileBlocks, FreeGate, StdSink, StdSource, SureBlocks};

// The launcher beside this repository's README prints these two where nothing is built yet.
const USAGE: &str = "usage: paprvio IMAGE run [--workers N] < BOOT-TEXT > TRACE
       paprvio IMAGE summary SEED [--workers N]
       paprvio IMAGE gen SEED > BOOT-TEXT
       paprvio --help | --version

IMAGE is a file of 512-byte blocks, or - for 2,048 blocks of zeros in memory:
    paprvio disk.img run < examples/read-and-write.vio
run reads a boot text from standard input and writes the trace of its run to standard output:
    paprvio - run < examples/first-login.vio
gen writes the boot text of SEED, a number below 4294967296: eight clients that write and read back.
    paprvio - gen 7 > seven.txt
summary runs the boot text of SEED and writes how many requests were served, how many answers were
taken, and the sum of the bytes that were read:
    paprvio - summary 7
--workers N, 1 to 16, is read and has no effect yet, every run being on one thread:
    paprvio - run --workers 4 < examples/first-login.vio
--help writes this, and --version the version:
    paprvio --version
Statuses: 0 done, 1 other words, 2 refused boot text, 3 input failed, 4 output failed,
5 image failed, 6 no memory.
";

const VERSION: &str = "paprvio 0.1.0\n";

/// The blocks of the image in memory.
const ZERO_BLOCKS: u32 = 2048;

// Runs the words over standard input and output.
fn run_over<R: Threads + Sync + Input + Print + AllocGlobal, Di: Blocks + Send + Drop>(
    rt: &R,
    words: &[String],
    image: Di,
) -> u8
    ensures { FitsWords (map string_bytes words.now) result }
{
    let mut source = StdSource::new(rt.reader());
    let mut sink = StdSink::new(io::writer(rt));
    let ended = run(
        rt,
        rt.alloc(),
        words,
        &mut source,
        image,
        &mut sink,
        &FreeGate,
    );
    ended.status
}

// Makes the image that the first word names, and runs the other words over it.
fn run_image<R: Threads + Sync + Files + Input + Print + AllocGlobal>(
    rt: &R,
    name: &str,
    words: &[String],
) -> u8
where
    R::File: Send + Drop,
    ensures { FitsWords (map string_bytes words.now) result }
{
    if name == "-" {
        match SureBlocks::zeros(rt.alloc(), ZERO_BLOCKS) {
            Ok(image) => run_over(rt, words, image),
            Err(_) => Status::NoMemory.code(),
        }
    } else {
        match FileBlocks::open(rt, rt.alloc(), name) {
            Ok(image) => run_over(rt, words, image),
            Err(_) => Status::NoMemory.code(),
        }
    }
}

// Writes a text of the program's own to standard output.
fn print_text<R: Print>(rt: &R, text: &str) -> u8
    ensures { (result ≡ status_code Done) ⊎ (result ≡ status_code SinkFailed) }
{
    match rt.print(text) {
        Ok(()) => Status::Done.code(),
        Err(_) => Status::SinkFailed.code(),
    }
}

// Gathers the words behind the program's name. Where one is not UTF-8 there are none, so that the usage answers.
fn words_of<R: Env + AllocGlobal>(rt: &R) -> io::Result<Vec<String>> {
    match env::args(rt) {
        Ok(args) => Ok(args.skip(1).collect(rt.alloc())?),
        Err(error) if error.kind() == io::ErrorKind::InvalidData => Ok(Vec::new(rt.alloc())),
        Err(error) => Err(error),
    }
}

// Does what the words say, and answers the exit status.
fn run_words<R: Threads + Sync + Files + Input + Print + Env + AllocGlobal>(rt: &R) -> u8
where
    R::File: Send + Drop,
{
    let Ok(words) = words_of(rt) else {
        return Status::NoMemory.code();
    };
    match words.as_slice() {
        [] => run_image(rt, "-", &[]),
        [image, rest @ ..] => match image.as_str() {
            "--help" => print_text(rt, USAGE),
            "--version" => print_text(rt, VERSION),
            name => run_image(rt, name, rest),
        },
    }
}

// Says on standard error why the run ended so, where standard output does not.
fn explain<R: Eprint>(rt: &R, status: u8) {
    let cause = match status {
        1 => "the words are IMAGE and run, gen SEED or summary SEED, and paprvio --help says more",
        3 => "standard input could not be read",
        4 => "standard output could not be written",
        5 => "the image could not be read, or is no file of 512-byte blocks",
        6 => "no memory was found",
        _ => return,
    };
    let _said = rt.eprintln(format_args!("paprvio: {cause}"));
}

fn main(rt: HostRuntime) -> ExitCode {
    let status = run_words(&rt);
    explain(&rt, status);
    ExitCode::from(status)
}
