// The program `vio_bench`: does one work so many times, writes the work and the count to standard output,
// and what it took to standard error.
#![tactic(auto)]

mod copy;
mod link;
mod ring;
mod serve;
mod work;

ghost use Rattle.std.specs.Prelude.{◌≤◌, IfOk, IfSome};

use crate::work::{MOST, Work, do_work, work_of};
use std::process::ExitCode;
use std::rt::{Clock, Env};
use std::thread::Threads;
use std::time::Instant;
use std::{env, io};

const USAGE: &str = "usage: vio_bench WORK COUNT

Does the work COUNT times, 1 to 100000000, and says on standard error what it took.
  ring-1      passes an entry over a ring of 64 slots, on one thread in batches of 32
  ring-2      passes an entry from one thread to another over a ring of 4 slots
  ring-2-64   the same over 64 slots
  link-1      sends an entry over a shared link of 256 slots, on one thread in batches of 32
  link-2      sends an entry from one thread to another over such a link
  memcpy      copies 4096 bytes from a random place to another
  turns       takes a shared page and gives it back, and another one
  copy-plain  copies a page of 4096 bytes from one window to another
  copy        the same between shared windows
  turn        has a server unit serve a TEST UNIT READY, in a turn
";

// Does the work and says what it took, if it was done so many times.
fn measure<R: Threads + Sync + Clock + Print + Eprint + AllocGlobal>(
    rt: &R,
    work: Work,
    count: u32,
) -> io::Result<bool>
    requires { (1 ≤ count) × (count ≤ MOST) }
{
    let start = Instant::now(rt)?;
    let Some(done) = do_work(rt, rt.alloc(), work, count) else {
        return Ok(false);
    };
    let nanoseconds = start.elapsed(rt)?.as_nanos();
    rt.println(format_args!("{} {done}", work.name()))?;
    let each = nanoseconds / u128::from(count);
    rt.eprintln(format_args!("{nanoseconds} ns, {each} ns each"))?;
    Ok(done == count)
}

// Reads the words: a work and a count.
fn words_of<R: Env + AllocGlobal>(rt: &R) -> io::Result<Option<(Work, u32)>>
    ensures { IfOk result (λ words. IfSome words (λ found. (1 ≤ found.1) × (found.1 ≤ MOST))) }
{
    let words: Vec<String> = env::args(rt)?.skip(1).collect(rt.alloc())?;
    match words.as_slice() {
        [work, count] => Ok(work_of(work.as_str(), count.as_str())),
        _ => Ok(None),
    }
}

fn run<R: Threads + Sync + Clock + Print + Eprint + Env + AllocGlobal>(rt: &R) -> io::Result<u8> {
    match words_of(rt)? {
        Some((work, count)) => Ok(if measure(rt, work, count)? { 0 } else { 6 }),
        None => {
            rt.eprint(USAGE)?;
            Ok(1)
        }
    }
}

fn main(rt: HostRuntime) -> ExitCode {
    ExitCode::from(run(&rt).unwrap_or(4))
}
