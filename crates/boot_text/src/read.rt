// The plan that a boot text says, line by line.
ghost use Rattle.std.specs.Prelude.{◌≡◌, ◌≤◌, IfOk, IfErr, length, map};
ghost use Rattle.boot_text.specs.BootText.{plan_of, SaysPlan, IsFault, read_from};
ghost use Rattle.boot_text.specs.SoFar.{nothing};
ghost use Rattle.boot_text.specs.Sound.{IsSound};

use crate::cause::{Cause, PlanFault};
use crate::draft::Draft;
use crate::judge::take_line;
use crate::plan::Plan;
use crate::words::lines;
use std::alloc::Global;

/// The length in bytes of the longest boot text.
pub const MOST_TEXT: usize = 1_048_576;
/// The length in bytes of the longest line.
pub const MOST_LINE: usize = 1_024;

/// The plan that the text says, or the first line that is wrong and its first cause. Lines count from 1; a text that is too
/// long is told of line 0, and one that ends too early of the line behind its last.
pub fn read_plan(alloc: Global, bytes: &[u8]) -> Result<Plan, PlanFault>
    ensures plan { IfOk result (SaysPlan (plan_of bytes.now)) }
    ensures fault { IfErr result (IsFault (plan_of bytes.now)) }
    ensures sound { IfOk result IsSound }
{
    if bytes.len() > MOST_TEXT {
        return Err(PlanFault::Refused {
            line: 0,
            cause: Cause::TooLong,
        });
    }
    match lines(alloc, bytes) {
        Ok(lines) => read_lines(alloc, lines.as_slice()),
        Err(_) => Err(PlanFault::NoMemory),
    }
}

// Reads the plan of these lines.
fn read_lines(alloc: Global, lines: &[&[u8]]) -> Result<Plan, PlanFault>
    requires { length lines.now ≤ 1048577 }
    ensures plan { IfOk result
        (SaysPlan (read_from 1 nothing (map (λ line. line.now) lines.now))) }
    ensures fault { IfErr result
        (IsFault (read_from 1 nothing (map (λ line. line.now) lines.now))) }
{
    let mut draft = Draft::new(alloc);
    let mut number = 1;
    for line in lines {
        if let Err(stop) = take_line(alloc, &mut draft, number, line) {
            return Err(stop.at(number));
        }
        number += 1;
    }
    draft.finish(number)
}
