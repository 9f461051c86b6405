// What a line says, or why it says nothing.
ghost use Rattle.boot_text.specs.Said.{Tells, numbered as numbered_of};

use crate::cause::{Cause, Stop};
use crate::verb::Verb;

/// The verb, if all its words are of their form and in their range.
pub fn numbered(verb: Option<Verb>) -> Result<Verb, Stop>
    ensures { Tells result (numbered_of verb) }
{
    match verb {
        Some(verb) => Ok(verb),
        None => Err(Stop::Cause(Cause::Number)),
    }
}
