// Where lines may stand, and which units a verb is for.
ghost use Rattle.std.specs.Prelude.{◌≡◌};
ghost use Rattle.boot_text.specs.SoFar.{follows, is_unit as is_unit_line, is_in_script as is_in_script_line, suits as suits_unit, is_for_client as is_for_client_verb, is_for_port as is_for_port_verb};

use crate::keyword::Keyword;
use crate::plan::UnitPlan;
use crate::verb::Verb;

/// Whether a line may stand behind one of that kind.
pub fn may_follow(last: Keyword, next: Keyword) -> bool
    ensures { result ≡ follows last next }
{
    match last {
        Keyword::Version => match next {
            Keyword::Rounds => true,
            _ => false,
        },
        Keyword::Rounds => match next {
            Keyword::Grant => true,
            _ => false,
        },
        Keyword::Grant => match next {
            Keyword::Partition => true,
            _ => false,
        },
        Keyword::End => match next {
            Keyword::Partition => true,
            _ => false,
        },
        Keyword::Partition => is_unit(next),
        Keyword::Server => is_unit(next) || is_in_script(next),
        Keyword::Client => is_unit(next) || is_in_script(next),
        Keyword::Lan => is_unit(next) || is_in_script(next),
        Keyword::Script => is_in_script(next),
    }
}

// Whether the line is a unit's.
fn is_unit(line: Keyword) -> bool
    ensures { result ≡ is_unit_line line }
{
    match line {
        Keyword::Server => true,
        Keyword::Client => true,
        Keyword::Lan => true,
        _ => false,
    }
}

// Whether the line is a script's, or ends a partition.
fn is_in_script(line: Keyword) -> bool
    ensures { result ≡ is_in_script_line line }
{
    match line {
        Keyword::Script => true,
        Keyword::End => true,
        _ => false,
    }
}

/// Whether the verb is one of this unit.
pub fn suits(verb: &Verb, unit: Option<UnitPlan>) -> bool
    ensures { result ≡ suits_unit verb.now unit }
{
    match unit {
        Some(UnitPlan::Client { .. }) => is_for_client(verb),
        Some(UnitPlan::Lan { .. }) => is_for_port(verb),
        Some(UnitPlan::Server { .. }) => false,
        None => false,
    }
}

// Whether the verb is one of a client.
fn is_for_client(verb: &Verb) -> bool
    ensures { result ≡ is_for_client_verb verb.now }
{
    match verb {
        Verb::Open => false,
        Verb::Close => false,
        Verb::Post { .. } => false,
        Verb::Send { .. } => false,
        Verb::ChangeMac { .. } => false,
        Verb::Multicast { .. } => false,
        _ => true,
    }
}

// Whether the verb is one of a LAN port.
fn is_for_port(verb: &Verb) -> bool
    ensures { result ≡ is_for_port_verb verb.now }
{
    match verb {
        Verb::Login => false,
        Verb::Reset => false,
        Verb::Logout => false,
        Verb::Tur => false,
        Verb::Read { .. } => false,
        Verb::Write { .. } => false,
        Verb::Command { .. } => false,
        Verb::CommandIn { .. } => false,
        Verb::CommandOut { .. } => false,
        Verb::Task { .. } => false,
        Verb::Data { .. } => false,
        _ => true,
    }
}
