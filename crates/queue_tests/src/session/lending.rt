// What the owner of a link knows once an end is given back.
ghost use Rattle.std.specs.Prelude.{◌≡◌, ◌<◌, [], false, IfOk};
ghost use Rattle.crq_session.specs.Answers.{IfGot, IfEmpty};
ghost use Rattle.crq_session.specs.Answered.{Takes, FindsNone};
ghost use Rattle.crq_session.specs.EndState.{OnlyTakes};
ghost use Rattle.crq_session.specs.PlainState.{end_of, end_by};

use crq_session::{CrqEnd, PlainLink, PollAnswer};
use std::test::Fail;
use vio_num::NoMemory;

fn poll_side(link: &mut PlainLink, first: bool) -> PollAnswer
    requires { 0 < (end_of [] link.old first).spare }
    ensures got { IfGot result (Takes false (end_by link.entry.ghost_name link.old first)
        (end_by link.entry.ghost_name link.new first)) }
    ensures rest { OnlyTakes false (end_by link.entry.ghost_name link.old first)
        (end_by link.entry.ghost_name link.new first) }
{
    link.side(first).poll()
}

fn poll_end<E: CrqEnd>(end: &mut E) -> Result<PollAnswer, NoMemory>
    ensures got { IfOk result (λ answer.
        IfGot answer (Takes E.is_shared (E.state end.old) (E.state end.new))) }
    ensures empty { IfOk result (λ answer.
        IfEmpty answer (FindsNone E.is_shared (E.state end.old) (E.state end.new))) }
{
    end.reserve(1)?;
    Ok(end.poll())
}

// What an end finds before it is registered, and then.
fn polled(link: &mut PlainLink) -> Result<(PollAnswer, PollAnswer), NoMemory> {
    let mut end = link.side(true);
    let before = poll_end(&mut end)?;
    end.reserve(3)?;
    end.register(0, 4096);
    Ok((before, end.poll()))
}

#[test]
fn a_side_is_polled_through_its_end(rt: HostRuntime) -> Result<(), Fail> {
    let mut link = PlainLink::open(rt.alloc(), 256, 256)?;
    let empty = PollAnswer::Empty { number: 0 };
    let found = polled(&mut link)?;
    link.side(true).reserve(1)?;
    let last = poll_side(&mut link, true);
    assert_eq!(rt; (found, last), ((PollAnswer::NotRegistered, empty), empty));
    Ok(())
}
