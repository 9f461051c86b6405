// What is done at one end of a link, and what is seen of it.
use super::step::{Act, Seen};
use crq_session::{CrqEnd, PlainLink, PollAnswer, SendAnswer};
use vio_num::{Entry, NoMemory};

/// Does it at the link's first side, or at the other.
pub fn act(link: &mut PlainLink, first: bool, act: Act) -> Result<Seen, NoMemory> {
    match act {
        Act::Register => register(link, first),
        Act::Free => free(link, first),
        Act::Fail => fail(link, first),
        Act::Send(entry) => send(link, first, entry),
        Act::SendAll(count) => send_all(link, first, count),
        Act::Poll => poll(link, first),
        Act::PollAll(count) => poll_all(link, first, count),
    }
}

fn register(link: &mut PlainLink, first: bool) -> Result<Seen, NoMemory> {
    let mut end = link.side(first);
    end.reserve(1)?;
    Ok(Seen::Registered(end.register(0, 4096)))
}

fn free(link: &mut PlainLink, first: bool) -> Result<Seen, NoMemory> {
    let mut end = link.side(first);
    end.reserve(1)?;
    Ok(Seen::Freed(end.free()))
}

fn fail(link: &mut PlainLink, first: bool) -> Result<Seen, NoMemory> {
    let mut end = link.side(first);
    end.reserve(1)?;
    Ok(Seen::Freed(end.fail()))
}

/// Sends an entry.
pub fn send(link: &mut PlainLink, first: bool, entry: Entry) -> Result<Seen, NoMemory> {
    let mut end = link.side(first);
    end.reserve(1)?;
    Ok(match end.send(entry) {
        SendAnswer::Success { number } => Seen::Put(number),
        answer => Seen::NotPut(answer),
    })
}

fn send_all(link: &mut PlainLink, first: bool, count: usize) -> Result<Seen, NoMemory> {
    let mut seen = Seen::Nothing;
    for _ in 0..count {
        seen = send(link, first, Entry::srp(16, 0))?;
    }
    Ok(seen)
}

fn poll(link: &mut PlainLink, first: bool) -> Result<Seen, NoMemory> {
    let mut end = link.side(first);
    end.reserve(1)?;
    Ok(match end.poll() {
        PollAnswer::Got { number: _, entry } => seen_of(entry),
        PollAnswer::Empty { number } => Seen::Empty(number),
        PollAnswer::NotRegistered => Seen::Nothing,
    })
}

fn poll_all(link: &mut PlainLink, first: bool, count: usize) -> Result<Seen, NoMemory> {
    let mut seen = Seen::Nothing;
    for _ in 0..count {
        seen = poll(link, first)?;
    }
    Ok(seen)
}

// Tells the entry of a unit from others.
fn seen_of(entry: Entry) -> Seen {
    let len = entry.iu_len();
    if entry == Entry::srp(len, entry.low) {
        Seen::Unit(len, entry.low)
    } else {
        Seen::Entry(entry)
    }
}
