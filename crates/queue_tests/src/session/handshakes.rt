// The table of the handshake, by state and entry.
use crq_session::{Handshake, Step};
use vio_num::Entry;

// A state, the first half-word of an entry that comes, the state then, and what is to be done.
static TABLE: [(Handshake, u64, Handshake, Step); 15] = [
    (Handshake::Down, 0xC001, Handshake::Down, Step::Nothing),
    (Handshake::Down, 0xC002, Handshake::Down, Step::Nothing),
    (Handshake::Down, 0xFF02, Handshake::Down, Step::Nothing),
    (Handshake::Down, 0x8001, Handshake::Down, Step::Nothing),
    (
        Handshake::Waiting,
        0xC001,
        Handshake::Up,
        Step::SendComplete,
    ),
    (Handshake::Waiting, 0xC002, Handshake::Up, Step::Nothing),
    (
        Handshake::Waiting,
        0xC003,
        Handshake::Waiting,
        Step::Nothing,
    ),
    (
        Handshake::Waiting,
        0xFF02,
        Handshake::Waiting,
        Step::Nothing,
    ),
    (
        Handshake::Waiting,
        0x8001,
        Handshake::Waiting,
        Step::Nothing,
    ),
    (Handshake::Up, 0xC001, Handshake::Up, Step::SendComplete),
    (Handshake::Up, 0xC002, Handshake::Up, Step::Nothing),
    (Handshake::Up, 0xFF01, Handshake::Waiting, Step::Nothing),
    (Handshake::Up, 0xFF02, Handshake::Waiting, Step::Nothing),
    (Handshake::Up, 0x8002, Handshake::Up, Step::Nothing),
    (Handshake::Up, 0x0001, Handshake::Up, Step::Nothing),
];

// The entry whose first half-word is this.
fn entry(first: u64) -> Entry {
    Entry {
        high: first << 48,
        low: 0,
    }
}

// What is to be done where an entry comes, and the state then.
fn taken(mut state: Handshake, first: u64) -> (Step, Handshake) {
    let step = state.got(entry(first));
    (step, state)
}

#[test]
fn each_state_takes_each_entry(rt: HostRuntime) {
    for (state, first, after, step) in TABLE.iter() {
        assert_eq!(rt; taken(*state, *first), (*step, *after));
    }
}

// The high half of the entry that is to be sent, if one is.
fn high_of(step: Step) -> Option<u64> {
    Some(step.entry()?.high)
}

// What is sent where a queue is registered and where the partner's entry comes, and the states after the registration
// and after the queue is freed.
fn begun_and_freed() -> ([Option<u64>; 2], Handshake, Handshake) {
    let mut handshake = Handshake::Down;
    let first = high_of(handshake.registered());
    let waiting = handshake;
    let second = high_of(handshake.got(entry(0xC001)));
    handshake.freed();
    ([first, second], waiting, handshake)
}

#[test]
fn a_queue_that_is_registered_and_freed(rt: HostRuntime) {
    let highs = [Some(0xC001 << 48), Some(0xC002 << 48)];
    let want = (highs, Handshake::Waiting, Handshake::Down);
    assert_eq!(rt; begun_and_freed(), want);
    assert_eq!(rt; Step::Nothing.entry(), None);
}
