// Worked examples, and the edges of the limit.
ghost use Rattle.std.specs.Prelude.{◌≡◌};

use srp_credits::{CreditFault, Initiator, Target};

// A step of an initiator.
#[derive(Clone, Copy)]
enum Does {
    Login(u32),
    // A request with this tag is sent, if it is not outstanding.
    Send(u64),
    // The request with this tag is answered, with so many credits.
    Answered(u64, u32),
    Lost,
    MaySend,
    Outstanding,
}

// A step of a target.
#[derive(Clone, Copy)]
enum Takes {
    Login,
    Accept,
    // The oldest request is answered.
    Answer,
    Logout,
    Lost,
    Outstanding,
}

// What is seen of a step.
#[derive(Clone, Copy, PartialEq, Eq)]
enum Seen {
    Done,
    Refused(CreditFault),
    May(bool),
    Number(u64),
    // This many tags are outstanding, and this is the oldest, or 0.
    Tags(usize, u64),
    // The step has no place here.
    Other,
}

fn seen_of(answer: Result<(), CreditFault>) -> Seen {
    match answer {
        Ok(()) => Seen::Done,
        Err(fault) => Seen::Refused(fault),
    }
}

// Sends a request with this tag if it is not outstanding.
fn send(initiator: &mut Initiator, tag: u64) -> Result<(), CreditFault> {
    if initiator.outstanding().contains(&tag) {
        return Err(CreditFault::StrayTag(tag));
    }
    initiator.sent(tag)
}

// Sends as many requests as the limit allows, with the tags from `first` on, and tells how many are
// outstanding then.
fn send_all(initiator: &mut Initiator, first: u64) -> usize {
    for tag in first..first.saturating_add(300) {
        let _ = send(initiator, tag);
    }
    initiator.outstanding().len()
}

// Does a step of an initiator, and tells what is seen of it.
fn act(initiator: &mut Initiator, step: Does) -> Seen {
    match step {
        Does::Login(delta) => initiator.login(delta),
        Does::Send(tag) => return seen_of(send(initiator, tag)),
        Does::Answered(tag, delta) => return seen_of(initiator.answered(tag, delta)),
        Does::Lost => initiator.lost(),
        Does::MaySend => return Seen::May(initiator.may_send()),
        Does::Outstanding => {
            let tags = initiator.outstanding();
            return Seen::Tags(tags.len(), tags.first().copied().unwrap_or(0));
        }
    }
    Seen::Done
}

// Does the steps of the rows at a new initiator, and gives the number of the first that goes otherwise.
fn first_other(rows: &[(Does, Seen)]) -> Option<usize> {
    let mut initiator = Initiator::new();
    for (number, (step, want)) in rows.iter().enumerate() {
        if act(&mut initiator, *step) != *want {
            return Some(number);
        }
    }
    None
}

static INITIATOR: [(Does, Seen); 15] = [
    (Does::Send(5), Seen::Refused(CreditFault::NotLoggedIn)),
    (Does::MaySend, Seen::May(false)),
    (Does::Login(2), Seen::Done),
    (Does::MaySend, Seen::May(true)),
    (Does::Send(5), Seen::Done),
    (Does::Send(6), Seen::Done),
    (
        Does::Send(7),
        Seen::Refused(CreditFault::NoCredit { limit: 0 }),
    ),
    (Does::MaySend, Seen::May(false)),
    (
        Does::Answered(9, 1),
        Seen::Refused(CreditFault::StrayTag(9)),
    ),
    (Does::Answered(5, 1), Seen::Done),
    (Does::Outstanding, Seen::Tags(1, 6)),
    (
        Does::Answered(5, 1),
        Seen::Refused(CreditFault::StrayTag(5)),
    ),
    (Does::Lost, Seen::Done),
    (Does::Outstanding, Seen::Tags(0, 0)),
    (Does::Send(8), Seen::Refused(CreditFault::NotLoggedIn)),
];

#[test]
fn an_initiator_sends_what_was_granted(rt: HostRuntime) {
    assert_eq!(rt; first_other(&INITIATOR), None);
}

// Gives how many requests can be sent after a login that grants so many.
fn sent_after(delta: u32) -> usize {
    let mut initiator = Initiator::new();
    initiator.login(delta);
    send_all(&mut initiator, 0)
}

#[test]
fn at_most_two_hundred_count(rt: HostRuntime) {
    for (delta, want) in [(0, 0), (1, 1), (200, 200), (201, 200), (u32::MAX, 200)] {
        assert_eq!(rt;
            sent_after(delta),
            want,
            "after a login that grants {delta}"
        );
    }
}

// How many requests a login grants, how many an answer grants to one of them, and how many can be outstanding then.
static RAISES: [(u32, u32, usize); 8] = [
    (200, 0, 199),
    (200, 1, 200),
    (200, 5, 200),
    (200, u32::MAX, 200),
    (10, 0, 9),
    (10, 1, 10),
    (10, 5, 14),
    (10, u32::MAX, 200),
];

// Tells whether the request with this tag is answered where all were sent that a login grants.
fn answered_of_all(initiator: &mut Initiator, granted: u32, tag: u64, delta: u32) -> bool {
    initiator.login(granted);
    let _ = send_all(initiator, 0);
    initiator.answered(tag, delta).is_ok()
}

// Tells whether the request with tag 3 is answered, and how many can be outstanding then.
fn raised(granted: u32, delta: u32) -> (bool, usize) {
    let mut initiator = Initiator::new();
    let is_answered = answered_of_all(&mut initiator, granted, 3, delta);
    (is_answered, send_all(&mut initiator, 1000))
}

#[test]
fn an_answer_raises_the_limit_to_the_cap(rt: HostRuntime) {
    for (granted, delta, want) in RAISES.iter() {
        assert_eq!(rt;
            raised(*granted, *delta),
            (true, *want),
            "after an answer that grants {delta}"
        );
    }
}

// Tells whether these are the tags below 200 but for one, in their order.
fn are_others(tags: &[u64], answered: u64) -> bool {
    let mut others = tags.iter().zip(0u64..199);
    tags.len() == 199 && others.all(|(tag, k)| *tag == if k < answered { k } else { k + 1 })
}

// Tells whether one of 200 requests is answered, and the others stay in their order.
fn keeps_others(answered: u64) -> (bool, bool) {
    let mut initiator = Initiator::new();
    let is_answered = answered_of_all(&mut initiator, 200, answered, 1);
    (is_answered, are_others(initiator.outstanding(), answered))
}

#[test]
fn the_others_keep_their_order(rt: HostRuntime) {
    for answered in [0, 100, 199] {
        assert_eq!(rt; keeps_others(answered), (true, true), "{answered}");
    }
}

// A target that grants two requests.
#[derive(Drop)]
struct Granting {
    target: Target,
    is_on: bool,
    logins: u32,
    ghost on: { target.on ≡ is_on },
    ghost counted: { target.logins ≡ logins },
}

impl Granting {
    fn new() -> Granting {
        Granting {
            target: Target::new(2),
            is_on: false,
            logins: 0,
        }
    }

    fn login(&mut self) -> Seen {
        let Some(logins) = self.logins.checked_add(1) else {
            return Seen::Other;
        };
        if self.is_on {
            return Seen::Other;
        }
        let number = self.target.login();
        self.is_on = true;
        self.logins = logins;
        Seen::Number(number)
    }

    fn answer(&mut self) -> Seen {
        if self.target.outstanding() == 0 {
            return Seen::Other;
        }
        self.target.answer();
        Seen::Done
    }

    fn end(&mut self, is_lost: bool) -> Seen {
        if is_lost {
            self.target.lost();
        } else {
            self.target.logout();
        }
        self.is_on = false;
        Seen::Done
    }

    // Does a step, and tells what is seen of it.
    fn does(&mut self, step: Takes) -> Seen {
        match step {
            Takes::Login => self.login(),
            Takes::Accept => seen_of(self.target.accept()),
            Takes::Answer => self.answer(),
            Takes::Logout => self.end(false),
            Takes::Lost => self.end(true),
            Takes::Outstanding => Seen::Number(u64::from(self.target.outstanding())),
        }
    }
}

// Does the steps of the rows at a new target, and gives the number of the first that goes otherwise.
fn first_other_taken(rows: &[(Takes, Seen)]) -> Option<usize> {
    let mut granting = Granting::new();
    for (number, (step, want)) in rows.iter().enumerate() {
        if granting.does(*step) != *want {
            return Some(number);
        }
    }
    None
}

// The fault of a third request.
const OVER: Seen = Seen::Refused(CreditFault::OverLimit {
    outstanding: 3,
    granted: 2,
});

const NOT_LOGGED_IN: Seen = Seen::Refused(CreditFault::NotLoggedIn);

static TARGET: [(Takes, Seen); 17] = [
    (Takes::Accept, NOT_LOGGED_IN),
    (Takes::Login, Seen::Number(1)),
    (Takes::Accept, Seen::Done),
    (Takes::Accept, Seen::Done),
    (Takes::Accept, OVER),
    (Takes::Outstanding, Seen::Number(2)),
    (Takes::Answer, Seen::Done),
    (Takes::Accept, Seen::Done),
    (Takes::Logout, Seen::Done),
    (Takes::Answer, Seen::Done),
    (Takes::Accept, NOT_LOGGED_IN),
    (Takes::Login, Seen::Number(2)),
    (Takes::Accept, Seen::Done),
    (Takes::Accept, Seen::Done),
    (Takes::Accept, OVER),
    (Takes::Lost, Seen::Done),
    (Takes::Login, Seen::Number(3)),
];

#[test]
fn a_target_takes_what_it_grants(rt: HostRuntime) {
    assert_eq!(rt; first_other_taken(&TARGET), None);
}
