// The order in which what a link did stands in the picture. A trace has no clock: it tells in which order each unit did
// its own things, and this walk joins the orders of the two units of a link. The levels of a link are
// - a request that the server unit took: as late as may be, so before the copy that fetched it;
// - a copy of the server unit, in their order;
// - a request that it served: before the first copy under its tag, which tells the client of it;
// - an answer that the client took: behind the last copy under its tag, or, where it answers no unit of SRP, behind what
//   it answers.
use crate::columns::is_same;
use crate::entries::Entries;
use crate::link::Link;
use vio_num::{Entry, Kind, Served, UnitId};
use vio_trace::{CopyRow, Trace};

/// What stands in a level of a link.
#[derive(Clone, Copy, PartialEq, Eq)]
pub enum Step {
    /// An entry that the server unit took.
    Request,
    /// An entry that the client took.
    Answer,
    /// A copy that the server unit made.
    Copy,
    /// A request that the server unit served.
    Serve,
}

/// A place in the order of a link's levels.
#[derive(Clone, Copy)]
pub struct Walk<'a> {
    server: UnitId,
    requests: Entries<'a>,
    answers: Entries<'a>,
    copies: &'a [CopyRow],
    copy: usize,
    serves: &'a [Served],
    serve: usize,
    level: u64,
    // the requests that are units of SRP and were not fetched yet
    unfetched: u64,
    // the requests that are no units of SRP and were not answered yet
    unanswered: u64,
    // the mark of the last copy; 0 after a fetch
    mark: u64,
}

// Tells whether an entry carries a unit of SRP.
fn is_srp(entry: Entry) -> bool {
    entry.kind() == Kind::Command && entry.format() == 1
}

// Tells whether a partner answers the entry by one that carries no unit of SRP.
fn is_answered(entry: Entry) -> bool {
    match entry.kind() {
        Kind::Init => entry.format() == 1,
        Kind::Command => entry.format() != 1,
        _ => false,
    }
}

/// The tag of a request's information unit, 0 where it is too short to have one.
pub fn tag_of(iu: &[u8]) -> u64 {
    match iu {
        [_, _, _, _, _, _, _, _, a, b, c, d, e, f, g, h, ..] => {
            u64::from_be_bytes([*a, *b, *c, *d, *e, *f, *g, *h])
        }
        _ => 0,
    }
}

// Tells whether a copy fetched an information unit: it went to the first page of the copier.
fn is_fetch(copy: &CopyRow) -> bool {
    copy.mark == 0
        && match copy.to.as_slice() {
            [piece, ..] => is_same(piece.unit, copy.unit) && piece.page == 0,
            [] => false,
        }
}

// Finds the next copy of the unit, from a place on.
fn copy_from(copies: &[CopyRow], unit: UnitId, from: usize) -> usize {
    for at in from..copies.len() {
        if is_same(copies[at].unit, unit) {
            return at;
        }
    }
    copies.len()
}

// Finds the next request that the unit served, from a place on.
fn serve_from(serves: &[Served], unit: UnitId, from: usize) -> usize {
    for at in from..serves.len() {
        if is_same(serves[at].unit, unit) {
            return at;
        }
    }
    serves.len()
}

impl<'a> Walk<'a> {
    /// The place before the first level of a link, which has this number.
    pub fn of(trace: &'a Trace, link: Link, level: u64) -> Walk<'a> {
        let queues = trace.queues.as_slice();
        let copies = trace.copies.as_slice();
        let serves = trace.serves.as_slice();
        let answers = if is_same(link.server, link.client) {
            Entries::none(queues, link.client)
        } else {
            Entries::of(queues, link.client)
        };
        Walk {
            server: link.server,
            requests: Entries::of(queues, link.server),
            answers,
            copies,
            copy: copy_from(copies, link.server, 0),
            serves,
            serve: serve_from(serves, link.server, 0),
            level,
            unfetched: 0,
            unanswered: 0,
            mark: 0,
        }
    }

    // Tells whether the next answer is due before anything else is.
    fn is_due(&self, answer: Entry) -> bool {
        if !is_srp(answer) {
            return self.unanswered != 0;
        }
        let again = match self.copies.get(self.copy) {
            Some(copy) => copy.mark == self.mark,
            None => false,
        };
        self.mark != 0 && answer.low == self.mark && !again
    }

    // Tells whether the next request that was served has this tag.
    fn is_served(&self, tag: u64) -> bool {
        match self.serves.get(self.serve) {
            Some(served) => tag_of(served.iu.as_slice()) == tag,
            None => false,
        }
    }

    // Says whether a request stands before the next copy: the one that it fetched, or one that was served before it.
    fn copy_step(&self, copy: &CopyRow) -> Step {
        if is_fetch(copy) && self.unfetched == 0 && self.requests.next().is_some() {
            Step::Request
        } else if copy.mark != 0 && self.is_served(copy.mark) {
            Step::Serve
        } else {
            Step::Copy
        }
    }

    // Says what stands in the next level, an answer that is due aside.
    fn step_ahead(&self) -> Option<Step> {
        if let Some(copy) = self.copies.get(self.copy) {
            return Some(self.copy_step(copy));
        }
        if self.requests.next().is_some() {
            return Some(Step::Request);
        }
        match self.answers.next() {
            Some(answer) => Some(self.answer_step(answer)),
            None if self.serve < self.serves.len() => Some(Step::Serve),
            None => None,
        }
    }

    // Says whether the request that an answer answers stands first.
    fn answer_step(&self, answer: Entry) -> Step {
        if is_srp(answer) && self.is_served(answer.low) {
            Step::Serve
        } else {
            Step::Answer
        }
    }

    // Says what stands in the next level.
    fn next(&self) -> Option<Step> {
        match self.answers.next() {
            Some(answer) if self.is_due(answer) => Some(self.answer_step(answer)),
            _ => self.step_ahead(),
        }
    }

    fn pass_request(&mut self) {
        if let Some(entry) = self.requests.next() {
            if is_srp(entry) {
                self.unfetched = self.unfetched.saturating_add(1);
            } else if is_answered(entry) {
                self.unanswered = self.unanswered.saturating_add(1);
            }
        }
        self.requests.pass();
    }

    fn pass_answer(&mut self) {
        match self.answers.next() {
            Some(entry) if is_srp(entry) => self.mark = 0,
            _ => self.unanswered = self.unanswered.saturating_sub(1),
        }
        self.answers.pass();
    }

    fn pass_copy(&mut self) {
        if let Some(copy) = self.copies.get(self.copy) {
            self.mark = copy.mark;
            if is_fetch(copy) {
                self.unfetched = self.unfetched.saturating_sub(1);
            }
        }
        self.copy = copy_from(self.copies, self.server, self.copy.saturating_add(1));
    }

    fn pass_serve(&mut self) {
        self.serve = serve_from(self.serves, self.server, self.serve.saturating_add(1));
    }

    /// Goes over the next level, and says what stands in it; None behind the last.
    pub fn step(&mut self) -> Option<Step> {
        let step = self.next()?;
        match step {
            Step::Request => self.pass_request(),
            Step::Answer => self.pass_answer(),
            Step::Copy => self.pass_copy(),
            Step::Serve => self.pass_serve(),
        }
        self.level = self.level.saturating_add(1);
        Some(step)
    }

    /// Goes over the next level in which such a thing stands, and gives the level's number; that of the level behind
    /// the last where there is none.
    pub fn level_of(&mut self, wanted: Step) -> u64 {
        for _ in 0..u64::MAX {
            let level = self.level;
            match self.step() {
                Some(step) if step == wanted => return level,
                Some(_) => {}
                None => return level,
            }
        }
        self.level
    }

    /// Goes over all levels that are left, and gives the number of the level behind.
    pub fn end(&mut self) -> u64 {
        for _ in 0..u64::MAX {
            if self.step().is_none() {
                return self.level;
            }
        }
        self.level
    }
}
