// The calls of a client over any port, each with what is seen of its answer.
ghost use Rattle.std.specs.Prelude.{◌≡◌, ◌≤◌, IsTrue, MatchOption};
ghost use Rattle.vscsi_client.specs.Units.{FitsData, FitsOp};
ghost use Rattle.vscsi_client.specs.Transferred.{FitRows};

use super::step::{Call, Seen};
use crq_session::CrqEnd;
use srp_desc::MAX_DATA_LEN;
use tce_window::OwnerPort;
use vio_num::{Bytes, NoMemory};
use vscsi_client::{Client, DataFault, Dir, MIN_PAGES, Op, Refused, Taken};

/// The number of the line under whose mark a client writes.
const LINE: u64 = 7;

/// Makes a call of a client over any port.
pub fn make_call<C: CrqEnd, O: OwnerPort>(
    client: &mut Client,
    crq: &mut C,
    own: &mut O,
    call: Call,
) -> Result<Seen, NoMemory>
    requires pages { MIN_PAGES ≤ (O.state own.old).place.size }
    requires rows { FitRows (O.state own.old).place.size client.old }
    ensures place { (O.state own.new).place ≡ (O.state own.old).place }
    ensures held { (O.state own.new).held_count ≡ (O.state own.old).held_count }
    ensures rows { FitRows (O.state own.old).place.size client.new }
{
    match call {
        Call::Login => log_in(client, crq, own),
        Call::Submit(op) => Ok(submit_fit(client, crq, own, &op)),
        Call::Task(tag) => Ok(task(client, crq, own, tag)),
        Call::Logout => Ok(log_out(client, crq, own)),
        Call::Take => take(client, crq, own),
        Call::DataOf(tag) => Ok(data_of(client, own, tag)),
        Call::Outstanding => Ok(outstanding(client)),
    }
}

// Makes a turn of a login.
fn log_in<C: CrqEnd, O: OwnerPort>(
    client: &mut Client,
    crq: &mut C,
    own: &mut O,
) -> Result<Seen, NoMemory>
    requires pages { MIN_PAGES ≤ (O.state own.old).place.size }
    requires rows { FitRows (O.state own.old).place.size client.old }
    ensures place { (O.state own.new).place ≡ (O.state own.old).place }
    ensures held { (O.state own.new).held_count ≡ (O.state own.old).held_count }
    ensures rows { FitRows (O.state own.old).place.size client.new }
{
    let turn = client.login_turn(crq, own, LINE)?;
    Ok(Seen::Turned(turn))
}

// Sends a command, if it is one.
fn submit_fit<C: CrqEnd, O: OwnerPort>(
    client: &mut Client,
    crq: &mut C,
    own: &mut O,
    op: &Op,
) -> Seen
    requires pages { MIN_PAGES ≤ (O.state own.old).place.size }
    requires rows { FitRows (O.state own.old).place.size client.old }
    ensures place { (O.state own.new).place ≡ (O.state own.old).place }
    ensures held { (O.state own.new).held_count ≡ (O.state own.old).held_count }
    ensures rows { FitRows (O.state own.old).place.size client.new }
{
    if !is_fit(op) {
        return Seen::Barred;
    }
    submit(client, crq, own, op)
}

// Sends a command.
fn submit<C: CrqEnd, O: OwnerPort>(client: &mut Client, crq: &mut C, own: &mut O, op: &Op) -> Seen
    requires fits { FitsOp op.now }
    requires pages { MIN_PAGES ≤ (O.state own.old).place.size }
    requires rows { FitRows (O.state own.old).place.size client.old }
    ensures place { (O.state own.new).place ≡ (O.state own.old).place }
    ensures held { (O.state own.new).held_count ≡ (O.state own.old).held_count }
    ensures rows { FitRows (O.state own.old).place.size client.new }
{
    sent(client.submit(crq, own, op, LINE))
}

// Sends a task management request.
fn task<C: CrqEnd, O: OwnerPort>(client: &mut Client, crq: &mut C, own: &mut O, tag: u64) -> Seen
    requires pages { MIN_PAGES ≤ (O.state own.old).place.size }
    requires rows { FitRows (O.state own.old).place.size client.old }
    ensures place { (O.state own.new).place ≡ (O.state own.old).place }
    ensures held { (O.state own.new).held_count ≡ (O.state own.old).held_count }
    ensures rows { FitRows (O.state own.old).place.size client.new }
{
    sent(client.task(crq, own, 1, tag, LINE))
}

// Sends a logout.
fn log_out<C: CrqEnd, O: OwnerPort>(client: &mut Client, crq: &mut C, own: &mut O) -> Seen
    requires pages { MIN_PAGES ≤ (O.state own.old).place.size }
    requires rows { FitRows (O.state own.old).place.size client.old }
    ensures place { (O.state own.new).place ≡ (O.state own.old).place }
    ensures held { (O.state own.new).held_count ≡ (O.state own.old).held_count }
    ensures rows { FitRows (O.state own.old).place.size client.new }
{
    sent(client.logout(crq, own, LINE))
}

// Takes the next answer.
fn take<C: CrqEnd, O: OwnerPort>(
    client: &mut Client,
    crq: &mut C,
    own: &mut O,
) -> Result<Seen, NoMemory>
    requires pages { MIN_PAGES ≤ (O.state own.old).place.size }
    requires rows { FitRows (O.state own.old).place.size client.old }
    ensures place { (O.state own.new).place ≡ (O.state own.old).place }
    ensures held { (O.state own.new).held_count ≡ (O.state own.old).held_count }
    ensures rows { FitRows (O.state own.old).place.size client.new }
{
    let answer = client.take_answer(crq, own)?;
    Ok(taken(answer))
}

// Gives the data of a tag.
fn data_of<O: OwnerPort>(client: &mut Client, own: &mut O, tag: u64) -> Seen
    requires rows { FitRows (O.state own.old).place.size client.old }
    ensures place { (O.state own.new).place ≡ (O.state own.old).place }
    ensures held { (O.state own.new).held_count ≡ (O.state own.old).held_count }
    ensures rows { FitRows (O.state own.old).place.size client.new }
{
    gave(client.data_of(own, tag))
}

// Tells what is seen of a request.
fn sent(answer: Result<u64, Refused>) -> Seen {
    match answer {
        Ok(tag) => Seen::Sent(tag),
        Err(why) => Seen::Refused(why),
    }
}

// Tells what is seen of what was taken.
fn taken(taken: Taken) -> Seen {
    match taken {
        Taken::Answer { tag, rsp } => Seen::Answer(tag, rsp.delta, rsp.status),
        Taken::Stray(tag) => Seen::Stray(tag),
        Taken::Lost => Seen::Lost,
        Taken::Other => Seen::Other,
        Taken::Again { page, word } => Seen::Again(page, word),
        Taken::Empty { number } => Seen::Empty(number),
    }
}

// Tells what is seen of data.
fn gave(answer: Result<Bytes, DataFault>) -> Seen {
    match answer {
        Ok(bytes) => Seen::Gave(bytes.len(), bytes.as_slice().last().copied().unwrap_or(0)),
        Err(fault) => Seen::NoData(fault),
    }
}

// Tells which tags are outstanding.
fn outstanding(client: &Client) -> Seen {
    let tags = client.outstanding();
    Seen::Tags(tags.len(), tags.first().copied().unwrap_or(0))
}

// Tells whether this many pieces may be named, with a table or without.
fn is_listed(table: Option<u64>, pieces: u16) -> bool
    ensures { IsTrue result → MatchOption table (pieces ≤ 11) (λ _. pieces ≤ 256) }
{
    match table {
        None => pieces <= 11,
        Some(_) => pieces <= 256,
    }
}

// Tells whether a command's data are such as a caller may name.
fn has_data(op: &Op) -> bool
    ensures { IsTrue result → FitsData op.now }
{
    op.len <= MAX_DATA_LEN
        && op.pieces >= 1
        && u32::from(op.pieces) <= op.len
        && is_listed(op.table, op.pieces)
}

// Tells whether a command is such as a caller may send.
fn is_fit(op: &Op) -> bool
    ensures { IsTrue result → FitsOp op.now }
{
    match op.dir {
        Dir::Neither => op.len == 0 && op.pieces == 0 && op.table.is_none(),
        Dir::In => has_data(op),
        Dir::Out => has_data(op),
    }
}
