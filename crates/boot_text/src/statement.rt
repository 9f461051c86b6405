// What a line says, by itself.
ghost use Rattle.std.specs.Prelude.{◌≡◌, ◌≤◌, IfOk, IfSome, length};
ghost use Rattle.boot_text.specs.SoFar.{kind_of};
ghost use Rattle.boot_text.specs.Said.{Tells};
ghost use Rattle.boot_text.specs.Statement.{verb_of, statement_of, rounds_of, grant_of, partition_of, end_of, server_of, client_of, client_numbers, lan_of, lan_numbers, script_of, port_mac, is_zero_mac, version_of};

use crate::cause::{Cause, Stop};
use crate::common_script::{fill_line, hcall_line, peek_line, poke_line, tce_line};
use crate::keyword::Keyword;
use crate::names::{Name, mac, unit_name};
use crate::numbers::{number, number_in};
use crate::port_script::{change_mac_line, multicast_line, post_line, send_line};
use crate::script::{
    alone_line, command_line, data_line, read_line, take_line, task_line, write_line,
};
use crate::verb::{Verb, VerbName};
use crate::words::{Words, is_text};
use std::alloc::Global;
use vio_num::Mac;

/// The most rounds of a plan.
pub const MOST_ROUNDS: u64 = 1_048_576;
/// The largest grant, in credits.
pub const MOST_GRANT: u64 = 200;
/// The largest queue, in pages of 256 entries.
pub const MOST_QUEUE: u64 = 16;
/// The smallest region of a client unit, in pages of 4,096 bytes.
pub const LEAST_CLIENT_PAGES: u64 = 14;
/// The largest region of a unit, in pages of 4,096 bytes.
pub const MOST_UNIT_PAGES: u64 = 256;
/// The most receive slots of a LAN port.
pub const MOST_SLOTS: u64 = 1_024;

/// What a line says, by itself.
#[derive(Debug, Drop)]
pub enum Statement {
    Version,
    Rounds(u32),
    Grant(u8),
    Partition,
    End,
    Server { queue: u8 },
    Client { server: Name, pages: u16, queue: u8 },
    Lan { mac: Mac, pages: u16, slots: u16 },
    Script { unit: u64, verb: Verb },
}

/// What the words of a line say that begins with this keyword; of a script line, what it does is told apart.
pub fn read_statement(
    alloc: Global,
    keyword: Keyword,
    name: Option<VerbName>,
    words: &Words,
) -> Result<Statement, Stop>
    requires { 1 ≤ length words.now }
    ensures said { Tells result (statement_of keyword name words.now) }
    ensures kind { IfOk result (λ statement. kind_of statement ≡ keyword) }
{
    match keyword {
        Keyword::Version => version(words),
        Keyword::Rounds => rounds(words),
        Keyword::Grant => grant(words),
        Keyword::Partition => partition(words),
        Keyword::End => end(words),
        Keyword::Server => server(words),
        Keyword::Client => client(alloc, words),
        Keyword::Lan => lan(words),
        Keyword::Script => script(alloc, name, words),
    }
}

fn version(words: &Words) -> Result<Statement, Stop>
    ensures said { Tells result (version_of words.now) }
    ensures kind { IfOk result (λ statement. kind_of statement ≡ Keyword.Version) }
{
    if words.len() == 2 && is_text(words.at(1), b"1") {
        Ok(Statement::Version)
    } else {
        Err(Stop::Cause(Cause::Count))
    }
}

fn rounds(words: &Words) -> Result<Statement, Stop>
    ensures said { Tells result (rounds_of words.now) }
    ensures kind { IfOk result (λ statement. kind_of statement ≡ Keyword.Rounds) }
{
    if words.len() != 2 {
        return Err(Stop::Cause(Cause::Count));
    }
    match number_in(words.at(1), 1, MOST_ROUNDS) {
        Some(rounds) => Ok(Statement::Rounds(rounds as u32)),
        None => Err(Stop::Cause(Cause::Number)),
    }
}

fn grant(words: &Words) -> Result<Statement, Stop>
    ensures said { Tells result (grant_of words.now) }
    ensures kind { IfOk result (λ statement. kind_of statement ≡ Keyword.Grant) }
{
    if words.len() != 2 {
        return Err(Stop::Cause(Cause::Count));
    }
    match number_in(words.at(1), 1, MOST_GRANT) {
        Some(grant) => Ok(Statement::Grant(grant as u8)),
        None => Err(Stop::Cause(Cause::Number)),
    }
}

fn partition(words: &Words) -> Result<Statement, Stop>
    ensures said { Tells result (partition_of words.now) }
    ensures kind { IfOk result (λ statement. kind_of statement ≡ Keyword.Partition) }
{
    if words.len() == 1 {
        Ok(Statement::Partition)
    } else {
        Err(Stop::Cause(Cause::Count))
    }
}

fn end(words: &Words) -> Result<Statement, Stop>
    ensures said { Tells result (end_of words.now) }
    ensures kind { IfOk result (λ statement. kind_of statement ≡ Keyword.End) }
{
    if words.len() == 1 {
        Ok(Statement::End)
    } else {
        Err(Stop::Cause(Cause::Count))
    }
}

fn server(words: &Words) -> Result<Statement, Stop>
    ensures said { Tells result (server_of words.now) }
    ensures kind { IfOk result (λ statement. kind_of statement ≡ Keyword.Server) }
{
    if words.len() != 2 {
        return Err(Stop::Cause(Cause::Count));
    }
    match number_in(words.at(1), 1, MOST_QUEUE) {
        Some(queue) => Ok(Statement::Server { queue: queue as u8 }),
        None => Err(Stop::Cause(Cause::Number)),
    }
}

fn client(alloc: Global, words: &Words) -> Result<Statement, Stop>
    ensures said { Tells result (client_of words.now) }
    ensures kind { IfOk result (λ statement. kind_of statement ≡ Keyword.Client) }
{
    let is_form = words.len() == 6
        && is_text(words.at(2), b"pages")
        && is_text(words.at(4), b"queue");
    if !is_form {
        return Err(Stop::Cause(Cause::Count));
    }
    match unit_name(alloc, words.at(1))? {
        Some(server) => numbered_client(server, words.at(3), words.at(5)),
        None => Err(Stop::Cause(Cause::Number)),
    }
}

fn numbered_client(server: Name, pages: &[u8], queue: &[u8]) -> Result<Statement, Stop>
    ensures said { Tells result (client_numbers server pages.now queue.now) }
    ensures kind { IfOk result (λ statement. kind_of statement ≡ Keyword.Client) }
{
    match (
        number_in(pages, LEAST_CLIENT_PAGES, MOST_UNIT_PAGES),
        number_in(queue, 1, MOST_QUEUE),
    ) {
        (Some(pages), Some(queue)) => Ok(Statement::Client {
            server,
            pages: pages as u16,
            queue: queue as u8,
        }),
        _ => Err(Stop::Cause(Cause::Number)),
    }
}

fn lan(words: &Words) -> Result<Statement, Stop>
    ensures said { Tells result (lan_of words.now) }
    ensures kind { IfOk result (λ statement. kind_of statement ≡ Keyword.Lan) }
{
    let is_form = words.len() == 6
        && is_text(words.at(2), b"pages")
        && is_text(words.at(4), b"slots");
    if !is_form {
        return Err(Stop::Cause(Cause::Count));
    }
    match lan_port(words.at(1), words.at(3), words.at(5)) {
        Some(port) => Ok(port),
        None => Err(Stop::Cause(Cause::Number)),
    }
}

fn lan_port(address: &[u8], pages: &[u8], slots: &[u8]) -> Option<Statement>
    ensures said { result ≡ lan_numbers address.now pages.now slots.now }
    ensures kind { IfSome result (λ statement. kind_of statement ≡ Keyword.Lan) }
{
    let mac = own_mac(address)?;
    let pages = number_in(pages, 1, MOST_UNIT_PAGES)?;
    let slots = number_in(slots, 1, MOST_SLOTS)?;
    Some(Statement::Lan {
        mac,
        pages: pages as u16,
        slots: slots as u16,
    })
}

// The address of a port, which is neither a group's nor zero.
fn own_mac(word: &[u8]) -> Option<Mac>
    ensures { result ≡ port_mac word.now }
{
    let mac = mac(word)?;
    if mac.bytes[0] % 2 == 1 || is_zero(&mac.bytes) {
        None
    } else {
        Some(mac)
    }
}

fn is_zero(bytes: &[u8; 6]) -> bool
    ensures { result ≡ is_zero_mac bytes.now }
{
    bytes.iter().all(|byte| *byte == 0)
}

fn script(alloc: Global, name: Option<VerbName>, words: &Words) -> Result<Statement, Stop>
    requires { 1 ≤ length words.now }
    ensures said { Tells result (script_of name words.now) }
    ensures kind { IfOk result (λ statement. kind_of statement ≡ Keyword.Script) }
{
    let Some(name) = name else {
        return Err(Stop::Cause(Cause::Count));
    };
    let verb = read_verb(alloc, name, words)?;
    match number(words.at(0)) {
        Some(unit) => Ok(Statement::Script { unit, verb }),
        None => Err(Stop::Cause(Cause::Number)),
    }
}

// What a script line does.
fn read_verb(alloc: Global, name: VerbName, words: &Words) -> Result<Verb, Stop>
    ensures { Tells result (verb_of name words.now) }
{
    match name {
        VerbName::Login => alone_line(words, Verb::Login),
        VerbName::Reset => alone_line(words, Verb::Reset),
        VerbName::Logout => alone_line(words, Verb::Logout),
        VerbName::Tur => alone_line(words, Verb::Tur),
        VerbName::Read => read_line(words),
        VerbName::Write => write_line(words),
        VerbName::Command => command_line(alloc, words),
        VerbName::Task => task_line(words),
        VerbName::Take => take_line(words),
        VerbName::Data => data_line(words),
        VerbName::Open => alone_line(words, Verb::Open),
        VerbName::Close => alone_line(words, Verb::Close),
        VerbName::Post => post_line(words),
        VerbName::Send => send_line(words),
        VerbName::ChangeMac => change_mac_line(words),
        VerbName::Multicast => multicast_line(words),
        VerbName::Fill => fill_line(words),
        VerbName::Poke => poke_line(alloc, words),
        VerbName::Peek => peek_line(words),
        VerbName::Tce => tce_line(words),
        VerbName::Hcall => hcall_line(words),
        VerbName::Fail => alone_line(words, Verb::Fail),
    }
}
