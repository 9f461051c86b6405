// The words that say what a line is.
ghost use Rattle.std.specs.Prelude.{◌≡◌, ◌==◌, length};
ghost use Rattle.boot_text.specs.Keywords.{keyword as keyword_of, fixed_keyword as fixed_keyword_of, is_decimal as is_decimal_of, verb_name as verb_name_of, login_verb as login_verb_of, client_verb as client_verb_of, port_verb as port_verb_of, common_verb as common_verb_of};

use crate::verb::VerbName;
use crate::words::is_text;

/// What a line is, by its first word.
#[derive(Clone, Copy, Debug, PartialEq, Eq)]
pub enum Keyword {
    Version,
    Rounds,
    Grant,
    Partition,
    Server,
    Client,
    Lan,
    End,
    Script,
}

/// What a line is whose first word this is.
pub fn line_keyword(word: &[u8]) -> Option<Keyword>
    ensures { result ≡ keyword_of word.now }
{
    if is_decimal(word) {
        Some(Keyword::Script)
    } else {
        fixed_keyword(word)
    }
}

fn fixed_keyword(word: &[u8]) -> Option<Keyword>
    ensures { result ≡ fixed_keyword_of word.now }
{
    if is_text(word, b"vio") {
        Some(Keyword::Version)
    } else if is_text(word, b"rounds") {
        Some(Keyword::Rounds)
    } else if is_text(word, b"grant") {
        Some(Keyword::Grant)
    } else if is_text(word, b"partition") {
        Some(Keyword::Partition)
    } else if is_text(word, b"server") {
        Some(Keyword::Server)
    } else if is_text(word, b"client") {
        Some(Keyword::Client)
    } else if is_text(word, b"lan") {
        Some(Keyword::Lan)
    } else if is_text(word, b"end") {
        Some(Keyword::End)
    } else {
        None
    }
}

fn is_decimal(word: &[u8]) -> bool
    ensures { result ≡ is_decimal_of word.now }
{
    word.iter().all(|digit| digit.is_ascii_digit())
}

/// What a script line does whose second word this is.
pub fn verb_name(word: &[u8]) -> Option<VerbName>
    ensures { result ≡ verb_name_of word.now }
{
    if let Some(name) = login_verb(word) {
        Some(name)
    } else if let Some(name) = client_verb(word) {
        Some(name)
    } else if let Some(name) = port_verb(word) {
        Some(name)
    } else {
        common_verb(word)
    }
}

fn login_verb(word: &[u8]) -> Option<VerbName>
    ensures { result ≡ login_verb_of word.now }
{
    if is_text(word, b"login") {
        Some(VerbName::Login)
    } else if is_text(word, b"reset") {
        Some(VerbName::Reset)
    } else if is_text(word, b"logout") {
        Some(VerbName::Logout)
    } else {
        None
    }
}

fn client_verb(word: &[u8]) -> Option<VerbName>
    ensures { result ≡ client_verb_of word.now }
{
    if is_text(word, b"tur") {
        Some(VerbName::Tur)
    } else if is_text(word, b"read") {
        Some(VerbName::Read)
    } else if is_text(word, b"write") {
        Some(VerbName::Write)
    } else if is_text(word, b"cdb") {
        Some(VerbName::Command)
    } else if is_text(word, b"task") {
        Some(VerbName::Task)
    } else if is_text(word, b"data") {
        Some(VerbName::Data)
    } else {
        None
    }
}

fn port_verb(word: &[u8]) -> Option<VerbName>
    ensures { result ≡ port_verb_of word.now }
{
    if is_text(word, b"open") {
        Some(VerbName::Open)
    } else if is_text(word, b"close") {
        Some(VerbName::Close)
    } else if is_text(word, b"post") {
        Some(VerbName::Post)
    } else if is_text(word, b"send") {
        Some(VerbName::Send)
    } else if is_text(word, b"mac") {
        Some(VerbName::ChangeMac)
    } else if is_text(word, b"mcast") {
        Some(VerbName::Multicast)
    } else {
        None
    }
}

fn common_verb(word: &[u8]) -> Option<VerbName>
    ensures { result ≡ common_verb_of word.now }
{
    if is_text(word, b"take") {
        Some(VerbName::Take)
    } else if is_text(word, b"fill") {
        Some(VerbName::Fill)
    } else if is_text(word, b"poke") {
        Some(VerbName::Poke)
    } else if is_text(word, b"peek") {
        Some(VerbName::Peek)
    } else if is_text(word, b"tce") {
        Some(VerbName::Tce)
    } else if is_text(word, b"hcall") {
        Some(VerbName::Hcall)
    } else if is_text(word, b"fail") {
        Some(VerbName::Fail)
    } else {
        None
    }
}
