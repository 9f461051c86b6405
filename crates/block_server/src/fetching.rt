// What a command brings: the tables of its descriptors, and its data-out.
ghost use Rattle.block_server.specs.Cargo.{IsAccounted, IsFetchedAll, Sight, cargo_at, data_total, seen};
ghost use Rattle.block_server.specs.Numbered.{NamesNext, ReadsNext};
ghost use Rattle.srp_desc.specs.declared.pieces.TheConstants.{MAX_DATA_LEN};
ghost use Rattle.block_server.specs.Parts.{IsPlacedAt};
ghost use Rattle.vio_num.specs.declared.history.Served.{Served};
ghost use Rattle.std.specs.Prelude.{◌≡◌, ◌⊎◌, ◌%◌, ◌≤◌, Bool, IfOk, List, Option, Some, false, true};
ghost use Rattle.block_server.specs.Advances.{Advances};
ghost use Rattle.block_server.specs.Causes.{IsBad, IsNamed, RefusesBuffer, RefusesData, RefusesOut, Told, TurnsDown, told_to};
ghost use Rattle.block_server.specs.Fetched.{DeniesTable, HasBadSum, IfDone, IfRefused, IfStill, IsRead, KnowsPieces};
ghost use Rattle.block_server.specs.Moves.{Passes};
ghost use Rattle.vio_num.specs.declared.names.UnitId.{UnitId};
ghost use Rattle.block_server.specs.Ranges.{client_known};
ghost use Rattle.block_server.specs.Heard.{TellsAll, heard_between};
ghost use Rattle.tce_window.specs.declared.answers.Right.TheVariants.{Read};
ghost use Rattle.tce_window.specs.PortState.{PortState};
ghost use Rattle.block_server.specs.Standing.{stood};
ghost use Rattle.block_server.specs.Talk.{StaysKnown};
ghost use Rattle.block_server.specs.Stage.{has_outs, is_before_step, is_data_out, is_judged};
ghost use Rattle.block_server.specs.Waits.{MeetsUse};

use crate::answers::total_len;
use crate::cursor::Cursor;
use crate::data_pieces::DataPieces;
use crate::service::{Service, Stage};
use crate::site::{Halt, Site};
use srp_desc::{
    MAX_TABLE_LEN, Pieces, fetched_table_is_read, named_pieces_sum_up, pieces_of, read_table,
    tables_to_fetch,
};
use srp_iu::{Buffer, Cmd, Desc};
use vio_num::NoMemory;

/// How far some copies came.
#[derive(Clone, Copy, Debug, PartialEq, Eq)]
pub(crate) enum Progress {
    /// All were made.
    Done,
    /// The descriptors, or the client's window, refuse one.
    Refused,
    /// A page is in use: the rest is tried again.
    Busy,
}

/// Fetches what is left to be fetched before the disk step.
pub(crate) fn fetch<S: Site>(
    service: &mut Service,
    site: &mut S,
    command: &Cmd,
) -> Result<Progress, NoMemory>
    ensures before { is_before_step service.old.stage ≡ true →
        is_before_step service.new.stage ≡ true }
    ensures named { (told : Told → Bool) → (id : UnitId) →
        TellsAll told id (S.state site.old) (S.state site.new) →
        KnowsPieces (told_to told id) command.now service.old →
        KnowsPieces (told_to told id) command.now service.new }
    ensures refused { (told : Told → Bool) → (id : UnitId) →
        TellsAll told id (S.state site.old) (S.state site.new) →
        KnowsPieces (told_to told id) command.now service.old →
        IfRefused result (TurnsDown (told_to told id) command.now) }
    ensures busy { IfOk result (λ progress. progress ≡ Progress.Busy →
        MeetsUse (S.state site.old) (S.state site.new)) }
    ensures went { IfOk result (λ progress. progress ≡ Progress.Done →
        is_before_step service.old.stage ≡ true → is_data_out service.new.stage ≡ true) }
    ensures queue { (S.state site.new).queue ≡ (S.state site.old).queue }
    ensures advances { Advances (S.state site.old) (S.state site.new) }
    ensures passes { Passes (S.state site.old) (S.state site.new) }
    ensures cargo { (id : UnitId) → (told : Told → Bool) → (asked : Bool) →
        TellsAll told id (S.state site.old) (S.state site.new) → (rows : List Served) →
        IsAccounted told asked (cargo_at id service.old
        (seen (Some command.now) (S.state site.old)) rows) →
        IsAccounted told asked (cargo_at id service.new
        (seen (Some command.now) (S.state site.new)) rows) }
    ensures all { (id : UnitId) → (told : Told → Bool) → (asked : Bool) →
        TellsAll told id (S.state site.old) (S.state site.new) → (rows : List Served) →
        IsAccounted told asked (cargo_at id service.old
        (seen (Some command.now) (S.state site.old)) rows) →
        IfDone result (IsFetchedAll service.new) }
    ensures known { client_known (S.state site.new) ≡ client_known (S.state site.old) }
    ensures stood { (client : PortState) → StaysKnown client (S.state site.old).client →
        (S.state site.old).shared ≡ false → KnowsPieces (stood client) command.now service.old →
        KnowsPieces (stood client) command.now service.new }
{
    if is_refused(service, command) {
        return Ok(Progress::Refused);
    }
    let progress = fetch_out_pieces(service, site, command)?;
    if progress != Progress::Done {
        return Ok(progress);
    }
    let progress = fetch_in_pieces(service, site, command)?;
    if progress != Progress::Done {
        return Ok(progress);
    }
    fetch_data_out(service, site)
}

// Judges the descriptors of a command, if that is to be done: whether one of its buffers is refused by itself.
fn is_refused(service: &mut Service, command: &Cmd) -> bool
    ensures before { is_before_step service.old.stage ≡ true →
        is_before_step service.new.stage ≡ true }
    ensures named { (told : Told → Bool) → (id : UnitId) →
        KnowsPieces (told_to told id) command.now service.old →
        KnowsPieces (told_to told id) command.now service.new }
    ensures went { result ≡ false → is_before_step service.old.stage ≡ true →
        is_judged service.new.stage ≡ true }
    ensures refused { result ≡ true → IsBad command.now.out ⊎ IsBad command.now.inn }
    ensures cargo { (id : UnitId) → (shown : Sight) → (rows : List Served) →
        cargo_at id service.new shown rows ≡ cargo_at id service.old shown rows }
    ensures stood { (client : PortState) → KnowsPieces (stood client) command.now service.old →
        KnowsPieces (stood client) command.now service.new }
{
    if service.stage != Stage::Start {
        return false;
    }
    match tables_to_fetch(command) {
        Ok(_) => {
            service.stage = Stage::OutTable;
            false
        }
        Err(_) => true,
    }
}

// Finds the pieces of data-out, if that is to be done.
fn fetch_out_pieces<S: Site>(
    service: &mut Service,
    site: &mut S,
    command: &Cmd,
) -> Result<Progress, NoMemory>
    ensures before { is_before_step service.old.stage ≡ true →
        is_before_step service.new.stage ≡ true }
    ensures named { (told : Told → Bool) → (id : UnitId) →
        TellsAll told id (S.state site.old) (S.state site.new) →
        KnowsPieces (told_to told id) command.now service.old →
        KnowsPieces (told_to told id) command.now service.new }
    ensures refused { IfRefused result
        (RefusesBuffer (heard_between (S.state site.old) (S.state site.new)) command.now.out) }
    ensures busy { IfOk result (λ progress. progress ≡ Progress.Busy →
        MeetsUse (S.state site.old) (S.state site.new)) }
    ensures went { IfOk result (λ progress. progress ≡ Progress.Done →
        is_judged service.old.stage ≡ true → has_outs service.new.stage ≡ true) }
    ensures queue { (S.state site.new).queue ≡ (S.state site.old).queue }
    ensures advances { Advances (S.state site.old) (S.state site.new) }
    ensures passes { Passes (S.state site.old) (S.state site.new) }
    ensures cargo { (id : UnitId) → (told : Told → Bool) → (asked : Bool) →
        TellsAll told id (S.state site.old) (S.state site.new) → (rows : List Served) →
        IsAccounted told asked (cargo_at id service.old
        (seen (Some command.now) (S.state site.old)) rows) →
        IsAccounted told asked (cargo_at id service.new
        (seen (Some command.now) (S.state site.new)) rows) }
    ensures known { client_known (S.state site.new) ≡ client_known (S.state site.old) }
    ensures stood { (client : PortState) → StaysKnown client (S.state site.old).client →
        (S.state site.old).shared ≡ false → KnowsPieces (stood client) command.now service.old →
        KnowsPieces (stood client) command.now service.new }
{
    if service.stage != Stage::OutTable {
        return Ok(Progress::Done);
    }
    let progress = fetch_pieces(&mut service.out, site, &command.out)?;
    if progress == Progress::Done {
        service.stage = Stage::InTable;
    }
    Ok(progress)
}

// Finds the pieces of data-in, if that is to be done. Where they are refused, and that is tried again, both
// tables are fetched anew.
fn fetch_in_pieces<S: Site>(
    service: &mut Service,
    site: &mut S,
    command: &Cmd,
) -> Result<Progress, NoMemory>
    ensures before { is_before_step service.old.stage ≡ true →
        is_before_step service.new.stage ≡ true }
    ensures named { (told : Told → Bool) → (id : UnitId) →
        TellsAll told id (S.state site.old) (S.state site.new) →
        KnowsPieces (told_to told id) command.now service.old →
        KnowsPieces (told_to told id) command.now service.new }
    ensures refused { IfRefused result
        (RefusesBuffer (heard_between (S.state site.old) (S.state site.new)) command.now.inn) }
    ensures busy { IfOk result (λ progress. progress ≡ Progress.Busy →
        MeetsUse (S.state site.old) (S.state site.new)) }
    ensures went { IfOk result (λ progress. progress ≡ Progress.Done →
        has_outs service.old.stage ≡ true → is_data_out service.new.stage ≡ true) }
    ensures queue { (S.state site.new).queue ≡ (S.state site.old).queue }
    ensures advances { Advances (S.state site.old) (S.state site.new) }
    ensures passes { Passes (S.state site.old) (S.state site.new) }
    ensures cargo { (id : UnitId) → (told : Told → Bool) → (asked : Bool) →
        TellsAll told id (S.state site.old) (S.state site.new) → (rows : List Served) →
        IsAccounted told asked (cargo_at id service.old
        (seen (Some command.now) (S.state site.old)) rows) →
        IsAccounted told asked (cargo_at id service.new
        (seen (Some command.now) (S.state site.new)) rows) }
    ensures known { client_known (S.state site.new) ≡ client_known (S.state site.old) }
    ensures stood { (client : PortState) → StaysKnown client (S.state site.old).client →
        (S.state site.old).shared ≡ false → KnowsPieces (stood client) command.now service.old →
        KnowsPieces (stood client) command.now service.new }
{
    if service.stage != Stage::InTable {
        return Ok(Progress::Done);
    }
    let progress = fetch_pieces(&mut service.inn, site, &command.inn)?;
    match progress {
        Progress::Done => service.stage = Stage::DataOut(Cursor::start()),
        Progress::Refused => service.stage = Stage::OutTable,
        Progress::Busy => {}
    }
    Ok(progress)
}

// Fetches data-out, if that is to be done.
fn fetch_data_out<S: Site>(service: &mut Service, site: &mut S) -> Result<Progress, NoMemory>
    ensures before { is_before_step service.old.stage ≡ true →
        is_before_step service.new.stage ≡ true }
    ensures named { (command : Cmd) → (told : Told → Bool) → (id : UnitId) →
        KnowsPieces (told_to told id) command service.old →
        KnowsPieces (told_to told id) command service.new }
    ensures refused { (command : Cmd) → (told : Told → Bool) → (id : UnitId) →
        TellsAll told id (S.state site.old) (S.state site.new) →
        KnowsPieces (told_to told id) command service.old →
        IfRefused result (RefusesOut (told_to told id) command) }
    ensures busy { IfOk result (λ progress. progress ≡ Progress.Busy →
        MeetsUse (S.state site.old) (S.state site.new)) }
    ensures stays { is_data_out service.old.stage ≡ true →
        is_data_out service.new.stage ≡ true }
    ensures queue { (S.state site.new).queue ≡ (S.state site.old).queue }
    ensures advances { Advances (S.state site.old) (S.state site.new) }
    ensures passes { Passes (S.state site.old) (S.state site.new) }
    ensures cargo { (id : UnitId) → (told : Told → Bool) → (asked : Bool) →
        TellsAll told id (S.state site.old) (S.state site.new) → (rows : List Served) →
        (first : Option Cmd) →
        IsAccounted told asked (cargo_at id service.old (seen first (S.state site.old)) rows) →
        IsAccounted told asked (cargo_at id service.new (seen first (S.state site.new)) rows) }
    ensures all { (id : UnitId) → (told : Told → Bool) → (asked : Bool) → (shown : Sight) →
        (rows : List Served) → IsAccounted told asked (cargo_at id service.old shown rows) →
        IfDone result (IsFetchedAll service.new) }
    ensures known { client_known (S.state site.new) ≡ client_known (S.state site.old) }
    ensures stood { (command : Cmd) → (client : PortState) →
        KnowsPieces (stood client) command service.old →
        KnowsPieces (stood client) command service.new }
{
    match service.stage {
        Stage::DataOut(cursor) => fetch_data(service, site, cursor),
        _ => Ok(Progress::Done),
    }
}

// Finds the pieces of a buffer, and fetches its table where they stand there.
fn fetch_pieces<S: Site>(
    pieces: &mut DataPieces,
    site: &mut S,
    buffer: &Buffer,
) -> Result<Progress, NoMemory>
    ensures named { IfDone result
        (IsNamed (heard_between (S.state site.old) (S.state site.new)) buffer.now
        pieces.new.list.items) }
    ensures numbered { IfDone result
        (NamesNext (S.state site.old) (S.state site.new) buffer.now pieces.new.list.items) }
    ensures still { IfStill result
        (data_total (S.state site.new) ≡ data_total (S.state site.old)) }
    ensures refused { IfRefused result
        (RefusesBuffer (heard_between (S.state site.old) (S.state site.new)) buffer.now) }
    ensures busy { IfOk result (λ progress. progress ≡ Progress.Busy →
        MeetsUse (S.state site.old) (S.state site.new)) }
    ensures queue { (S.state site.new).queue ≡ (S.state site.old).queue }
    ensures advances { Advances (S.state site.old) (S.state site.new) }
    ensures passes { Passes (S.state site.old) (S.state site.new) }
    ensures known { client_known (S.state site.new) ≡ client_known (S.state site.old) }
    ensures stood { IfDone result
        (IsNamed (stood (S.state site.new).client) buffer.now pieces.new.list.items) }
{
    match pieces_of(buffer) {
        Ok(Pieces::Whole(list)) => {
            named_pieces_sum_up();
            pieces.set(list, total_len(buffer));
            Ok(Progress::Done)
        }
        Ok(Pieces::Fetch { table, total }) => {
            fetched_table_is_read();
            fetch_table(pieces, site, table, total)
        }
        Err(_) => Ok(Progress::Refused),
    }
}

// Fetches a table, and reads the pieces that it names, which are so many bytes in all.
fn fetch_table<S: Site>(
    pieces: &mut DataPieces,
    site: &mut S,
    table: Desc,
    total: u32,
) -> Result<Progress, NoMemory>
    requires some { 16 ≤ table.len }
    requires few { table.len ≤ MAX_TABLE_LEN }
    requires evenly { table.len % 16 ≡ 0 }
    requires small { total ≤ MAX_DATA_LEN }
    ensures read { IfDone result
        (IsRead (heard_between (S.state site.old) (S.state site.new)) table total
        pieces.new.list.items) }
    ensures numbered { IfDone result
        (ReadsNext (S.state site.old) (S.state site.new) table total pieces.new.list.items) }
    ensures still { IfStill result
        (data_total (S.state site.new) ≡ data_total (S.state site.old)) }
    ensures refused { IfRefused result
        (HasBadSum (heard_between (S.state site.old) (S.state site.new)) table total
        ⊎ DeniesTable (heard_between (S.state site.old) (S.state site.new)) table) }
    ensures busy { IfOk result (λ progress. progress ≡ Progress.Busy →
        MeetsUse (S.state site.old) (S.state site.new)) }
    ensures queue { (S.state site.new).queue ≡ (S.state site.old).queue }
    ensures advances { Advances (S.state site.old) (S.state site.new) }
    ensures passes { Passes (S.state site.old) (S.state site.new) }
    ensures known { client_known (S.state site.new) ≡ client_known (S.state site.old) }
    ensures stood { IfDone result
        (IsRead (stood (S.state site.new).client) table total pieces.new.list.items) }
{
    let mut buffer = [0; MAX_TABLE_LEN];
    let bytes = &mut buffer[..table.len as usize];
    match site.fetch_table(table.address, bytes) {
        Ok(()) => {}
        Err(Halt::Refused) => return Ok(Progress::Refused),
        Err(Halt::Busy) => return Ok(Progress::Busy),
        Err(Halt::NoMemory) => return Err(NoMemory),
    }
    match read_table(bytes, total) {
        Ok(list) => {
            pieces.set(&list, total);
            Ok(Progress::Done)
        }
        Err(_) => Ok(Progress::Refused),
    }
}

// Fetches the data-out that are left from a place on.
fn fetch_data<S: Site>(
    service: &mut Service,
    site: &mut S,
    start: Cursor,
) -> Result<Progress, NoMemory>
    requires stage { service.old.stage ≡ Stage.DataOut start }
    ensures stage { (cursor : Cursor) × (service.new.stage ≡ Stage.DataOut cursor) }
    ensures out { service.new.out ≡ service.old.out }
    ensures inn { service.new.inn ≡ service.old.inn }
    ensures refused { IfRefused result (RefusesData
        (heard_between (S.state site.old) (S.state site.new)) Read service.old.out.list.items) }
    ensures busy { IfOk result (λ progress. progress ≡ Progress.Busy →
        MeetsUse (S.state site.old) (S.state site.new)) }
    ensures queue { (S.state site.new).queue ≡ (S.state site.old).queue }
    ensures advances { Advances (S.state site.old) (S.state site.new) }
    ensures passes { Passes (S.state site.old) (S.state site.new) }
    ensures cargo { (id : UnitId) → (told : Told → Bool) → (asked : Bool) →
        TellsAll told id (S.state site.old) (S.state site.new) → (rows : List Served) →
        (first : Option Cmd) →
        IsAccounted told asked (cargo_at id service.old (seen first (S.state site.old)) rows) →
        IsAccounted told asked (cargo_at id service.new (seen first (S.state site.new)) rows) }
    ensures all { IsPlacedAt service.old.out.list.items start →
        IfDone result (IsFetchedAll service.new) }
    ensures known { client_known (S.state site.new) ≡ client_known (S.state site.old) }
{
    let mut cursor = start;
    while let Some(part) = cursor.next(service.out.as_slice(), service.out.total()) {
        let Some(address) = part.address else {
            return Ok(Progress::Refused);
        };
        match site.fetch_data(part.at, address, part.len) {
            Ok(()) => {}
            Err(Halt::Refused) => return Ok(Progress::Refused),
            Err(Halt::Busy) => return Ok(Progress::Busy),
            Err(Halt::NoMemory) => return Err(NoMemory),
        }
        cursor = part.end;
        service.stage = Stage::DataOut(cursor);
    }
    Ok(Progress::Done)
}
