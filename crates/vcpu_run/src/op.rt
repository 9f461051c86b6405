// The commands that script lines send.
ghost use Rattle.std.specs.Prelude.{◌≡◌, ◌≤◌, true, false, IfSome, MatchOption, length};
ghost use Rattle.boot_text.specs.Sound.{IsInRange};
ghost use Rattle.boot_text.specs.declared.transfer.TheConstants.{MOST_BLOCKS, MOST_LBA};
ghost use Rattle.vscsi_client.specs.Units.{FitsOp};
ghost use Rattle.vcpu_run.specs.Commands.{HasNoData, IsOpOf, block_cdb, cdb_of, gives_data, moves_blocks, padded_cdb};
ghost use Rattle.vcpu_run.specs.Works.{sends};

use boot_text::Verb;
use vscsi_client::{Dir, Op};

/// The operation codes (SBC, "READ (10) command", "WRITE (10) command").
const READ_10: u8 = 0x28;

const WRITE_10: u8 = 0x2A;

/// The bytes of a block.
const BLOCK_BYTES: u64 = 512;

/// TEST UNIT READY (SPC), which has no data.
pub(crate) const TEST_UNIT_READY: Op = Op {
    cdb: [0; 16],
    dir: Dir::Neither,
    at: 0,
    len: 0,
    pieces: 0,
    table: None,
};

// A command without data.
fn without_data(cdb: [u8; 16]) -> Op
    ensures fits { FitsOp result }
    ensures none { HasNoData result }
    ensures cdb { result.cdb ≡ cdb }
{
    Op {
        cdb,
        dir: Dir::Neither,
        at: 0,
        len: 0,
        pieces: 0,
        table: None,
    }
}

// A command descriptor block of ten bytes for this many blocks from `lba` on.
fn block_cdb(code: u8, lba: u64, blocks: u64) -> [u8; 16]
    requires lba { lba ≤ MOST_LBA }
    requires blocks { blocks ≤ MOST_BLOCKS }
    ensures { result ≡ block_cdb code lba blocks }
{
    let [a, b, c, d] = (lba as u32).to_be_bytes();
    let [high, low] = (blocks as u16).to_be_bytes();
    [code, 0, a, b, c, d, 0, high, low, 0, 0, 0, 0, 0, 0, 0]
}

// A block of up to 16 bytes, with zeros behind them.
fn padded(bytes: &[u8]) -> [u8; 16]
    requires { length bytes.now ≤ 16 }
    ensures { result ≡ padded_cdb bytes.now }
{
    let mut cdb = [0; 16];
    cdb[..bytes.len()].copy_from_slice(bytes);
    cdb
}

// The command of a line that reads or writes blocks; none of another.
fn block_op(verb: &Verb) -> Option<Op>
    requires { IsInRange verb.now }
    ensures fits { MatchOption result (moves_blocks verb.now ≡ false) FitsOp }
    ensures command { IfSome result (IsOpOf verb.now) }
    ensures cdb { IfSome result (λ op. op.cdb ≡ cdb_of verb.now) }
{
    match verb {
        Verb::Read {
            lba,
            blocks,
            at,
            pieces,
            table,
        } => Some(Op {
            cdb: block_cdb(READ_10, *lba, *blocks),
            dir: Dir::In,
            at: *at,
            len: (BLOCK_BYTES * *blocks) as u32,
            pieces: *pieces,
            table: *table,
        }),
        Verb::Write {
            lba,
            blocks,
            at,
            pieces,
            table,
        } => Some(Op {
            cdb: block_cdb(WRITE_10, *lba, *blocks),
            dir: Dir::Out,
            at: *at,
            len: (BLOCK_BYTES * *blocks) as u32,
            pieces: *pieces,
            table: *table,
        }),
        _ => None,
    }
}

// The command of a line that gives its descriptor block, with data; none of another.
fn given_op(verb: &Verb) -> Option<Op>
    requires { IsInRange verb.now }
    ensures fits { MatchOption result (gives_data verb.now ≡ false) FitsOp }
    ensures command { IfSome result (IsOpOf verb.now) }
    ensures cdb { IfSome result (λ op. op.cdb ≡ cdb_of verb.now) }
{
    match verb {
        Verb::CommandIn {
            cdb,
            at,
            len,
            pieces,
            table,
        } => Some(Op {
            cdb: padded(cdb.as_slice()),
            dir: Dir::In,
            at: *at,
            len: *len as u32,
            pieces: *pieces,
            table: *table,
        }),
        Verb::CommandOut {
            cdb,
            at,
            len,
            pieces,
            table,
        } => Some(Op {
            cdb: padded(cdb.as_slice()),
            dir: Dir::Out,
            at: *at,
            len: *len as u32,
            pieces: *pieces,
            table: *table,
        }),
        _ => None,
    }
}

/// The command that a line sends; none where it sends no command.
pub(crate) fn op_of(verb: &Verb) -> Option<Op>
    requires { IsInRange verb.now }
    ensures fits { MatchOption result (sends verb.now ≡ false) FitsOp }
    ensures sends { IfSome result (λ _. sends verb.now ≡ true) }
    ensures command { IfSome result (IsOpOf verb.now) }
    ensures cdb { IfSome result (λ op. op.cdb ≡ cdb_of verb.now) }
{
    match verb {
        Verb::Tur => Some(TEST_UNIT_READY),
        Verb::Command { cdb } => Some(without_data(padded(cdb.as_slice()))),
        Verb::Read { .. } | Verb::Write { .. } => block_op(verb),
        Verb::CommandIn { .. } | Verb::CommandOut { .. } => given_op(verb),
        _ => None,
    }
}
