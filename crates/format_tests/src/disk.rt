ghost use Rattle.std.specs.Prelude.{◌^◌, None};

use block_disk::*;
use std::alloc::Global;
use std::test::Fail;
use vio_io::{Blocks, DeviceCalls, Failed, MemBlocks};

// What a command answered, and the first bytes of the data that it gave.
#[derive(Clone, Copy)]
struct Ran {
    reply: ScsiReply,
    front: [u8; 40],
}

fn run<B: Blocks>(disk: &mut B, lun: u64, cdb: &[u8; 16], data_out: &[u8]) -> Result<Ran, Failed> {
    let mut data_in = [0xEE; 131072];
    let count = disk.count()?;
    let reply = execute(disk, count, lun, cdb, data_out, &mut data_in);
    let mut front = [0; 40];
    for (to, from) in front.iter_mut().zip(&data_in) {
        *to = *from;
    }
    Ok(Ran { reply, front })
}

fn good(in_len: u32, out_used: u32) -> ScsiReply {
    ScsiReply {
        status: 0x00,
        sense: None,
        in_len,
        out_used,
        out_short: 0,
        fault: None,
    }
}

fn refused(key: u8, code: u8, out_short: u32) -> ScsiReply {
    ScsiReply {
        status: 0x02,
        sense: Some([
            0x70, 0, key, 0, 0, 0, 0, 0x0A, 0, 0, 0, 0, code, 0, 0, 0, 0, 0,
        ]),
        in_len: 0,
        out_used: 0,
        out_short,
        fault: None,
    }
}

// A CDB that begins with these bytes.
fn cdb(bytes: &[u8]) -> [u8; 16] {
    let mut cdb = [0; 16];
    for (to, from) in cdb.iter_mut().zip(bytes) {
        *to = *from;
    }
    cdb
}

// An image of this many blocks, each filled with 1.
fn image(alloc: Global, blocks: usize, failing: Vec<u64>) -> Result<MemBlocks, Fail> {
    let blocks = vec![in alloc; [1; 512]; blocks.clamp(1, 2048)]?;
    Ok(MemBlocks::new(blocks, failing))
}

// What an operation code alone answers, at a logical unit of the disk and at another.
fn answers_of(code: u8) -> (ScsiReply, ScsiReply) {
    let nowhere = refused(5, 0x25, 0);
    match code {
        0x00 | 0x28 | 0x2A | 0x35 | 0x88 | 0x8A => (good(0, 0), nowhere),
        0x08 => (good(131072, 0), nowhere),
        0x0A => (refused(5, 0x24, 131072), nowhere),
        0x12 | 0xA0 => (good(0, 0), good(0, 0)),
        0x25 => (good(8, 0), nowhere),
        0x9E => (refused(5, 0x24, 0), nowhere),
        _ => (refused(5, 0x20, 0), nowhere),
    }
}

/// The logical unit of the disk, and others.
static HERE: [u64; 3] = [0, 0x8000_0000_0000_0000, 0x8100_0000_0000_0000];

static ELSEWHERE: [u64; 3] = [1, 0x8200_0000_0000_0000, u64::MAX];

// Whether an operation code alone has this answer at each of these logical units.
fn is_answered<B: Blocks>(
    disk: &mut B,
    luns: &[u64],
    code: u8,
    want: ScsiReply,
) -> Result<bool, Failed> {
    for lun in luns {
        if run(disk, *lun, &cdb(&[code]), &[])?.reply != want {
            return Ok(false);
        }
    }
    Ok(true)
}

#[test]
fn each_operation_code(rt: HostRuntime) -> Result<(), Fail> {
    let mut disk = image(rt.alloc(), 2048, Vec::new(rt.alloc()))?;
    for code in 0..=255 {
        let (here, elsewhere) = answers_of(code);
        assert!(rt; is_answered(&mut disk, &HERE, code, here)?, "{code:#x}");
        assert!(rt;
            is_answered(&mut disk, &ELSEWHERE, code, elsewhere)?,
            "{code:#x}"
        );
    }
    Ok(())
}

// How a read or a write of some blocks ends.
#[derive(Clone, Copy)]
enum Want {
    Good,
    Past,
    Long,
    Short(u32),
}

fn read_reply(want: Want, blocks: u32) -> ScsiReply {
    match want {
        Want::Good => good(blocks.saturating_mul(512), 0),
        Want::Past => refused(5, 0x21, 0),
        Want::Long => refused(5, 0x24, 0),
        Want::Short(short) => refused(5, 0x24, short),
    }
}

fn write_reply(want: Want, blocks: u32) -> ScsiReply {
    match want {
        Want::Good => good(0, blocks.saturating_mul(512)),
        _ => read_reply(want, blocks),
    }
}

fn six(code: u8, lba: u32, blocks: u8) -> [u8; 16] {
    let [_, high, middle, low] = lba.to_be_bytes();
    cdb(&[code, high, middle, low, blocks])
}

fn ten(code: u8, lba: u32, blocks: u16) -> [u8; 16] {
    let [a, b, c, d] = lba.to_be_bytes();
    let [high, low] = blocks.to_be_bytes();
    cdb(&[code, 0, a, b, c, d, 0, high, low])
}

fn sixteen(code: u8, lba: u64, blocks: u32) -> [u8; 16] {
    let [a, b, c, d, e, f, g, h] = lba.to_be_bytes();
    let [i, j, k, l] = blocks.to_be_bytes();
    [code, 0, a, b, c, d, e, f, g, h, i, j, k, l, 0, 0]
}

/// A command of six, ten or sixteen bytes: its operation code, first block and number of blocks.
#[derive(Clone, Copy)]
enum Asks {
    Six(u8, u32, u8),
    Ten(u8, u32, u16),
    Sixteen(u8, u64, u32),
}

fn cdb_of(asks: Asks) -> [u8; 16] {
    match asks {
        Asks::Six(code, lba, blocks) => six(code, lba, blocks),
        Asks::Ten(code, lba, blocks) => ten(code, lba, blocks),
        Asks::Sixteen(code, lba, blocks) => sixteen(code, lba, blocks),
    }
}

/// Commands at an image of 2,048 blocks, the number of blocks that are moved, and how they end. READ(6) takes 21
/// bits of address, and 0 for 256 blocks; 256 blocks do not bind a flush, and its 0 blocks reach up to the end.
static RANGES: [(Asks, u32, Want); 28] = [
    (Asks::Six(0x08, 2047, 1), 1, Want::Good),
    (Asks::Six(0x08, 0xE0_07FF, 1), 1, Want::Good),
    (Asks::Six(0x08, 2047, 2), 2, Want::Past),
    (Asks::Six(0x08, 0x1F_FFFF, 1), 1, Want::Past),
    (Asks::Six(0x08, 0, 255), 255, Want::Good),
    (Asks::Six(0x08, 1792, 0), 256, Want::Good),
    (Asks::Six(0x08, 1793, 0), 256, Want::Past),
    (Asks::Ten(0x28, 2047, 1), 1, Want::Good),
    (Asks::Ten(0x28, 2048, 1), 1, Want::Past),
    (Asks::Ten(0x28, 2048, 0), 0, Want::Good),
    (Asks::Ten(0x28, 2049, 0), 0, Want::Past),
    (Asks::Ten(0x28, 0xFFFF_FFFF, 1), 1, Want::Past),
    (Asks::Ten(0x28, 1792, 256), 256, Want::Good),
    (Asks::Ten(0x28, 1793, 256), 256, Want::Past),
    (Asks::Ten(0x28, 0, 257), 257, Want::Long),
    (Asks::Ten(0x28, 0xFFFF_FFFF, 0xFFFF), 0xFFFF, Want::Long),
    (Asks::Sixteen(0x88, 2047, 1), 1, Want::Good),
    (Asks::Sixteen(0x88, 0x1_0000_0000, 1), 1, Want::Past),
    (Asks::Sixteen(0x88, u64::MAX, 1), 1, Want::Past),
    (Asks::Sixteen(0x88, u64::MAX - 255, 256), 256, Want::Past),
    (Asks::Sixteen(0x88, 0, 257), 257, Want::Long),
    (Asks::Sixteen(0x88, 0, u32::MAX), u32::MAX, Want::Long),
    (Asks::Ten(0x35, 2048, 0), 0, Want::Good),
    (Asks::Ten(0x35, 2049, 0), 0, Want::Past),
    (Asks::Ten(0x35, 2047, 1), 0, Want::Good),
    (Asks::Ten(0x35, 2047, 2), 0, Want::Past),
    (Asks::Ten(0x35, 0, 2048), 0, Want::Good),
    (Asks::Ten(0x35, 0, 0xFFFF), 0, Want::Past),
];

// The number of the first row of the ranges that is answered otherwise.
fn first_other_range<B: Blocks>(disk: &mut B) -> Result<Option<usize>, Failed> {
    for (row, (asks, blocks, want)) in RANGES.iter().enumerate() {
        if run(disk, 0, &cdb_of(*asks), &[])?.reply != read_reply(*want, *blocks) {
            return Ok(Some(row));
        }
    }
    Ok(None)
}

#[test]
fn reads_and_flushes_end_by_their_ranges(rt: HostRuntime) -> Result<(), Fail> {
    let mut disk = image(rt.alloc(), 2048, Vec::new(rt.alloc()))?;
    assert_eq!(rt; first_other_range(&mut disk)?, None);
    Ok(())
}

static WRITES: [(u32, u16, usize, Want); 8] = [
    (8, 2, 512, Want::Short(512)),
    (8, 2, 1023, Want::Short(1)),
    (0, 2, 1024, Want::Good),
    (4, 2, 1100, Want::Good),
    (2047, 2, 512, Want::Past),
    (2048, 0, 0, Want::Good),
    (2049, 0, 0, Want::Past),
    (0, 257, 0, Want::Long),
];

// The number of the first row of the writes that is answered otherwise.
fn first_other_write<B: Blocks>(disk: &mut B, data_out: &[u8]) -> Result<Option<usize>, Failed> {
    for (row, (lba, blocks, sent, want)) in WRITES.iter().enumerate() {
        let data_out = &data_out[..data_out.len().min(*sent)];
        let ran = run(disk, 0, &ten(0x2A, *lba, *blocks), data_out)?;
        if ran.reply != write_reply(*want, *blocks as u32) {
            return Ok(Some(row));
        }
    }
    Ok(None)
}

// Whether the blocks that the writes name end with 9, and the others with 1.
fn is_new_by_rows(disk: &MemBlocks) -> bool {
    let mut blocks = disk.blocks().iter().enumerate();
    blocks.all(|(at, block)| {
        let is_new = at < 2 || at == 4 || at == 5;
        block[511] == if is_new { 9 } else { 1 }
    })
}

// The number of the first row of the writes that is answered otherwise, and whether they leave the image so.
fn written(alloc: Global) -> Result<(Option<usize>, bool), Fail> {
    let data_out = vec![in alloc; 9; 1100]?;
    let mut disk = image(alloc, 2048, Vec::new(alloc))?;
    let other = first_other_write(&mut disk, &data_out)?;
    Ok((other, is_new_by_rows(&disk)))
}

#[test]
fn writes_by_their_data_out(rt: HostRuntime) -> Result<(), Fail> {
    assert_eq!(rt; written(rt.alloc())?, (None, true));
    Ok(())
}

// Whether blocks 5 and 9 are written with these data.
fn writes_two<B: Blocks>(disk: &mut B, data_out: &[u8]) -> Result<bool, Failed> {
    let five = run(disk, 0, &six(0x0A, 5, 1), data_out)?;
    let nine = run(disk, 0, &sixteen(0x8A, 9, 1), data_out)?;
    Ok(five.reply == good(0, 512) && nine.reply == good(0, 512))
}

// Blocks, and the byte that each is full of then.
static NEIGHBOURS: [(u32, u8); 6] = [(4, 1), (5, 9), (6, 1), (8, 1), (9, 9), (10, 1)];

// The first of these blocks that is not read so.
fn first_other_block<B: Blocks>(disk: &mut B) -> Result<Option<u32>, Failed> {
    for (at, byte) in NEIGHBOURS.iter() {
        let front = run(disk, 0, &ten(0x28, *at, 1), &[])?.front;
        if front[0] != *byte || front[39] != *byte {
            return Ok(Some(*at));
        }
    }
    Ok(None)
}

// Whether two blocks of an image of 16 are written, and the first block that is not read so then.
fn written_and_read(alloc: Global) -> Result<(bool, Option<u32>), Fail> {
    let data_out = vec![in alloc; 9; 512]?;
    let mut disk = image(alloc, 16, Vec::new(alloc))?;
    let is_written = writes_two(&mut disk, &data_out)?;
    Ok((is_written, first_other_block(&mut disk)?))
}

#[test]
fn what_is_written_is_read(rt: HostRuntime) -> Result<(), Fail> {
    assert_eq!(rt; written_and_read(rt.alloc())?, (true, None));
    Ok(())
}

// Runs a command whose data are these where its maximum does not cut them.
fn is_cut<B: Blocks>(
    disk: &mut B,
    lun: u64,
    cdb: &[u8; 16],
    max: u8,
    data: &[u8],
) -> Result<bool, Failed> {
    let ran = run(disk, lun, cdb, &[])?;
    let wanted = data.len().min(max as usize).min(40);
    Ok(ran.reply == good(wanted as u32, 0) && ran.front[..wanted] == data[..wanted])
}

// A CDB that begins with these bytes, and has this one behind them.
fn cdb_with(bytes: &[u8], last: u8) -> [u8; 16] {
    let mut cdb = cdb(bytes);
    if bytes.len() < 16 {
        cdb[bytes.len()] = last;
    }
    cdb
}

// The first maximum up to 40, which stands behind these bytes of a command, that does not cut its data so. The image
// has 2,048 blocks.
fn first_uncut(alloc: Global, lun: u64, bytes: &[u8], data: &[u8]) -> Result<Option<u8>, Fail> {
    let mut disk = image(alloc, 2048, Vec::new(alloc))?;
    for max in 0..=40 {
        if !is_cut(&mut disk, lun, &cdb_with(bytes, max), max, data)? {
            return Ok(Some(max));
        }
    }
    Ok(None)
}

// Whether a field of a command that begins with these bytes is refused.
fn is_field_refused(alloc: Global, lun: u64, bytes: &[u8]) -> Result<bool, Fail> {
    let mut disk = image(alloc, 2048, Vec::new(alloc))?;
    Ok(run(&mut disk, lun, &cdb(bytes), &[])?.reply == refused(5, 0x24, 0))
}

static INQUIRY_HERE: &[u8] = b"\x00\x00\x04\x02\x1F\x00\x00\x00PAPRVIO VIRTUAL DISK    0001";

static INQUIRY_NOWHERE: &[u8] = b"\x7F\x00\x04\x02\x1F\x00\x00\x00PAPRVIO VIRTUAL DISK    0001";

#[test]
fn inquiry_data_is_cut(rt: HostRuntime) -> Result<(), Fail> {
    for (lun, data) in [(0, INQUIRY_HERE), (1, INQUIRY_NOWHERE)] {
        let uncut = first_uncut(rt.alloc(), lun, &[0x12, 0, 0, 0], data)?;
        assert_eq!(rt; uncut, None, "{lun}");
    }
    for bytes in [[0x12, 1, 0], [0x12, 0, 0x80]] {
        assert!(rt; is_field_refused(rt.alloc(), 1, &bytes)?, "{bytes:?}");
    }
    Ok(())
}

// What is told of the capacity of 2,048 blocks, and of the logical units of the disk.
static CAPACITY: &[u8] = b"\0\0\0\0\0\0\x07\xFF\0\0\x02\0\0\0\0\0\0\0\0\0\0\0\0\0\0\0\0\0\0\0\0\0";

static LUNS: &[u8] = b"\0\0\0\x08\0\0\0\0\0\0\0\0\0\0\0\0";

// The commands that ask for them, up to their maximum.
static READ_CAPACITY: &[u8] = b"\x9E\xF0\0\0\0\0\0\0\0\0\0\0\0";

static REPORT_LUNS: &[u8] = b"\xA0\0\0\0\0\0\0\0\0";

// Whether a READ CAPACITY(10) gives these eight bytes.
fn is_capacity(alloc: Global, data: &[u8]) -> Result<bool, Fail> {
    let mut disk = image(alloc, 2048, Vec::new(alloc))?;
    Ok(is_cut(&mut disk, 0, &cdb(&[0x25]), 8, data)?)
}

#[test]
fn capacities_and_units_are_cut(rt: HostRuntime) -> Result<(), Fail> {
    let rows = [(0, READ_CAPACITY, CAPACITY), (7, REPORT_LUNS, LUNS)];
    for (lun, command, data) in rows {
        let uncut = first_uncut(rt.alloc(), lun, command, data)?;
        assert_eq!(rt; uncut, None, "{lun}");
    }
    assert!(rt; is_capacity(rt.alloc(), b"\0\0\x07\xFF\0\0\x02\0")?);
    for service in [0x00, 0x11, 0x1F] {
        assert!(rt;
            is_field_refused(rt.alloc(), 0, &[0x9E, service])?,
            "{service}"
        );
    }
    Ok(())
}

// An image of 2^40 blocks that tells none.
#[derive(Drop)]
struct Large {
    calls: DeviceCalls,
}

impl Blocks for Large {
    ghost state = { λ large. record { faults = 0; size = 2 ^ 40; blocks = None; calls = large.calls } };

    fn count(&mut self) -> Result<u64, Failed> {
        self.calls.count_sizing();
        Ok(0x100_0000_0000)
    }

    fn read_block(&mut self, _at: u64, _out: &mut [u8; 512]) -> Result<(), Failed> {
        self.calls.count_read();
        Ok(())
    }

    fn write_block(&mut self, _at: u64, _block: &[u8; 512]) -> Result<(), Failed> {
        self.calls.count_write();
        Ok(())
    }

    fn flush(&mut self) -> Result<(), Failed> {
        self.calls.count_flush();
        Ok(())
    }

    ghost told = { λ _. tt };
}

// Whether both commands tell the capacity of a large image.
fn tells_capacity(large: &mut Large) -> Result<(bool, bool), Failed> {
    let data = b"\xFF\xFF\xFF\xFF\0\0\x02\0";
    let is_ten = is_cut(large, 0, &cdb(&[0x25]), 8, data)?;
    let data = b"\0\0\0\xFF\xFF\xFF\xFF\xFF\0\0\x02\0";
    let command = cdb_with(b"\x9E\x10\0\0\0\0\0\0\0\0\0\0\0", 12);
    Ok((is_ten, is_cut(large, 0, &command, 12, data)?))
}

// Whether a read of the last block of a large image ends so, and one of two blocks from there on.
fn reads_the_last(large: &mut Large) -> Result<(bool, bool), Failed> {
    let one = run(large, 0, &sixteen(0x88, 0xFF_FFFF_FFFF, 1), &[])?;
    let two = run(large, 0, &sixteen(0x88, 0xFF_FFFF_FFFF, 2), &[])?;
    let is_good = one.reply == read_reply(Want::Good, 1);
    Ok((is_good, two.reply == read_reply(Want::Past, 2)))
}

#[test]
fn a_large_image_has_its_capacity(rt: HostRuntime) -> Result<(), Fail> {
    let mut large = Large {
        calls: DeviceCalls::none(),
    };
    assert_eq!(rt; tells_capacity(&mut large)?, (true, true));
    assert_eq!(rt; reads_the_last(&mut large)?, (true, true));
    Ok(())
}

fn failed(code: u8, out_used: u32, call: u32) -> ScsiReply {
    ScsiReply {
        out_used,
        fault: Some(call),
        ..refused(3, code, 0)
    }
}

// The image's first call is its count, so that this call is the command's call of the same number.
fn fails_at(alloc: Global, call: u64) -> Result<MemBlocks, Fail> {
    image(alloc, 16, vec![in alloc; call.saturating_add(1)]?)
}

/// A command, the number of bytes that are sent with it, which of its device calls fails, its sense code, how many
/// of the bytes were used, and how many blocks from the tenth on are new then.
type Fault = (Asks, usize, u32, u8, u32, usize);

static FAULTS: [Fault; 10] = [
    (Asks::Ten(0x28, 10, 4), 0, 0, 0x11, 0, 0),
    (Asks::Ten(0x28, 10, 4), 0, 1, 0x11, 0, 0),
    (Asks::Ten(0x28, 10, 4), 0, 2, 0x11, 0, 0),
    (Asks::Ten(0x28, 10, 4), 0, 3, 0x11, 0, 0),
    (Asks::Ten(0x2A, 10, 4), 2048, 0, 0x0C, 2048, 0),
    (Asks::Ten(0x2A, 10, 4), 2048, 1, 0x0C, 2048, 1),
    (Asks::Ten(0x2A, 10, 4), 2048, 2, 0x0C, 2048, 2),
    (Asks::Ten(0x2A, 10, 4), 2048, 3, 0x0C, 2048, 3),
    (Asks::Ten(0x35, 10, 0), 0, 0, 0x0C, 0, 0),
    (Asks::Ten(0x35, 10, 1), 0, 0, 0x0C, 0, 0),
];

// Whether a command one of whose device calls fails is answered as its row says, and leaves the image so.
fn fails_as_told(alloc: Global, fault: &Fault) -> Result<(bool, bool), Fail> {
    let (asks, sent, call, code, used, new) = *fault;
    let data_out = vec![in alloc; 9; sent]?;
    let mut disk = fails_at(alloc, u64::from(call))?;
    let ran = run(&mut disk, 0, &cdb_of(asks), &data_out)?;
    let is_told = ran.reply == failed(code, used, call);
    Ok((is_told, is_new_from_ten(&disk, new)))
}

// Whether as many blocks from the tenth on begin with 9, and the others with 1.
fn is_new_from_ten(disk: &MemBlocks, new: usize) -> bool {
    let mut blocks = disk.blocks().iter().enumerate();
    blocks.all(|(at, block)| {
        let is_new = at >= 10 && at - 10 < new;
        block[0] == if is_new { 9 } else { 1 }
    })
}

#[test]
fn each_device_call_fails(rt: HostRuntime) -> Result<(), Fail> {
    for (row, fault) in FAULTS.iter().enumerate() {
        let seen = fails_as_told(rt.alloc(), fault)?;
        assert_eq!(rt; seen, (true, true), "of row {row}");
    }
    Ok(())
}
