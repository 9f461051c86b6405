// Sources, sinks and images that fail, end and come in pieces, those of std and of files among them.
ghost use Rattle.std.specs.Prelude.{◌≡◌, ◌<◌};

use std::alloc::{Allocator, Global};
use std::fs::{File, Metadata, OpenOptions};
use std::io::{Empty, ErrorKind, Read, Write};
use std::rt::Files;
use std::test::Fail;
use std::{fs, io};
use vio_io::*;
use vio_num::NoMemory;

const TEXT: &[u8; 13] = b"0123456789abc";

// Reads pieces of `len` bytes to the end, past each failed call, and answers how many failed.
fn read_all<S: Source>(source: &mut S, len: usize, bytes: &mut Vec<u8>) -> Result<usize, Fail> {
    let mut failed: usize = 0;
    let mut piece = [0; 16];
    for _ in 0..100 {
        match source.read(&mut piece[..len.min(16)]) {
            Ok(0) => break,
            Ok(n) => bytes.extend_from_slice(&piece[..n])?,
            Err(Failed) => failed = failed.saturating_add(1),
        }
    }
    Ok(failed)
}

// Writes TEXT in pieces of `len` bytes, past each failed call, and answers how many failed.
fn write_all<S: Sink>(sink: &mut S, len: usize) -> Result<usize, Fail> {
    let mut failed: usize = 0;
    let mut rest: &[u8] = TEXT;
    for _ in 0..100 {
        if rest.is_empty() {
            break;
        }
        match sink.write(&rest[..len.min(rest.len())]) {
            Ok(n) => rest = &rest[n..],
            Err(WriteFault::Failed) => failed = failed.saturating_add(1),
            Err(WriteFault::NoMemory) => return Err(NoMemory.into()),
        }
    }
    Ok(failed)
}

// Bytes of a piece, and the most that one call moves.
static PIECES: [(usize, usize); 12] = [
    (1, 1),
    (1, 3),
    (1, 10),
    (3, 1),
    (3, 3),
    (3, 10),
    (10, 1),
    (10, 3),
    (10, 10),
    (16, 1),
    (16, 3),
    (16, 10),
];

// How many calls failed where a source is read in pieces to its end, and whether TEXT was read.
fn read_from<S: Source>(alloc: Global, source: &mut S, len: usize) -> Result<(usize, bool), Fail> {
    let mut read = Vec::new(alloc);
    let failed = read_all(source, len, &mut read)?;
    Ok((failed, read.as_slice() == TEXT.as_slice()))
}

fn read_sure(alloc: Global, len: usize, most: usize) -> Result<(usize, bool), Fail> {
    let mut sure = SureSource::new(TEXT.to_vec(alloc)?, most.max(1));
    read_from(alloc, &mut sure, len)
}

// Reads a source of which the calls 0 and 2 fail.
fn read_failing(alloc: Global, len: usize, most: usize) -> Result<(usize, bool), Fail> {
    let failing = vec![in alloc; 0, 2]?;
    let mut mem = MemSource::new(TEXT.to_vec(alloc)?, most.max(1), failing);
    read_from(alloc, &mut mem, len)
}

#[test]
fn sources_give_their_bytes(rt: HostRuntime) -> Result<(), Fail> {
    for (len, most) in PIECES.iter() {
        let sure = read_sure(rt.alloc(), *len, *most)?;
        let failing = read_failing(rt.alloc(), *len, *most)?;
        assert_eq!(rt; (sure, failing), ((0, true), (2, true)), "{len} {most}");
    }
    Ok(())
}

// How many calls failed where TEXT is written in pieces, and whether it was taken.
fn write_sure(alloc: Global, len: usize, most: usize) -> Result<(usize, bool), Fail> {
    let mut sure = SureSink::new(alloc, most.max(1));
    let failed = write_all(&mut sure, len)?;
    Ok((failed, sure.bytes() == TEXT.as_slice()))
}

// Writes to a sink of which the calls 0 and 1 fail.
fn write_failing(alloc: Global, len: usize, most: usize) -> Result<(usize, bool), Fail> {
    let failing = vec![in alloc; 0, 1]?;
    let mut mem = MemSink::new(alloc, most.max(1), failing);
    let failed = write_all(&mut mem, len)?;
    Ok((failed, mem.bytes() == TEXT.as_slice()))
}

#[test]
fn sinks_take_what_is_written(rt: HostRuntime) -> Result<(), Fail> {
    for (len, most) in PIECES.iter() {
        let sure = write_sure(rt.alloc(), *len, *most)?;
        let failing = write_failing(rt.alloc(), *len, *most)?;
        assert_eq!(rt; (sure, failing), ((0, true), (2, true)), "{len} {most}");
    }
    Ok(())
}

// A reader or writer of which one call answers an error, or takes nothing at all.
#[derive(Drop)]
struct Faulty {
    bytes: Vec<u8>,
    at: usize,
    calls: u64,
    fault: u64,
    kind: Option<ErrorKind>,
    flushes: usize,
}

impl Faulty {
    fn new(bytes: Vec<u8>, fault: u64, kind: Option<ErrorKind>) -> Faulty {
        Faulty {
            bytes,
            at: 0,
            calls: 0,
            fault,
            kind,
            flushes: 0,
        }
    }

    // Whether this call is the one that fails.
    fn call(&mut self) -> bool {
        let call = self.calls;
        self.calls = call.saturating_add(1);
        call == self.fault
    }
}

impl Read for Faulty {
    fn read(&mut self, out: &mut [u8]) -> io::Result<usize> {
        if self.call() {
            return match self.kind {
                Some(kind) => Err(io::Error::from(kind)),
                None => Ok(0),
            };
        }
        let at = self.at.min(self.bytes.len());
        let mut rest = &self.bytes[at..];
        let n = rest.read(out)?;
        self.at = at.saturating_add(n);
        Ok(n)
    }
}

impl Write for Faulty {
    fn write(&mut self, piece: &[u8]) -> io::Result<usize> {
        if self.call() {
            return match self.kind {
                Some(kind) => Err(io::Error::from(kind)),
                None => Ok(0),
            };
        }
        let n = piece.len().min(4);
        self.bytes.extend_from_slice(&piece[..n])?;
        Ok(n)
    }

    fn flush(&mut self) -> io::Result<()> {
        if self.call() {
            return Err(io::Error::from(ErrorKind::BrokenPipe));
        }
        self.flushes = self.flushes.saturating_add(1);
        Ok(())
    }
}

// The call that fails, how, and how many calls of the source then fail.
static READERS: [(u64, ErrorKind, usize); 5] = [
    (0, ErrorKind::BrokenPipe, 1),
    (1, ErrorKind::UnexpectedEof, 1),
    (2, ErrorKind::WouldBlock, 1),
    (1, ErrorKind::Interrupted, 0),
    (9, ErrorKind::BrokenPipe, 0),
];

// Reads a source over a reader of which this call fails so.
fn read_faulty(alloc: Global, fault: u64, kind: ErrorKind) -> Result<(usize, bool), Fail> {
    let reader = Faulty::new(TEXT.to_vec(alloc)?, fault, Some(kind));
    let mut source = StdSource::new(reader);
    read_from(alloc, &mut source, 3)
}

#[test]
fn a_reader_that_fails_is_no_end(rt: HostRuntime) -> Result<(), Fail> {
    for (fault, kind, failed) in READERS.iter() {
        let seen = read_faulty(rt.alloc(), *fault, *kind)?;
        assert_eq!(rt; seen, (*failed, true), "{fault}");
    }
    Ok(())
}

// The call that fails, how, how many calls of the sink then fail, and how often it flushes. Each write is followed by a
// flush, so that calls 1, 3, 5 are flushes.
static WRITERS: [(u64, Option<ErrorKind>, usize, usize); 5] = [
    (0, Some(ErrorKind::BrokenPipe), 1, 4),
    (0, Some(ErrorKind::Interrupted), 0, 4),
    (2, None, 1, 4),
    (4, Some(ErrorKind::StorageFull), 1, 4),
    (99, None, 0, 4),
];

// How many calls failed where TEXT is written to a sink over a writer of which this call fails so, whether it was
// written, and how often it was flushed.
fn write_faulty(
    alloc: Global,
    fault: u64,
    kind: Option<ErrorKind>,
) -> Result<(usize, bool, usize), Fail> {
    let mut writer = Faulty::new(Vec::new(alloc), fault, kind);
    let failed = write_all(&mut StdSink::new(&mut writer), 16)?;
    Ok((
        failed,
        writer.bytes.as_slice() == TEXT.as_slice(),
        writer.flushes,
    ))
}

// Writes TEXT to a sink whose writer takes it and fails to flush.
fn write_unflushed(alloc: Global) -> Result<usize, WriteFault> {
    let mut writer = Faulty::new(Vec::new(alloc), 1, None);
    StdSink::new(&mut writer).write(TEXT)
}

#[test]
fn a_writer_that_fails_is_counted(rt: HostRuntime) -> Result<(), Fail> {
    for (fault, kind, failed, flushes) in WRITERS.iter() {
        let seen = write_faulty(rt.alloc(), *fault, *kind)?;
        assert_eq!(rt; seen, (*failed, true, *flushes), "{fault}");
    }
    assert_eq!(rt; write_unflushed(rt.alloc()), Err(WriteFault::Failed));
    Ok(())
}

// The last byte of a block.
fn last_byte<B: Blocks>(image: &mut B, at: u64) -> Result<u8, Failed>
    requires { at < (B.state image.old).size }
    ensures { (B.state image.new).size ≡ (B.state image.old).size }
{
    let mut block = [9; 512];
    image.read_block(at, &mut block)?;
    Ok(block[511])
}

// An image of three blocks: writes the middle one, and reads the last byte of all three.
fn write_the_middle<B: Blocks>(image: &mut B) -> Result<(u8, u8, u8), Failed> {
    if image.count()? != 3 {
        return Err(Failed);
    }
    image.write_block(1, &[7; 512])?;
    image.flush()?;
    let first = last_byte(image, 0)?;
    let middle = last_byte(image, 1)?;
    let last = last_byte(image, 2)?;
    Ok((first, middle, last))
}

// The last bytes of three blocks in memory.
fn last_bytes(blocks: &[[u8; 512]]) -> Option<(u8, u8, u8)> {
    match blocks {
        [first, middle, last] => Some((first[511], middle[511], last[511])),
        _ => None,
    }
}

#[test]
fn sure_images_keep_their_blocks(rt: HostRuntime) -> Result<(), Fail> {
    let mut sure = SureBlocks::zeros(rt.alloc(), 3)?;
    assert_eq!(rt; write_the_middle(&mut sure)?, (0, 7, 0));
    assert_eq!(rt; last_bytes(sure.blocks()), Some((0, 7, 0)));
    Ok(())
}

// Three blocks of ones, where this call fails: what is answered, and what the image then holds.
fn fail_once(
    alloc: Global,
    call: u64,
) -> Result<(Option<(u8, u8, u8)>, Option<(u8, u8, u8)>), Fail> {
    let blocks = vec![in alloc; [1; 512]; 3]?;
    if blocks.len() != 3 {
        return Err("three blocks".into());
    }
    let mut mem = MemBlocks::new(blocks, vec![in alloc; call]?);
    let answer = write_the_middle(&mut mem).ok();
    Ok((answer, last_bytes(mem.blocks())))
}

#[test]
fn each_call_of_an_image_fails(rt: HostRuntime) -> Result<(), Fail> {
    for call in 0..7 {
        let (answer, held) = fail_once(rt.alloc(), call)?;
        assert_eq!(rt;
            answer,
            if call < 6 { None } else { Some((1, 7, 1)) },
            "{call}"
        );
        assert_eq!(rt; held, Some((1, if call < 2 { 1 } else { 7 }, 1)), "{call}");
    }
    Ok(())
}

// Writes the middle block of the image in a file, and answers what was read then.
fn write_file(rt: &HostRuntime, name: &str) -> Result<(u8, u8, u8), Fail> {
    let mut image = FileBlocks::open(rt, rt.alloc(), name)?;
    Ok(write_the_middle(&mut image)?)
}

// The number of blocks of the image in a file, or 0 where it is refused.
fn file_count(rt: &HostRuntime, name: &str) -> Result<u64, Fail> {
    let mut image = FileBlocks::open(rt, rt.alloc(), name)?;
    Ok(image.count().unwrap_or(0))
}

// Makes a file of as many bytes, each of them 5.
fn make_file(rt: &HostRuntime, name: &str, len: usize) -> Result<(), Fail> {
    let bytes = vec![in rt.alloc(); 5; len]?;
    fs::write(rt, name, bytes.as_slice())?;
    Ok(())
}

// The number of bytes of a file, and whether those of the second block are 7 and the others 5.
fn held_by(rt: &HostRuntime, name: &str) -> Result<(usize, bool), Fail> {
    let held = fs::read(rt, name)?;
    let mut bytes = held.iter().enumerate();
    let is_written = bytes.all(|(at, byte)| *byte == if at / 512 == 1 { 7 } else { 5 });
    Ok((held.len(), is_written))
}

#[test]
fn a_file_holds_an_image(rt: HostRuntime) -> Result<(), Fail> {
    let name = "vio_io-image.test";
    make_file(&rt, name, 1636)?;
    for _ in 0..2 {
        let seen = (write_file(&rt, name)?, held_by(&rt, name)?);
        assert_eq!(rt; seen, ((5, 7, 5), (1636, true)));
    }
    fs::remove_file(&rt, name)?;
    Ok(())
}

#[test]
fn an_image_has_one_block_at_least(rt: HostRuntime) -> Result<(), Fail> {
    let name = "vio_io-short.test";
    for (len, count) in [(0, 0), (511, 0), (512, 1), (1023, 1), (1024, 2)] {
        make_file(&rt, name, len)?;
        assert_eq!(rt; file_count(&rt, name)?, count, "{len}");
    }
    fs::remove_file(&rt, name)?;
    assert_eq!(rt; file_count(&rt, name)?, 0);
    Ok(())
}

// Files of a system that finds no memory to open one, or answers some other error.
#[derive(Drop)]
struct NoFiles(ErrorKind);

impl Files for NoFiles {
    type File = File;

    type Dir = Empty;

    fn open_file(&self, _how: &OpenOptions, _path: &str) -> io::Result<File> {
        Err(io::Error::from(self.0))
    }

    fn open_dir(&self, _path: &str) -> io::Result<Empty> {
        Err(io::Error::from(self.0))
    }

    fn metadata(&self, _path: &str) -> io::Result<Metadata> {
        Err(io::Error::from(self.0))
    }

    fn symlink_metadata(&self, _path: &str) -> io::Result<Metadata> {
        Err(io::Error::from(self.0))
    }

    fn copy(&self, _from: &str, _to: &str) -> io::Result<u64> {
        Err(io::Error::from(self.0))
    }

    fn rename(&self, _from: &str, _to: &str) -> io::Result<()> {
        Err(io::Error::from(self.0))
    }

    fn remove_file(&self, _path: &str) -> io::Result<()> {
        Err(io::Error::from(self.0))
    }

    fn create_dir(&self, _path: &str) -> io::Result<()> {
        Err(io::Error::from(self.0))
    }

    fn remove_dir(&self, _path: &str) -> io::Result<()> {
        Err(io::Error::from(self.0))
    }

    fn remove_dir_all<B: Allocator>(&self, _alloc: B, _path: &str) -> io::Result<()> {
        Err(io::Error::from(self.0))
    }
}

// What an image answers to a count where its file does not open; none where it is refused for want of memory.
fn count_unopened(alloc: Global, kind: ErrorKind) -> Option<Result<u64, Failed>> {
    match FileBlocks::open(&NoFiles(kind), alloc, "image") {
        Ok(mut image) => Some(image.count()),
        Err(NoMemory) => None,
    }
}

#[test]
fn only_want_of_memory_is_no_memory(rt: HostRuntime) {
    assert_eq!(rt; count_unopened(rt.alloc(), ErrorKind::OutOfMemory), None);
    for kind in [
        ErrorKind::PermissionDenied,
        ErrorKind::IsADirectory,
        ErrorKind::StorageFull,
    ] {
        assert_eq!(rt; count_unopened(rt.alloc(), kind), Some(Err(Failed)));
    }
}

// Passes a gate before each of three turns, and answers how many it passed.
fn turns_passed<G: Gate>(gate: &G) -> u64 {
    let mut passed = 0;
    for turn in 0..3 {
        gate.pass(0, 1, turn);
        passed = turn + 1;
    }
    passed
}

#[test]
fn the_free_gate_is_open(rt: HostRuntime) {
    assert_eq!(rt; turns_passed(&FreeGate), 3);
}
