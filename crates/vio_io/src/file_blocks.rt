// An image in a file: its whole blocks of 512 bytes. Block k is the bytes of the file from 512 k on,
// however short the moves are that the file makes.
ghost use Rattle.std.specs.Prelude.{◌≡◌, ◌↔◌, ◌+◌, ◌*◌, ◌/◌, ◌^◌, ◌<◌, ◌≤◌, ⊤, IfOk, IfSome, IsErr, IsOk, OnOk, OnErr, true, option_and_then, length, take, drop};
ghost use Rattle.vio_io.specs.Image.{AreWhole, FailsAfter, no_calls, after_sizing, after_reads, after_writes, after_flush, with_block};
ghost use Rattle.vio_io.specs.Edge.{ReadsAt, WritesAt, WritesMore, WritesFront, image_size, file_image, bytes_in, IsFlushed};

use crate::device_calls::DeviceCalls;
use crate::interrupted::settled;
use crate::outside::{Blocks, Failed};
use crate::positioned_file::PositionedFile;
use crate::std_file::StdFile;
use std::alloc::Global;
use std::fs::{OpenFile, OpenOptions};
use std::io;
use std::io::{ErrorKind, Read, Seek, Write};
use std::marker::Model;
use std::rt::Files;
use vio_num::NoMemory;

/// The bytes of a block.
const BLOCK: u64 = 512;

/// The most blocks of an image.
const MOST_BLOCKS: u64 = 0x1_0000_0000_0000;

/// An image in a file. Contracts see the file, where there is one to use, the number of its blocks, 0
/// where there is none, and the calls made and failed.
#[derive(Drop)]
pub struct FileBlocks<F> {
    file: Option<F>,
    size: u64,
    calls: DeviceCalls,
    faults: u64,
}

impl<F> Model for FileBlocks<F> {
    ghost use Rattle.std.specs.Prelude.{◌^◌, ◌≤◌};
    ghost use Rattle.vio_io.specs.Edge.{FileImage};

    ghost Value = { FileImage F };

    ghost view = { λ image. record { file = image.file; size = image.size; calls = image.calls; faults = image.faults } };

    ghost invariant = { λ image. image.size ≤ 2 ^ 48 };
}

// The whole blocks of a file of this many bytes, or 0 where it holds more than an image may.
fn whole_blocks(bytes: u64) -> u64
    ensures { result ≡ image_size bytes }
{
    let blocks = bytes / BLOCK;
    if blocks <= MOST_BLOCKS { blocks } else { 0 }
}

// Opens a file for reading and writing, and keeps what it holds.
fn open_image<R: Files>(rt: &R, name: &str) -> io::Result<FileBlocks<StdFile<R::File>>>
where
    R::File: Drop,
    ensures calls { IfOk result (λ image. image.calls ≡ no_calls) }
    ensures faults { IfOk result (λ image. image.faults ≡ 0) }
{
    let file = OpenOptions::new().read(true).write(true).open(rt, name)?;
    FileBlocks::over(StdFile::new(file))
}

// Reads once into the block behind what was read of it.
fn read_part<F: PositionedFile>(
    file: &mut F,
    at: u64,
    out: &mut [u8; 512],
    done: usize,
) -> io::Result<usize>
    requires inside { done ≤ 512 }
    requires small { at ≤ 2 ^ 60 }
    ensures bound { IfOk result (λ n. done + n ≤ 512) }
    ensures front { take done out.new ≡ take done out.old }
    ensures read { IfOk result
        (λ n. ReadsAt (F.bytes file.old) (at + done) (take n (drop done out.new))) }
    ensures bytes { F.bytes file.new ≡ F.bytes file.old }
{
    file.read_at(at + done as u64, &mut out[done..])
}

// Reads once behind the first `done` bytes of the block, and answers how many it has then: as many as
// before where a signal interrupted the read. A file that ends there has failed.
fn read_more<F: PositionedFile>(
    file: &mut F,
    at: u64,
    out: &mut [u8; 512],
    done: usize,
) -> Result<usize, Failed>
    requires inside { done ≤ 512 }
    requires small { at ≤ 2 ^ 60 }
    ensures bound { IfOk result (λ now. now ≤ 512) }
    ensures read { ReadsAt (F.bytes file.old) at (take done out.old) →
        IfOk result (λ now. ReadsAt (F.bytes file.old) at (take now out.new)) }
    ensures bytes { F.bytes file.new ≡ F.bytes file.old }
{
    match settled(read_part(file, at, out, done)) {
        Some(Ok(0)) | Some(Err(_)) => Err(Failed),
        Some(Ok(n)) => Ok(done + n),
        None => Ok(done),
    }
}

// Reads the 512 bytes from place `at` on.
fn read_whole<F: PositionedFile>(file: &mut F, at: u64, out: &mut [u8; 512]) -> Result<(), Failed>
    requires { at ≤ 2 ^ 60 }
    ensures read { OnOk result (ReadsAt (F.bytes file.old) at out.new) }
    ensures bytes { F.bytes file.new ≡ F.bytes file.old }
{
    let mut done = 0;
    for _ in 0..u64::MAX {
        if done == 512 {
            return Ok(());
        }
        done = read_more(file, at, out, done)?;
    }
    Err(Failed)
}

// Writes once from the block what stands behind its first `done` bytes.
fn write_part<F: PositionedFile>(
    file: &mut F,
    at: u64,
    block: &[u8; 512],
    done: usize,
) -> io::Result<usize>
    requires inside { done ≤ 512 }
    requires small { at ≤ 2 ^ 60 }
    ensures bound { IfOk result (λ n. done + n ≤ 512) }
    ensures written { IfOk result (λ n. WritesAt (at + done) (take n (drop done block.now))
        (F.bytes file.old) (F.bytes file.new)) }
    ensures refused { OnErr result (F.bytes file.new ≡ F.bytes file.old) }
{
    file.write_at(at + done as u64, &block[done..])
}

// Writes once behind the first `done` bytes of the block, and answers how many are written then: as
// many as before where a signal interrupted the write. A file that takes nothing has failed.
fn write_more<F: PositionedFile>(
    file: &mut F,
    at: u64,
    block: &[u8; 512],
    done: usize,
) -> Result<usize, Failed>
    requires inside { done < 512 }
    requires small { at ≤ 2 ^ 60 }
    ensures bound { IfOk result (λ now. now ≤ 512) }
    ensures written { IfOk result
        (λ now. WritesMore at done now block.now (F.bytes file.old) (F.bytes file.new)) }
    ensures refused { OnErr result
        (WritesMore at done done block.now (F.bytes file.old) (F.bytes file.new)) }
{
    match settled(write_part(file, at, block, done)) {
        Some(Ok(0)) | Some(Err(_)) => Err(Failed),
        Some(Ok(n)) => Ok(done + n),
        None => Ok(done),
    }
}

// Writes the block to the place `at`. Where that fails a front of it may have been written.
fn write_whole<F: PositionedFile>(file: &mut F, at: u64, block: &[u8; 512]) -> Result<(), Failed>
    requires { at ≤ 2 ^ 60 }
    ensures written { OnOk result (WritesAt at block.now (F.bytes file.old) (F.bytes file.new)) }
    ensures torn { OnErr result (WritesFront at block.now (F.bytes file.old) (F.bytes file.new)) }
{
    let mut done = 0;
    for _ in 0..u64::MAX {
        if done == 512 {
            return Ok(());
        }
        done = write_more(file, at, block, done)?;
    }
    Err(Failed)
}

// Flushes, again as often as a signal interrupts.
fn flush_whole<F: PositionedFile>(file: &mut F) -> Result<(), Failed>
    ensures flushed { OnOk result (F.is_flushed file.new ≡ true) }
    ensures bytes { F.bytes file.new ≡ F.bytes file.old }
{
    for _ in 0..u64::MAX {
        match settled(file.flush().map(|()| 0)) {
            Some(Ok(_)) => return Ok(()),
            Some(Err(failed)) => return Err(failed),
            None => {}
        }
    }
    Err(Failed)
}

impl<F> FileBlocks<F> {
    // An image that has no block, so that `count` fails.
    fn unusable() -> FileBlocks<F>
        ensures size { result.size ≡ 0 }
        ensures calls { result.calls ≡ no_calls }
        ensures faults { result.faults ≡ 0 }
    {
        FileBlocks {
            file: None,
            size: 0,
            calls: DeviceCalls::none(),
            faults: 0,
        }
    }

    // Counts a refusal.
    fn fail(&mut self) -> Failed
        ensures image { FailsAfter (file_image self.old) (file_image self.new) }
        ensures file { self.new.file ≡ self.old.file }
    {
        self.faults = self.faults.saturating_add(1);
        Failed
    }
}

impl<F: PositionedFile + Drop> FileBlocks<F> {
    /// The image in this file. Where the file holds less than one block or more than 2^48, `count`
    /// fails. The answer is the file's where its size cannot be told. No call has failed yet.
    pub fn over(file: F) -> io::Result<FileBlocks<F>>
        ensures size { IfOk result
            (λ image. IfSome (F.bytes file) (λ all. image.size ≡ image_size (length all))) }
        ensures content { IfOk result (λ image. bytes_in F.bytes image ≡ F.bytes file) }
        ensures calls { IfOk result (λ image. image.calls ≡ no_calls) }
        ensures faults { IfOk result (λ image. image.faults ≡ 0) }
    {
        let mut file = file;
        let bytes = file.size()?;
        Ok(FileBlocks {
            file: Some(file),
            size: whole_blocks(bytes),
            calls: DeviceCalls::none(),
            faults: 0,
        })
    }
}

impl<F: Read + Write + Seek + OpenFile + Drop> FileBlocks<StdFile<F>> {
    /// Opens the file of this name for reading and writing. Where it cannot be opened, or holds less
    /// than one block or more than 2^48, the answer is an image whose `count` fails. No call has failed
    /// yet. `NoMemory` is want of memory alone.
    pub fn open<R: Files<File = F>>(
        rt: &R,
        _alloc: Global,
        name: &str,
    ) -> Result<FileBlocks<StdFile<F>>, NoMemory>
        ensures calls { IfOk result (λ image. image.calls ≡ no_calls) }
        ensures faults { IfOk result (λ image. image.faults ≡ 0) }
    {
        match open_image(rt, name) {
            Ok(image) => Ok(image),
            Err(error) if error.kind() == ErrorKind::OutOfMemory => Err(NoMemory),
            Err(_) => Ok(FileBlocks::unusable()),
        }
    }
}

impl<F: PositionedFile> Blocks for FileBlocks<F> {
    ghost state = { file_image };

    fn count(&mut self) -> Result<u64, Failed>
        ensures count { IfOk result (λ n. n ≡ self.old.size) }
        ensures range { IfOk result (λ n. (1 ≤ n) × (n ≤ 2 ^ 48)) }
        ensures fails { IsErr result ↔ (self.old.size ≡ 0) }
        ensures done { OnOk result (file_image self.new ≡ after_sizing (file_image self.old)) }
        ensures failed { OnErr result
            (FailsAfter (after_sizing (file_image self.old)) (file_image self.new)) }
        ensures file { self.new.file ≡ self.old.file }
    {
        self.calls.count_sizing();
        if self.size == 0 {
            return Err(self.fail());
        }
        Ok(self.size)
    }

    fn read_block(&mut self, at: u64, out: &mut [u8; 512]) -> Result<(), Failed>
        requires { at < self.old.size }
        ensures read { OnOk result (ReadsAt (bytes_in F.bytes self.old) (512 * at) out.new) }
        ensures bytes { bytes_in F.bytes self.new ≡ bytes_in F.bytes self.old }
        ensures done { OnOk result (file_image self.new ≡ after_reads 1 (file_image self.old)) }
        ensures failed { OnErr result
            (FailsAfter (after_reads 1 (file_image self.old)) (file_image self.new)) }
    {
        self.calls.count_read();
        if let Some(file) = &mut self.file {
            if read_whole(file, at * BLOCK, out).is_ok() {
                return Ok(());
            }
        }
        Err(self.fail())
    }

    fn write_block(&mut self, at: u64, block: &[u8; 512]) -> Result<(), Failed>
        requires { at < self.old.size }
        ensures written { OnOk result (WritesAt (512 * at) block.now
            (bytes_in F.bytes self.old) (bytes_in F.bytes self.new)) }
        ensures torn { OnErr result (WritesFront (512 * at) block.now
            (bytes_in F.bytes self.old) (bytes_in F.bytes self.new)) }
        ensures done { OnOk result
            (file_image self.new ≡ with_block at block.now (after_writes 1 (file_image self.old))) }
        ensures failed { OnErr result
            (FailsAfter (after_writes 1 (file_image self.old)) (file_image self.new)) }
    {
        self.calls.count_write();
        if let Some(file) = &mut self.file {
            if write_whole(file, at * BLOCK, block).is_ok() {
                return Ok(());
            }
        }
        Err(self.fail())
    }

    fn flush(&mut self) -> Result<(), Failed>
        ensures flushed { OnOk result (IsFlushed F.is_flushed self.new) }
        ensures bytes { bytes_in F.bytes self.new ≡ bytes_in F.bytes self.old }
        ensures done { OnOk result (file_image self.new ≡ after_flush (file_image self.old)) }
        ensures failed { OnErr result
            (FailsAfter (after_flush (file_image self.old)) (file_image self.new)) }
    {
        self.calls.count_flush();
        if let Some(file) = &mut self.file {
            if flush_whole(file).is_ok() {
                return Ok(());
            }
        }
        Err(self.fail())
    }

    ghost told = { λ _. tt };
}
