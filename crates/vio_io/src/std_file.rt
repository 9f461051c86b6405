// A file of std as a file that is read and written at a place. Each call makes the calls of std that
// it is named for and decides nothing: that std does what it says of them is trusted.
ghost use Rattle.std.specs.Prelude.{None, true};

use crate::positioned_file::PositionedFile;
use std::fs::OpenFile;
use std::io;
use std::io::{Read, Seek, SeekFrom, Write};

/// A file of std, open for reading and writing.
#[derive(Drop)]
pub struct StdFile<F> {
    file: F,
}

impl<F> StdFile<F> {
    /// The file, to be read and written at places.
    pub fn new(file: F) -> StdFile<F> {
        StdFile { file }
    }
}

impl<F: Read + Write + Seek + OpenFile> PositionedFile for StdFile<F> {
    ghost bytes = { λ _. None };

    ghost is_flushed = { λ _. true };

    fn size(&mut self) -> io::Result<u64> {
        Ok(self.file.metadata()?.len())
    }

    fn read_at(&mut self, at: u64, out: &mut [u8]) -> io::Result<usize> {
        self.file.seek(SeekFrom::Start(at))?;
        self.file.read(out)
    }

    fn write_at(&mut self, at: u64, piece: &[u8]) -> io::Result<usize> {
        self.file.seek(SeekFrom::Start(at))?;
        self.file.write(piece)
    }

    fn flush(&mut self) -> io::Result<()> {
        self.file.flush()?;
        self.file.sync_data()
    }
}
