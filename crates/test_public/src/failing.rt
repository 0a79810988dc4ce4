//! A reader and a writer that fail in mid-stream, for tests.
use std::io::{self, Error, ErrorKind, Read, Write};

/// Returns its bytes three at a time, and fails after `reads` reads.
#[derive(Drop)]
pub(crate) struct Halting<'a> {
    pub(crate) bytes: &'a [u8],
    pub(crate) reads: u32,
    pub(crate) kind: ErrorKind,
}

impl Read for Halting<'_> {
    fn read(&mut self, buf: &mut [u8]) -> io::Result<usize> {
        if self.reads == 0 {
            return Err(Error::from(self.kind));
        }
        self.reads -= 1;
        let count = buf.len().min(self.bytes.len()).min(3);
        let (now, later) = self.bytes.split_at(count);
        buf[..count].copy_from_slice(now);
        self.bytes = later;
        Ok(count)
    }
}

/// Stores what is written. A write fails once the capacity is used, and a flush if `flushes` is false.
#[derive(Drop)]
pub(crate) struct Full {
    pub(crate) bytes: Vec<u8>,
    pub(crate) room: usize,
    pub(crate) flushes: bool,
}

impl Write for Full {
    fn write(&mut self, buf: &[u8]) -> io::Result<usize> {
        let left = self.room.saturating_sub(self.bytes.len());
        if left == 0 {
            return Err(Error::from(ErrorKind::StorageFull));
        }
        let count = buf.len().min(left);
        self.bytes.extend_from_slice(&buf[..count])?;
        Ok(count)
    }

    fn flush(&mut self) -> io::Result<()> {
        if self.flushes {
            Ok(())
        } else {
            Err(Error::from(ErrorKind::Other))
        }
    }
}
