//! Streams that work, with few and with many bytes: none is reported as failed, and a flush passes all bytes on.
use blob_lab::Ending;
use blob_lab::streams::{Input, Output};
use std::alloc::{AllocError, Global};
use std::io::{self, Write};
use std::test::Fail;

/// Sizes around those of buffers.
const SIZES: [usize; 6] = [0, 1, 4095, 4097, 8193, 70_001];

/// Returns `len` bytes. No two neighbors are equal.
fn filled(alloc: Global, len: usize) -> Result<Vec<u8>, AllocError> {
    let mut bytes = Vec::new(alloc);
    for i in 0..len {
        bytes.push((i % 251) as u8)?;
    }
    Ok(bytes)
}

/// Returns whether one call reads all bytes.
fn reads(bytes: &[u8], alloc: Global) -> Result<bool, Ending> {
    let mut input = Input::new(bytes);
    let mut read = Vec::new(alloc);
    input.read_all(&mut read)?;
    Ok(read.as_slice() == bytes && !input.has_failed())
}

#[test]
fn input_of_each_size(rt: HostRuntime) -> Result<(), Fail> {
    let alloc = rt.alloc();
    for len in SIZES {
        let bytes = filled(alloc, len)?;
        assert!(rt; reads(&bytes, alloc) == Ok(true));
    }
    Ok(())
}

/// Stores what is written, and how many bytes there were at the last flush.
#[derive(Drop)]
struct Counting {
    bytes: Vec<u8>,
    flushed: usize,
}

impl Write for Counting {
    fn write(&mut self, buf: &[u8]) -> io::Result<usize> {
        self.bytes.extend_from_slice(buf)?;
        Ok(buf.len())
    }

    fn flush(&mut self) -> io::Result<()> {
        self.flushed = self.bytes.len();
        Ok(())
    }
}

/// Returns whether all bytes are written, and passed on by a flush.
fn writes(bytes: &[u8], alloc: Global) -> Result<bool, Ending> {
    let mut output = Output::new(Counting {
        bytes: Vec::new(alloc),
        flushed: 0,
    });
    output.write_all(bytes)?;
    output.flush()?;
    let is_well = !output.has_failed() && output.is_flushed();
    let Counting {
        bytes: written,
        flushed,
    } = output.into_writer();
    Ok(is_well && flushed == bytes.len() && written.as_slice() == bytes)
}

#[test]
fn output_of_each_size(rt: HostRuntime) -> Result<(), Fail> {
    let alloc = rt.alloc();
    for len in SIZES {
        let bytes = filled(alloc, len)?;
        assert!(rt; writes(&bytes, alloc) == Ok(true));
    }
    Ok(())
}
