// Zeros of which no byte is written yet.
ghost use Rattle.std.specs.Prelude.{◌≡◌, ◌≤◌, ◌+◌, [], length, vec_capacity};
ghost use Rattle.std.specs.Bool.{OnTrue};
ghost use Rattle.blob_pages.specs.Sizes.{page_size, blank_bytes, splice};

use crate::page::PAGE;
use std::alloc::{AllocError, Global};

/// The bytes of a page of zeros.
static ZEROS: [u8; PAGE] = [0; PAGE];

/// Memory for a page, of which nothing is written yet.
#[derive(Drop)]
pub struct Blank {
    room: Vec<u8>,
    ghost empty: { room.items ≡ [] },
    ghost fits: { page_size ≤ vec_capacity room },
}

impl Blank {
    /// Allocates the memory. The only error is out of memory.
    pub(crate) fn new(alloc: Global) -> Result<Blank, AllocError> {
        let room = Vec::with_capacity(alloc, PAGE)?;
        Ok(Blank { room })
    }

    /// Returns the allocator.
    pub(crate) fn allocator(&self) -> Global {
        *self.room.allocator()
    }

    /// Returns the bytes: zeros.
    #[inline(never)]
    #[tactic(auto, unfolding(crate::specs::Sizes::blank_bytes))]
    pub(crate) fn bytes(&self) -> &[u8]
        ensures { result.now ≡ blank_bytes }
    {
        &ZEROS
    }

    /// Returns zeros with a run over them. Writes each byte once.
    #[tactic(auto, unfolding(crate::specs::Sizes::blank_bytes))]
    pub(crate) fn with_run(self, at: usize, run: &[u8]) -> Vec<u8>
        requires { at + length run.now ≤ page_size }
        ensures { result.items ≡ splice blank_bytes at run.now }
    {
        let Blank { mut room } = self;
        room.extend_from_slice(&ZEROS[..at]).unwrap();
        room.extend_from_slice(run).unwrap();
        room.extend_from_slice(&ZEROS[at + run.len()..]).unwrap();
        room
    }
}

/// Returns whether these are the bytes of a page of zeros.
pub(crate) fn are_zeros(bytes: &[u8]) -> bool
    ensures { OnTrue result (bytes.now ≡ blank_bytes) }
{
    bytes[..] == ZEROS[..]
}
