//! Zeros to write.
ghost use Rattle.std.specs.Prelude.{◌≡◌, ◌==◌, ◌-◌, length, IfOk};
ghost use Rattle.blob_fs.specs.Reads.{AreZeros};

use std::alloc::{AllocError, Global};
use std::marker::Model;

/// How many zeros need no memory of their own: those of the longest write of a mount.
const READY: usize = 1 << 20;

static ZEROS: [u8; READY] = [0; READY];

/// Where zeros are.
#[derive(Drop)]
enum Held {
    /// In `ZEROS`, as many.
    Ready(usize),
    Made(Vec<u8>),
}

/// Zeros. Contracts see them as a list.
#[derive(Drop)]
pub(crate) struct Zeros {
    held: Held,
}

impl Model for Zeros {
    ghost use Rattle.std.specs.Prelude.{ℕ, List};
    ghost use Rattle.blob_fs.specs.Zeros.{bytes_of, IsReady};

    ghost Value = { List ℕ };

    ghost view = { λ z. bytes_of z.held };

    ghost invariant = { λ z. IsReady z.held };
}

impl Zeros {
    /// Returns as many zeros as there are bytes between two offsets, none if the second one isn't beyond the first. Fails only if
    /// memory runs out.
    pub(crate) fn between(alloc: Global, from: u64, to: u64) -> Result<Zeros, AllocError>
        ensures count { IfOk result (λ zeros. length zeros ≡ to - from) }
        ensures zeros { IfOk result (λ zeros. AreZeros zeros) }
    {
        let count = to.saturating_sub(from) as usize;
        if count <= READY {
            return Ok(Zeros {
                held: Held::Ready(count),
            });
        }
        Ok(Zeros {
            held: Held::Made(Vec::from_elem(alloc, 0, count)?),
        })
    }

    /// Returns no zeros.
    pub(crate) fn none() -> Zeros
        ensures { length result ≡ 0 }
    {
        Zeros {
            held: Held::Ready(0),
        }
    }

    /// Returns them as a slice.
    pub(crate) fn as_slice(&self) -> &[u8]
        ensures { result.now ≡ self.now }
    {
        let ready: &[u8] = &ZEROS;
        match &self.held {
            Held::Ready(count) => &ready[..*count],
            Held::Made(zeros) => zeros,
        }
    }

    /// Returns whether there are none.
    pub(crate) fn is_empty(&self) -> bool
        ensures { result ≡ (length self.now == 0) }
    {
        match &self.held {
            Held::Ready(count) => *count == 0,
            Held::Made(zeros) => zeros.is_empty(),
        }
    }
}
