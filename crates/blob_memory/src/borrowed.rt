//! Reads into a borrowed slice. The bytes aren't copied to a buffer first.
ghost use Rattle.std.specs.Prelude.{◌≡◌, ◌≤◌, ◌+◌, OnOk, OnErr, length, take, drop};
ghost use Rattle.blob_header.specs.Refusals.{error_of};
ghost use Rattle.blob_memory.specs.Answers.{read_refusal};
ghost use Rattle.blob_memory.specs.Store.{place, live};

use crate::blob::Blob;
use blob_base::Error;

impl Blob {
    /// Fills `buf` with the live bytes from the logical `offset` on. A stale handle can read too. Does not allocate.
    ///
    /// # Errors
    ///
    /// With `buf` unchanged, in this order:
    /// - `OffsetOverflow` if the physical end doesn't fit in 64 bits.
    /// - `BlobInsufficientLength` if the range ends after the live bytes.
    pub fn read_into(&self, offset: u64, buf: &mut [u8]) -> Result<(), Error>
        ensures refusal { error_of result ≡ read_refusal (place self.now) (live self.now) offset (length buf.old) }
        ensures within { OnOk result (offset + length buf.old ≤ length (live self.now)) }
        ensures bytes { OnOk result (buf.new ≡ take (length buf.old) (drop offset (live self.now))) }
        ensures err { OnErr result (buf.new ≡ buf.old) }
    {
        self.readable(offset, buf.len())?;
        self.live.read(offset as usize, buf);
        Ok(())
    }
}
