// The durable bytes of a session's store, as they would be after a crash that keeps nothing.
ghost use Rattle.std.specs.Prelude.{◌≡◌, IfOk, OnErr};
ghost use Rattle.blob_memory.specs.Contents.{items_of};
ghost use Rattle.blob_sessions.specs.DurableBlobs.{CopiesBlob, CopiesDigest, CopiesFound, IsRefusedCopy, durable_blob};

use crate::kept::Kept;
use crate::parts::copied;
use crate::ran::{BAD_CALL, NO_MEMORY, Ran};
use crate::refusals::BLOB_MISSING;
use blob_base::Error;

impl Kept {
    /// Copies the durable bytes of a blob, `with_header` or those after it.
    ///
    /// `BLOB_MISSING` if there is no such blob, or no header to leave out; `BAD_CALL` if the partition isn't UTF-8;
    /// `NO_MEMORY`.
    pub fn durable_blob(
        &self,
        partition: &[u8],
        name: &[u8],
        with_header: bool,
        into: &mut [u8],
    ) -> Ran
        ensures { CopiesBlob (durable_blob with_header self.now partition.now name.now) partition.now result into.old into.new }
    {
        let Ok(partition) = std::str::from_utf8(partition) else {
            return Ran::stopped(BAD_CALL);
        };
        let store = self.lab.wrapper().inner();
        if with_header {
            found(store.raw_blob(partition, name), into)
        } else {
            found(store.logical_blob(partition, name), into)
        }
    }

    /// Copies the digest of all blobs: four bytes.
    pub fn audit(&self, into: &mut [u8]) -> Ran
        ensures { CopiesDigest self.now result into.old into.new }
    {
        copied(&self.lab.wrapper().inner().audit(), into)
    }
}

fn found(blob: Result<Option<Vec<u8>>, Error>, into: &mut [u8]) -> Ran
    ensures ok { IfOk blob (λ bytes. CopiesFound (items_of bytes) result into.old into.new) }
    ensures err { OnErr blob (IsRefusedCopy NO_MEMORY result into.old into.new) }
{
    match blob {
        Ok(Some(bytes)) => copied(&bytes, into),
        Ok(None) => Ran::stopped(BLOB_MISSING),
        Err(_) => Ran::stopped(NO_MEMORY),
    }
}
