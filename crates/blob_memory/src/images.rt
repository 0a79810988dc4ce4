//! The raw and logical bytes of blobs by name, and the checksum of all blobs.
ghost use Rattle.std.specs.Prelude.{◌≡◌, Some, IsSome, IsOk, OnOk, OnErr, IfOk};
ghost use Rattle.blob_memory.specs.Audit.{IsListing, audit};
ghost use Rattle.blob_header.specs.Checksum.{crc32c};
ghost use Rattle.blob_model.specs.Durable.{durable_without};
ghost use Rattle.blob_header.specs.Refusals.{IsMemory};
ghost use Rattle.blob_memory.specs.Contents.{items_of};

use crate::storage::Storage;
use blob_base::Error;

impl Storage {
    ghost use Rattle.blob_memory.specs.Store.{directory, directory_set, durable, listing, logical_blob, raw_blob};

    /// Returns the CRC32C of all blobs with their names and headers, as four big-endian bytes. Does not allocate.
    pub fn audit(&self) -> [u8; 4]
        ensures audit { result ≡ audit crc32c (listing self.now) }
        ensures listing { IsListing (raw_blob self.now) (listing self.now) }
    {
        self.contents.audit()
    }

    /// Returns the raw bytes of a blob with its header, or None if it is missing. Only `Memory` can be returned.
    pub fn raw_blob(&self, partition: &str, name: &[u8]) -> Result<Option<Vec<u8>>, Error>
        ensures ok { IfOk result (λ raw. items_of raw ≡ raw_blob self.now partition.now name.now) }
        ensures memory { OnErr result (IsMemory result) }
    {
        self.contents.raw(partition, name)
    }

    /// Returns the bytes after a blob's header. Returns None if the blob is missing, or doesn't begin with a header of
    /// any layout and version. Only `Memory` can be returned.
    pub fn logical_blob(&self, partition: &str, name: &[u8]) -> Result<Option<Vec<u8>>, Error>
        ensures ok { IfOk result (λ bytes. items_of bytes ≡ logical_blob self.now partition.now name.now) }
        ensures memory { OnErr result (IsMemory result) }
    {
        self.contents.logical(partition, name)
    }

    /// Sets a blob to these raw bytes, which include the header. Neither the names nor the bytes are checked. The
    /// name's current incarnation ends.
    ///
    /// # Errors
    ///
    /// `Memory`, with nothing changed. Never if the name has a file.
    pub fn set_raw_blob(
        &mut self,
        partition: &str,
        name: &[u8],
        bytes: Vec<u8>,
    ) -> Result<(), Error>
        ensures directory { OnOk result (directory self.new ≡ directory_set self.old partition.now name.now bytes.items) }
        ensures durable { OnOk result (durable self.new ≡ durable_without (durable self.old) partition.now (Some name.now)) }
        ensures memory { OnErr result (IsMemory result) }
        ensures succeeds { IsSome ((directory self.old).file partition.now name.now) → IsOk result }
        ensures err { OnErr result (directory self.new ≡ directory self.old) }
        ensures err_durable { OnErr result (durable self.new ≡ durable self.old) }
    {
        self.contents.set_raw(partition, name, bytes)?;
        Ok(())
    }
}
