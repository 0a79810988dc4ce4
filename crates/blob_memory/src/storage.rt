//! The memory store.
ghost use Rattle.std.specs.Prelude.{◌≡◌, ◌<◌, ◌≤◌, ℕ, true, None, length, OnOk, IfOk};
ghost use Rattle.hex.specs.Hex.{encode_lower};
ghost use Rattle.blob_header.specs.PartitionName.{is_partition_name};
ghost use Rattle.blob_header.specs.Refusals.{error_of, refusal_of, BlobMissing};
ghost use Rattle.blob_memory.specs.Answers.{OrMemory, partition_refusal};
ghost use Rattle.blob_memory.specs.Contents.{empty_directory};
ghost use Rattle.blob_memory.specs.Store.{place, live};

use crate::blob::Blob;
use crate::contents::Contents;
use crate::found::Found;
use crate::origin::Origin;
use blob_base::{BlobVersion, Durable, Error, Handle, validate_partition_name};
use std::alloc::{AllocError, Global};
use std::ops::RangeInclusive;

/// A store of blobs in memory, by partition and name. It injects no faults and records no calls. Bytes that aren't
/// durable are in the handles only.
///
/// A call that returns an error leaves the files and the next number unchanged.
#[derive(Drop)]
pub struct Storage {
    pub(crate) alloc: Global,
    pub(crate) contents: Contents,
}

impl Durable for Storage {
    ghost use Rattle.blob_model.specs.Places.{same_place};
    ghost use Rattle.blob_memory.specs.Store.{directory, durable};
    ghost use Rattle.blob_memory.specs.Laws.{currents, current_below_next};

    type Origin = Origin;

    ghost place = { λ origin. origin };

    ghost directory = { directory };

    ghost durable = { durable };

    ghost same_origins = { λ a b i. same_place a b };

    ghost one_origin = { λ a b same. same };

    ghost currents = { λ s. currents s.contents };

    ghost given = { λ s. current_below_next s.contents };

    /// Returns whether the incarnation is still its name's current one. Does not allocate.
    fn is_current(&self, origin: &Origin) -> bool {
        self.contents.is_current(origin)
    }

    /// Returns whether the incarnation is current and a removal of the name or the partition ends it. Does not allocate.
    fn is_removed(&self, origin: &Origin, partition: &str, name: Option<&[u8]>) -> bool {
        if partition != origin.partition() {
            return false;
        }
        if let Some(name) = name {
            if name != origin.name() {
                return false;
            }
        }
        self.contents.is_current(origin)
    }

    /// Returns the number of the incarnation. Does not allocate.
    fn number_of(origin: &Origin) -> u64 {
        origin.generation()
    }

    /// Returns the number of the name's current incarnation, if it has one. Does not allocate.
    fn current_number(&self, partition: &str, name: &[u8]) -> Option<u64> {
        self.contents.current_number(partition, name)
    }

    /// Returns the numbers of the partition's current incarnations. The only error is out of memory.
    fn current_numbers(&self, partition: &str) -> Result<Vec<u64>, AllocError> {
        self.contents.current_numbers(partition)
    }
}

impl Storage {
    ghost use Rattle.blob_memory.specs.Store.{directory, durable};

    /// Makes an empty store. Its first incarnation gets the number 0.
    pub fn new(alloc: Global) -> Storage
        ensures directory { directory result ≡ empty_directory 0 }
        ensures durable { durable result ≡ (λ _. None) }
    {
        Storage::starting_at(alloc, 0)
    }

    /// Makes an empty store. Its first incarnation gets the number `next`, so a test can reach the last number.
    pub fn starting_at(alloc: Global, next: u64) -> Storage
        ensures directory { directory result ≡ empty_directory next }
        ensures durable { durable result ≡ (λ _. None) }
    {
        Storage {
            alloc,
            contents: Contents::new(alloc, next),
        }
    }
}

/// Returns the result of an open: the handle, its size and its version.
fn opened(origin: Origin, found: Found) -> (Blob, u64, BlobVersion)
    ensures place { place result.0 ≡ origin }
    ensures live { live result.0 ≡ found.live.items }
    ensures size { result.1 ≡ length found.live.items }
    ensures version { result.2 ≡ found.version }
{
    let size = found.live.len() as u64;
    let version = found.version;
    let live = found.live;
    (Blob { origin, live }, size, version)
}

impl Storage {
    ghost use Rattle.blob_memory.specs.Store.{directory};

    /// Checks that a partition's name is valid and that the partition exists.
    fn find_partition(&self, partition: &str) -> Result<(), Error>
        ensures allowed { OrMemory (partition_refusal (directory self.now) partition.now) (error_of result) }
        ensures valid { OnOk result (is_partition_name partition.now ≡ true) }
        ensures there { OnOk result ((directory self.now).has_partition partition.now ≡ true) }
    {
        validate_partition_name(self.alloc, partition)?;
        if !self.contents.contains(partition) {
            let partition = String::from_str(self.alloc, partition)?;
            return Err(Error::PartitionMissing(partition));
        }
        Ok(())
    }

    /// Makes the `BlobMissing` error of a name. The only error is out of memory.
    fn missing(&self, partition: &str, name: &[u8]) -> Result<Error, AllocError>
        ensures { IfOk result (λ error. refusal_of error ≡ BlobMissing partition.now (encode_lower name.now)) }
    {
        let partition = String::from_str(self.alloc, partition)?;
        let name = hex::encode(self.alloc, name)?;
        Ok(Error::BlobMissing(partition, name))
    }
}

impl blob_base::Storage for Storage {
    ghost use Rattle.blob_memory.specs.Answers.{open_refusal, remove_refusal};
    ghost use Rattle.blob_memory.specs.Store.{directory};

    type Blob = Blob;

    ghost allows_open = { λ s p n first last. OrMemory (open_refusal (directory s) p n first last) };

    ghost allows_remove = { λ s p n. OrMemory (remove_refusal (directory s) p n) };

    ghost allows_scan = { λ s p. OrMemory (partition_refusal (directory s) p) };

    ghost leaves_open = { λ before p n first last answer after. Unit {0} };

    ghost leaves_remove = { λ before p n answer after. Unit {0} };

    ghost leaves_scan = { λ before p answer after. after ≡ before };

    ghost leaves_finish = { λ before marker after. after ≡ before };

    ghost keeps_size = { λ blob size. Unit {0} };

    /// Opens a blob. A current incarnation keeps its number. A valid raw file of either layout becomes an incarnation
    /// with the bytes after its header. A missing file, or a torn one, becomes an empty incarnation with a V1 header of
    /// the greatest version in the range.
    ///
    /// # Errors
    ///
    /// In this order, apart from `Memory`:
    /// - `PartitionNameInvalid`.
    /// - `BlobCorrupt` or `BlobVersionMismatch`.
    /// - `GenerationsExhausted` if a new number is needed and the next is `u64::MAX`.
    /// - `Memory` if an allocation fails.
    fn open_versioned(
        &mut self,
        partition: &str,
        name: &[u8],
        versions: RangeInclusive<BlobVersion>,
    ) -> Result<(Blob, u64, BlobVersion), Error> {
        validate_partition_name(self.alloc, partition)?;
        let found = self.contents.find(partition, name, &versions)?;
        let start = found.layout.data_offset();
        match found.number {
            Some(number) => {
                let origin = Origin::new(self.alloc, partition, name, number, start)?;
                Ok(opened(origin, found))
            }
            None => {
                let number = self.contents.next();
                let origin = Origin::new(self.alloc, partition, name, number, start)?;
                self.contents.begin(partition, name, &found)?;
                Ok(opened(origin, found))
            }
        }
    }

    /// Removes the blob, or with `None` the partition. Allocates only for the texts of an error.
    ///
    /// # Errors
    ///
    /// In this order, apart from `Memory`:
    /// - `PartitionNameInvalid`.
    /// - `PartitionMissing`.
    /// - `BlobMissing`.
    /// - `Memory` if the text of an error can't be allocated.
    fn remove(&mut self, partition: &str, name: Option<&[u8]>) -> Result<(), Error> {
        self.find_partition(partition)?;
        match name {
            None => self.contents.remove_partition(partition),
            Some(name) => {
                if self.contents.item(partition, name).is_none() {
                    return Err(self.missing(partition, name)?);
                }
                self.contents.remove(partition, name);
            }
        }
        Ok(())
    }

    /// Returns copies of the names of the partition, sorted by bytes.
    ///
    /// # Errors
    ///
    /// In this order, apart from `Memory`:
    /// - `PartitionNameInvalid`.
    /// - `PartitionMissing`.
    /// - `Memory` if an allocation fails.
    fn scan(&mut self, partition: &str) -> Result<Vec<Vec<u8>>, Error> {
        self.find_partition(partition)?;
        Ok(self.contents.names(partition)?)
    }

    /// Returns the handle's outcome. The sync was completed when it was started, so nothing changes.
    fn finish(&mut self, handle: Handle) -> Result<(), Error> {
        handle.into_outcome()
    }
}
