// The contents by partition and name.
ghost use Rattle.std.specs.Prelude.{◌≡◌, ◌<◌, ◌-◌, ◌^◌, None, Some, IsSome, IsOk, OnOk, OnErr, IfOk, option_copied};
ghost use Rattle.blob_model.specs.Directory.{current, directory_without};
ghost use Rattle.blob_memory.specs.Audit.{audit, IsListing};
ghost use Rattle.blob_header.specs.Checksum.{crc32c};
ghost use Rattle.blob_memory.specs.Listing.{listing_at, raw_blob_of};
ghost use Rattle.blob_memory.specs.Partitions.{item_at};
ghost use Rattle.blob_memory.specs.Contents.{AreFileNames, with_begun, directory_of, directory_with, durable_less, durable_made, durable_of, empty_directory};

use super::Contents;
use crate::item::{Held, Item};
use crate::partitions::Partitions;
use blob_base::{BlobVersion, Layout};
use blob_pages::Bytes;
use std::alloc::{AllocError, Global};

impl Contents {
    /// Makes empty contents. The first incarnation gets the number `next`.
    pub fn new(alloc: Global, next: u64) -> Contents
        ensures directory { directory_of result ≡ empty_directory next }
        ensures durable { durable_of result ≡ (λ _. None) }
    {
        Contents {
            alloc,
            partitions: Partitions::new(alloc),
            next,
            first: next,
        }
    }

    /// Copies the contents. The only error is out of memory.
    pub fn copy(&self) -> Result<Contents, AllocError>
        ensures directory { IfOk result (λ copy. directory_of copy ≡ directory_of self.now) }
        ensures durable { IfOk result (λ copy. durable_of copy ≡ durable_of self.now) }
        ensures listing { IfOk result (λ copy. listing_at copy ≡ listing_at self.now) }
    {
        Ok(Contents {
            alloc: self.alloc,
            partitions: self.partitions.copy()?,
            next: self.next,
            first: self.first,
        })
    }

    /// Returns the number of the next incarnation.
    pub fn next(&self) -> u64
        ensures { result ≡ (directory_of self.now).next }
    {
        self.next
    }

    /// Returns whether a partition exists.
    pub fn contains(&self, partition: &str) -> bool
        ensures { result ≡ (directory_of self.now).has_partition partition.now }
    {
        self.partitions.contains(partition)
    }

    /// Returns the item of a name.
    pub fn item(&self, partition: &str, name: &[u8]) -> Option<&Item>
        ensures { option_copied result ≡ item_at self.now.partitions partition.now name.now }
    {
        self.partitions.get(partition, name)
    }

    /// Returns the names of a partition, sorted by bytes, or no names if it doesn't exist. The only error is out of
    /// memory.
    pub fn names(&self, partition: &str) -> Result<Vec<Vec<u8>>, AllocError>
        ensures { IfOk result (λ names. AreFileNames self.now partition.now names.items) }
    {
        self.partitions.names(partition)
    }

    /// Returns the checksum of all blobs, as four bytes.
    pub fn audit(&self) -> [u8; 4]
        ensures audit { result ≡ audit crc32c (listing_at self.now) }
        ensures listing { IsListing (raw_blob_of (directory_of self.now) (durable_of self.now)) (listing_at self.now) }
    {
        self.partitions.audit()
    }

    /// Sets a name's file to raw bytes. The only error is out of memory, with nothing changed.
    pub fn set_raw(
        &mut self,
        partition: &str,
        name: &[u8],
        bytes: Vec<u8>,
    ) -> Result<(), AllocError>
        ensures directory { OnOk result (directory_of self.new ≡ directory_with self.old partition.now name.now bytes.items) }
        ensures durable { OnOk result (durable_of self.new ≡ durable_less self.old partition.now (Some name.now)) }
        ensures err { OnErr result (directory_of self.new ≡ directory_of self.old) }
        ensures succeeds { IsSome ((directory_of self.old).file partition.now name.now) → IsOk result }
        ensures err_durable { OnErr result (durable_of self.new ≡ durable_of self.old) }
    {
        self.partitions.put(partition, name, Item::Raw(bytes))?;
        Ok(())
    }

    /// Begins an incarnation with these logical bytes, for a name without a current one. The only error is out of
    /// memory, with nothing changed.
    pub fn create(
        &mut self,
        partition: &str,
        name: &[u8],
        layout: Layout,
        version: BlobVersion,
        bytes: Bytes,
    ) -> Result<(), AllocError>
        requires left { (directory_of self.old).next < 2 ^ 64 - 1 }
        requires free { current (directory_of self.old) partition.now name.now ≡ None }
        ensures directory { OnOk result (directory_of self.new ≡ with_begun self.old partition.now name.now layout version) }
        ensures durable { OnOk result (durable_of self.new ≡ durable_made self.old partition.now name.now layout bytes.items) }
        ensures err { OnErr result (directory_of self.new ≡ directory_of self.old) }
        ensures err_durable { OnErr result (durable_of self.new ≡ durable_of self.old) }
    {
        let number = self.next;
        let item = Item::Held(Held {
            number,
            layout,
            version,
            bytes,
        });
        self.partitions.insert(partition, name, item)?;
        self.next = number + 1;
        Ok(())
    }

    /// Removes a name and ends its incarnation. The partition stays.
    pub fn remove(&mut self, partition: &str, name: &[u8])
        ensures directory { directory_of self.new ≡ directory_without (directory_of self.old) partition.now (Some name.now) }
        ensures durable { durable_of self.new ≡ durable_less self.old partition.now (Some name.now) }
    {
        self.partitions.remove(partition, name);
    }

    /// Removes a partition and ends the incarnations in it.
    pub fn remove_partition(&mut self, partition: &str)
        ensures directory { directory_of self.new ≡ directory_without (directory_of self.old) partition.now None }
        ensures durable { durable_of self.new ≡ durable_less self.old partition.now None }
    {
        self.partitions.remove_partition(partition);
    }
}
