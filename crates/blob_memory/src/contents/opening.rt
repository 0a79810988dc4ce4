// What an open finds, and the incarnation that it begins.
ghost use Rattle.std.specs.Prelude.{◌≡◌, None, IfOk, IfErr, OnOk, OnErr};
ghost use Rattle.blob_header.specs.Refusals.{error_of};
ghost use Rattle.blob_memory.specs.Answers.{OrMemory, number_refusal};
ghost use Rattle.blob_memory.specs.Contents.{directory_of, durable_of, is_ended};
ghost use Rattle.blob_memory.specs.Found.{IsFound, IsDeclined, directory_opened, durable_opened, opening_of, opening_in};

use super::Contents;
use crate::found::{Found, found_raw, nothing};
use crate::item::Item;
use blob_base::{BlobVersion, Error};
use blob_pages::Bytes;
use std::ops::RangeInclusive;

impl Contents {
    /// Returns whether the incarnation of this number ended, if its item still exists.
    fn is_ended(&self, number: u64) -> bool
        ensures { result ≡ is_ended self.now number }
    {
        number < self.first
    }

    /// Returns what an open finds of a name's file, with a copy of the logical bytes. The error is that of the open, or
    /// `Memory`.
    pub fn find(
        &self,
        partition: &str,
        name: &[u8],
        versions: &RangeInclusive<BlobVersion>,
    ) -> Result<Found, Error>
        ensures opening { IfOk result (λ found. opening_in self.now partition.now name.now versions.now ≡ opening_of found) }
        ensures found { IfOk result (λ found. IsFound self.now partition.now name.now found) }
        ensures err { IfErr result (IsDeclined (opening_in self.now partition.now name.now versions.now)) }
    {
        match self.item(partition, name) {
            None => Ok(nothing(self.alloc, versions)),
            Some(Item::Raw(raw)) => found_raw(
                self.alloc,
                raw.as_slice(),
                versions,
                partition,
                name,
            ),
            Some(Item::Held(held)) => held.found(self.is_ended(held.number), versions),
        }
    }

    /// Begins the incarnation of an open that found no current one.
    ///
    /// Errors, with nothing changed:
    /// - `GenerationsExhausted` if no number is left.
    /// - `Memory` if the blob can't be allocated.
    pub fn begin(&mut self, partition: &str, name: &[u8], found: &Found) -> Result<(), Error>
        requires fresh { found.now.number ≡ None }
        requires found { IsFound self.old partition.now name.now found.now }
        ensures allowed { OrMemory (number_refusal (directory_of self.old).next) (error_of result) }
        ensures directory { OnOk result (directory_of self.new ≡ directory_opened self.old partition.now name.now found.now) }
        ensures durable { OnOk result (durable_of self.new ≡ durable_opened self.old partition.now name.now found.now) }
        ensures err { OnErr result (directory_of self.new ≡ directory_of self.old) }
        ensures err_durable { OnErr result (durable_of self.new ≡ durable_of self.old) }
    {
        if self.next == u64::MAX {
            return Err(Error::GenerationsExhausted);
        }
        if found.is_file {
            self.adopt(partition, name, found.layout, found.version);
            return Ok(());
        }
        let bytes = Bytes::new(self.alloc);
        self.create(partition, name, found.layout, found.version, bytes)?;
        Ok(())
    }
}
