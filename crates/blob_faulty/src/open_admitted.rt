//! Opens with `admit`, in one call.
ghost use Rattle.std.specs.Prelude.{IfOk};
ghost use Rattle.blob_header.specs.Refusals.{error_of};
ghost use Rattle.blob_faulty.specs.Admitted.{AdmitsOpen, AdmitsVersions, FindsKept, FindsVersions};
ghost use Rattle.blob_faulty.specs.Names.{AreVersions};

use crate::blob::Blob;
use crate::laws::names::opens;
use crate::storage::Storage;
use blob_base::laws::opens::numbers_are_given;
use blob_base::{BlobVersion, DEFAULT_BLOB_VERSION, Error};
use rand_core::Rng;
use std::ops::RangeInclusive;

impl<R: Rng> Storage<blob_memory::Storage, R> {
    /// Opens the blob for any of the versions and retires its pending list, so that no crash loses what the handle read. For
    /// callers that keep to one handle per name themselves.
    ///
    /// # Errors
    ///
    /// Those of `open_versioned`. Nothing is retired then.
    pub fn open_versioned_admitted(
        &mut self,
        partition: &str,
        name: &[u8],
        versions: RangeInclusive<BlobVersion>,
    ) -> Result<(Blob<blob_memory::Blob>, u64, BlobVersion), Error>
        requires { AreVersions versions }
        ensures answer { AdmitsVersions self.old self.new partition.now name.now versions R.stream (error_of result) }
        ensures accepted { IfOk result (λ o. FindsVersions self.old self.new partition.now name.now versions o.0 o.1 o.2.0) }
    {
        opens::<blob_memory::Storage, R>();
        numbers_are_given::<blob_memory::Storage>();
        let opened = blob_base::Storage::open_versioned(self, partition, name, versions)?;
        let _ = self.admit(partition, name);
        Ok(opened)
    }

    /// Opens the blob for the default version only and retires its pending list, so that no crash loses what the handle read.
    ///
    /// # Errors
    ///
    /// Those of `open`. Nothing is retired then.
    pub fn open_admitted(
        &mut self,
        partition: &str,
        name: &[u8],
    ) -> Result<(Blob<blob_memory::Blob>, u64), Error>
        ensures answer { AdmitsOpen self.old self.new partition.now name.now 0 0 R.stream (error_of result) }
        ensures accepted { IfOk result (λ o. FindsKept self.old self.new partition.now name.now 0 0 o.0 o.1 0) }
    {
        let versions = DEFAULT_BLOB_VERSION..=DEFAULT_BLOB_VERSION;
        let (blob, size, _) = self.open_versioned_admitted(partition, name, versions)?;
        Ok((blob, size))
    }
}
