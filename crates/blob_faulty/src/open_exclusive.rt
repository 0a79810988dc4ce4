//! Exclusive opens with `admit`, in one call.
ghost use Rattle.std.specs.Prelude.{◌≡◌, OnOk, OnErr, IfOk};
ghost use Rattle.blob_faulty.specs.Exclusive.{AnswersExclusive, FindsExclusive, next_registration};
ghost use Rattle.blob_faulty.specs.Keeps.{LosesNothing};
ghost use Rattle.blob_faulty.specs.Names.{AreVersions};
ghost use Rattle.blob_opens.specs.OpenNames.{open_name};
ghost use Rattle.blob_opens.specs.Opens.{names_of, registration_of};

use crate::blob::Blob;
use crate::laws::keeps::accepted_opens;
use crate::laws::names::opens;
use crate::storage::Storage;
use blob_base::laws::opens::numbers_are_given;
use blob_base::{BlobVersion, Error};
use blob_opens::{Opens, open};
use rand_core::Rng;
use std::ops::RangeInclusive;

impl<R: Rng> Storage<blob_memory::Storage, R> {
    /// Opens a blob that no other handle of this registry has open, and retires its pending list, so that no crash loses what the
    /// handle read. For callers that let a registry keep each name to one handle. Close the handle with `Opens::close`.
    ///
    /// # Errors
    ///
    /// Those of `Opens::open` over this store. If the name is open, the draw and the effects of the store's own open stay.
    /// Otherwise the files are unchanged. Nothing is retired.
    pub fn open_exclusive(
        &mut self,
        registry: &mut Opens,
        partition: &str,
        name: &[u8],
        versions: RangeInclusive<BlobVersion>,
    ) -> Result<(open::Blob<Blob<blob_memory::Blob>>, u64, BlobVersion), Error>
        requires { AreVersions versions }
        ensures answer { AnswersExclusive self.old self.new partition.now name.now versions R.stream registry.old result }
        ensures registered { OnOk result (names_of registry.new ≡ open_name (names_of registry.old) partition.now name.now) }
        ensures err { OnErr result (names_of registry.new ≡ names_of registry.old) }
        ensures handle { IfOk result (λ o. registration_of o.0 ≡ next_registration registry.old partition.now name.now) }
        ensures accepted { IfOk result (λ o. FindsExclusive self.old self.new partition.now name.now versions o) }
        ensures keeps { LosesNothing self.old self.new }
    {
        opens::<blob_memory::Storage, R>();
        accepted_opens::<blob_memory::Storage, R>();
        numbers_are_given::<blob_memory::Storage>();
        let opened = registry.open(self, partition, name, versions)?;
        let _ = self.admit(partition, name);
        Ok(opened)
    }
}
