// The incarnation that a handle was opened on.
ghost use Rattle.std.specs.Prelude.{◌≡◌, IfOk};
ghost use Rattle.blob_memory.specs.Origins.{place_at};

use std::alloc::{AllocError, Global};
use std::marker::Model;

/// The incarnation of a blob that a handle was opened on.
///
/// It identifies one incarnation of the store that returned it, of that store's later forks, and of stores built from
/// its snapshots. It means nothing to any other store: there the same names and numbers can be in use.
#[derive(Drop)]
pub struct Origin {
    pub(crate) partition: String,
    pub(crate) name: Vec<u8>,
    pub(crate) generation: u64,
    pub(crate) data_offset: u64,
}

impl Model for Origin {
    ghost use Rattle.blob_model.specs.Places.{Place};
    ghost use Rattle.std.specs.String.{string_bytes};

    ghost Value = { Place };

    ghost view = { λ a. record { partition = string_bytes a.partition; name = a.name.items; number = a.generation; start = a.data_offset } };
}

impl PartialEq for Origin {
    ghost use Rattle.blob_model.specs.Places.{same_place};
    ghost use Rattle.blob_model.specs.SamePlace.{same_place_laws};

    ghost eq = { same_place };

    ghost laws = { same_place_laws };

    // The number is compared first: it differs most often.
    fn eq(&self, other: &Origin) -> bool {
        self.generation == other.generation
            && self.data_offset == other.data_offset
            && self.name.as_slice() == other.name.as_slice()
            && self.partition.as_str() == other.partition.as_str()
    }
}

impl Eq for Origin {
    ghost use Rattle.blob_model.specs.SamePlace.{same_place_equiv};

    ghost laws = { same_place_equiv };
}

impl Clone for Origin {
    ghost is_clone = { λ a b. b ≡ a };

    /// Returns a copy. The only error is out of memory.
    fn clone(&self) -> Result<Origin, AllocError> {
        let alloc = *self.name.allocator();
        Origin::new(
            alloc,
            self.partition(),
            self.name(),
            self.generation(),
            self.data_offset(),
        )
    }
}

impl Origin {
    /// Makes an origin from its parts. The only error is out of memory.
    pub fn new(
        alloc: Global,
        partition: &str,
        name: &[u8],
        generation: u64,
        data_offset: u64,
    ) -> Result<Origin, AllocError>
        ensures { IfOk result (λ o. o ≡ place_at partition.now name.now generation data_offset) }
    {
        Ok(Origin {
            partition: String::from_str(alloc, partition)?,
            name: Vec::from_slice(alloc, name)?,
            generation,
            data_offset,
        })
    }

    /// Returns the partition of the blob.
    pub fn partition(&self) -> &str
        ensures { result.now ≡ self.now.partition }
    {
        self.partition.as_str()
    }

    /// Returns the name of the blob in its partition.
    pub fn name(&self) -> &[u8]
        ensures { result.now ≡ self.now.name }
    {
        self.name.as_slice()
    }

    /// Returns the number of the incarnation. No other incarnation of the same store has it.
    pub fn generation(&self) -> u64
        ensures { result ≡ self.now.number }
    {
        self.generation
    }

    /// Returns the physical offset of the first logical byte.
    pub fn data_offset(&self) -> u64
        ensures { result ≡ self.now.start }
    {
        self.data_offset
    }
}
