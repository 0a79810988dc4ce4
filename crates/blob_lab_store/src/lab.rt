//! The laboratory: a faulty memory store, its open handles and started syncs, and calls as data.
ghost use Rattle.std.specs.Prelude.{◌≡◌, IfOk, OnErr};
ghost use Rattle.blob_header.specs.Refusals.{IsMemory};
ghost use Rattle.blob_script.specs.Preambles.{words_of};
ghost use Rattle.blob_lab_model.specs.Scripted.{behind_seeded, only, scripted_stream};
ghost use Rattle.blob_lab_model.specs.States.{start, start_on};
ghost use Rattle.blob_lab_store.specs.LabRuns.{PersistsExclusively, RunsTo, StartsAt};
ghost use Rattle.blob_lab_store.specs.Tables.{images_of};

mod applying;
mod asking;
mod crashing;
mod forking;
pub mod handles;
mod naming;
mod opening;
mod rebuilding;
mod standing;
pub mod syncs;

use crate::ScriptedRng;
use blob_base::Error;
use blob_faulty::Config;
use blob_opens::Opens;
use blob_script::script::Preamble;
use blob_script::{Call, Reply};
use handles::Handles;
pub use standing::Stands;
use std::alloc::Global;
use syncs::Syncs;

/// One wrapper over a memory store, with the handles that were opened on it and the syncs that were started.
///
/// It can't be dropped: call `end`.
pub struct Lab {
    pub(crate) wrapper: Wrapper,
    pub(crate) opens: Opens,
    pub(crate) handles: Handles,
    pub(crate) syncs: Syncs,
    pub(crate) alloc: Global,
}

/// The wrapper of a laboratory.
pub type Wrapper = blob_faulty::Storage<blob_memory::Storage, ScriptedRng>;

impl Lab {
    /// Returns a laboratory over these raw images (partition, name and bytes), set in order before the store is wrapped. The
    /// generator has these words, followed by zeros. The only error is `Memory`.
    pub fn new(
        images: Vec<(String, Vec<u8>, Vec<u8>)>,
        words: Vec<u64>,
        config: Config,
    ) -> Result<Lab, Error>
        ensures stands { StartsAt result (start (images_of images.items) (only words.items) config) }
        ensures memory { OnErr result (IsMemory result) }
    {
        Lab::drawing(images, ScriptedRng::new(words), config)
    }

    /// Returns a laboratory over these raw images (partition, name and bytes), set in order before the store is wrapped. The
    /// generator has these words, followed by those of `Xoshiro256PlusPlus::seed_from_u64(seed)`. The only error is `Memory`.
    pub fn seeded(
        images: Vec<(String, Vec<u8>, Vec<u8>)>,
        words: Vec<u64>,
        seed: u64,
        config: Config,
    ) -> Result<Lab, Error>
        ensures stands { StartsAt result (start (images_of images.items) (behind_seeded words.items seed) config) }
        ensures memory { OnErr result (IsMemory result) }
    {
        Lab::drawing(images, ScriptedRng::seeded(words, seed), config)
    }

    /// Returns a laboratory with the images, the words and the seed of a script's preamble. The only error is `Memory`.
    pub fn from_preamble(preamble: Preamble, config: Config) -> Result<Lab, Error>
        ensures stands { StartsAt result (start (images_of preamble.images.items) (words_of preamble) config) }
        ensures memory { OnErr result (IsMemory result) }
    {
        let Preamble {
            images,
            words,
            seed,
        } = preamble;
        match seed {
            None => Lab::new(images, words, config),
            Some(seed) => Lab::seeded(images, words, seed, config),
        }
    }

    fn drawing(
        images: Vec<(String, Vec<u8>, Vec<u8>)>,
        rng: ScriptedRng,
        config: Config,
    ) -> Result<Lab, Error>
        ensures stands { StartsAt result (start_on (images_of images.items) (scripted_stream rng) config) }
        ensures memory { OnErr result (IsMemory result) }
    {
        let alloc = *images.allocator();
        let mut store = blob_memory::Storage::new(alloc);
        for (partition, name, bytes) in images {
            store.set_raw_blob(&partition, &name, bytes)?;
        }
        Ok(Lab {
            wrapper: blob_faulty::Storage::new(alloc, store, rng, config),
            opens: Opens::new(alloc),
            handles: Handles::new(alloc),
            syncs: Syncs::new(alloc),
            alloc,
        })
    }

    /// Makes calls in order and returns their replies. The only error is `Memory`, if the list of replies can't be allocated. No
    /// call is made then.
    ///
    /// If all opens, those of earlier calls too, are exclusive, a byte that one of the calls fixes stays until a later call
    /// writes, cuts or removes it.
    pub fn run(&mut self, calls: &[Call]) -> Result<Vec<Reply>, Error>
        ensures stands { IfOk result (λ replies. RunsTo self.old calls.now replies.items self.new) }
        ensures fixed { IfOk result (λ replies. PersistsExclusively self.old calls.now replies.items) }
        ensures memory { OnErr result (IsMemory result) }
        ensures err { OnErr result (self.new ≡ self.old) }
    {
        let mut replies = Vec::with_capacity(self.alloc, calls.len())?;
        for call in calls {
            let reply = self.apply(call);
            replies.push(reply).unwrap();
        }
        Ok(replies)
    }

    /// Closes all handles and drops the store. Allocates nothing.
    pub fn end(self) {
        let Lab {
            wrapper: _,
            mut opens,
            handles,
            syncs: _,
            alloc: _,
        } = self;
        handles.close_all(&mut opens);
    }
}
