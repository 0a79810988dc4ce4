// Wrappers that are taken apart and rebuilt.
ghost use Rattle.std.specs.Prelude.{◌≡◌};
ghost use Rattle.blob_model.specs.Files.{Files, reopen};
ghost use Rattle.blob_faulty.specs.Wrapper.{config_of};
ghost use Rattle.blob_script.specs.Acts.{Reopen};
ghost use Rattle.blob_lab_store.specs.LabStands.{Performs, stream_of};
ghost use Rattle.blob_faulty.specs.Keeps.{IsFor};

use crate::ScriptedRng;
use crate::lab::{Lab, Wrapper};
use blob_base::laws::files::snapshots;
use blob_faulty::Config;
use blob_script::Reply;
use std::alloc::Global;
use std::mem;

/// Rebuilds a wrapper's store from a snapshot of it, and wraps it with the same generator and configuration.
fn rewrapped(alloc: Global, wrapper: Wrapper) -> Wrapper
    ensures files { (f : Files) → IsFor wrapper f → IsFor result (reopen f) }
    ensures config { config_of result ≡ config_of wrapper }
    ensures stream { stream_of result ≡ stream_of wrapper }
{
    snapshots();
    let (mut store, rng, config) = wrapper.into_inner();
    let rebuilt = blob_memory::Storage::from_snapshot(store.take_snapshot());
    blob_faulty::Storage::new(alloc, rebuilt, rng, config)
}

/// Returns the placeholder for a wrapper that is taken apart.
fn placeholder(alloc: Global) -> Wrapper {
    let store = blob_memory::Storage::new(alloc);
    blob_faulty::Storage::new(
        alloc,
        store,
        ScriptedRng::new(Vec::new(alloc)),
        Config::default(),
    )
}

impl Lab {
    /// Rebuilds the store from a snapshot and wraps it again. All opens end and all started syncs are dropped. Handles stay and
    /// are stale.
    pub fn reopen(&mut self) -> Reply
        ensures { Performs self.old Reopen result self.new }
    {
        let wrapper = mem::replace(&mut self.wrapper, placeholder(self.alloc));
        self.wrapper = rewrapped(self.alloc, wrapper);
        self.opens.end_all();
        self.syncs.drop_all();
        Reply::Done
    }
}
