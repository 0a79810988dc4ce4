//! The durable contents of a store, as the end of its process leaves them.
ghost use Rattle.std.specs.Prelude.{◌≡◌, None};
ghost use Rattle.blob_memory.specs.Contents.{empty_directory};

use crate::contents::Contents;
use crate::storage::Storage;
use std::alloc::Global;

/// The durable contents of a store, and the number of its next incarnation. No incarnation in it is current.
#[derive(Drop)]
pub struct Snapshot {
    alloc: Global,
    contents: Contents,
}

impl Storage {
    ghost use Rattle.blob_memory.specs.Store.{directory, directory_closed, durable, listing, kept_directory, kept_durable, kept_listing};

    /// Moves the contents out. Each incarnation ends: its file is raw again, with the header. The store is empty
    /// afterwards, with the same next number, and every handle is stale. Does not allocate.
    pub fn take_snapshot(&mut self) -> Snapshot
        ensures directory { kept_directory result ≡ directory_closed self.old }
        ensures ended { kept_durable result ≡ (λ _. None) }
        ensures listing { kept_listing result ≡ listing self.old }
        ensures left { directory self.new ≡ empty_directory (directory self.old).next }
        ensures none { durable self.new ≡ (λ _. None) }
    {
        let mut contents = self.contents.take();
        contents.end_all();
        Snapshot {
            alloc: self.alloc,
            contents,
        }
    }

    /// Makes a store of these contents. Its numbers continue. Does not allocate.
    pub fn from_snapshot(snapshot: Snapshot) -> Storage
        ensures directory { directory result ≡ kept_directory snapshot }
        ensures durable { durable result ≡ kept_durable snapshot }
        ensures listing { listing result ≡ kept_listing snapshot }
    {
        Storage {
            alloc: snapshot.alloc,
            contents: snapshot.contents,
        }
    }
}
