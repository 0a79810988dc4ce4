//! Laws about handles on a name's current incarnation.
ghost use Rattle.blob_faulty.specs.Outcomes.{FoundWhileCurrent, WriteSizes, ResizeSizes, WriteBytes, LiveInRange, ResizeBytes};

use crate::blob::Blob;
use crate::storage::Storage;
use rand_core::Rng;

/// A write through a current handle doesn't return `BlobMissing`.
pub fn found<R: Rng>()
    ensures { FoundWhileCurrent ⟦<Blob<blob_memory::Blob> as blob_base::Blob<Storage<blob_memory::Storage, R>>>⟧ }
{}

/// If the tracked size is the length of the live bytes, it still is after a resize, and after a write that doesn't return
/// `BlobMissing`.
pub fn sizes()
    ensures writes { WriteSizes }
    ensures resizes { ResizeSizes }
{}

/// After a write that doesn't return `BlobMissing`, the live bytes are the old ones with some of the write's bytes over them.
/// After any write, live bytes outside its range are unchanged. If resizes don't fail in part, the live bytes after a resize are
/// the old ones or have the requested length.
pub fn live_bytes()
    ensures writes { WriteBytes }
    ensures in_range { LiveInRange }
    ensures resizes { ResizeBytes }
{}
