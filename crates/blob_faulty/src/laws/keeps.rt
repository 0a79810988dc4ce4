//! Laws about kept bytes, which no crash can lose.
ghost use Rattle.blob_faulty.specs.Keeps.{KeptUnrecorded, KeptFronts, KeptOpens, KeptBehind, KeptAppended};
ghost use Rattle.blob_faulty.specs.Outcomes.{SyncWritesKept};

use crate::blob::Blob;
use crate::laws::outcomes::entries;
use crate::storage::Storage;
use rand_core::Rng;

/// A call that records and retires nothing, and changes neither the directory nor durable bytes, keeps what is kept. A read, a
/// `reserve` and a call that returns `Memory` are such calls. Kept bytes are a prefix of the durable ones, and each prefix of
/// kept bytes is kept.
pub fn unrecorded_calls<S: blob_base::Durable, R>()
    ensures keeps { KeptUnrecorded R S.Durable }
    ensures front { KeptFronts R S.Durable }
{}

/// An accepted open keeps what is kept of every blob, its own too. Without `admit`, the bytes that it reads needn't be kept.
/// For a caller that knows the open by its trait only.
pub fn accepted_opens<S: blob_base::Storage, R: Rng>()
    ensures { KeptOpens R S.Durable R.stream S.leaves_open }
{}

/// A write through a handle on the incarnation, over a store that injects nothing. If it begins at or after the end of the kept
/// bytes, they stay kept, whatever it returns. A SYNC write that returns Ok is recorded as one write that is kept whole, or not
/// at all if it is empty. If it begins exactly at the end of the kept bytes, it is kept with them.
pub fn writes<S: blob_base::Storage, R: Rng, B: blob_base::Blob<S>>()
    ensures behind { KeptBehind R S.Durable R.stream }
    ensures whole { SyncWritesKept ⟦<Blob<B> as blob_base::Blob<Storage<S, R>>>⟧ R.stream }
    ensures appended { KeptAppended R S.Durable ⟦<Blob<B> as blob_base::Blob<Storage<S, R>>>⟧ R.stream }
{
    entries();
}
