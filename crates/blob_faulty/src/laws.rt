//! Which errors a wrapper's handles may return if their draws are certain, and what a call that records nothing keeps.
ghost use Rattle.blob_faulty.specs.Certain.{IsQuiet, DrawsFaults, FailsCertainly};
ghost use Rattle.blob_faulty.specs.Wrapper.{KeepsFiles};

pub mod current_handles;
pub mod fits;
pub mod keeps;
pub mod leaves;
pub mod names;
pub mod outcomes;

use crate::blob::Blob;
use crate::storage::Storage;
use rand_core::Rng;

/// If every rate that a call draws is zero or not set, and numbers are left, the wrapper returns what its inner store may return,
/// or `Memory`. An empty SYNC write and one with an overflowing end return before any draw.
pub fn without_faults<S: blob_base::Storage, R: Rng, B: blob_base::Blob<S>>()
    ensures { IsQuiet ⟦<Blob<B> as blob_base::Blob<Storage<S, R>>>⟧ B.Blob }
{}

/// A call returns `Injected` only if a rate that it draws isn't zero, or if the inner store may return it.
pub fn faults_are_drawn<S: blob_base::Storage, R: Rng, B: blob_base::Blob<S>>()
    ensures { DrawsFaults ⟦<Blob<B> as blob_base::Blob<Storage<S, R>>>⟧ B.Blob }
{}

/// If a rate that a call draws is one, the call doesn't return Ok, unless it returns before its draw.
pub fn certain_faults<S: blob_base::Storage, R: Rng, B: blob_base::Blob<S>>()
    ensures { FailsCertainly ⟦<Blob<B> as blob_base::Blob<Storage<S, R>>>⟧ }
{}

/// A call that records and retires nothing, and changes neither the directory nor durable bytes, leaves a wrapper that represents
/// the same files.
pub fn kept_records<S: blob_base::Durable, R>()
    ensures { KeepsFiles S R S.Origin S.place }
{}
