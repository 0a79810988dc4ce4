// The contents of a memory store.
ghost use Rattle.std.specs.Prelude.{◌≤◌};
ghost use Rattle.blob_memory.specs.Numbers.{AreBelow};

use crate::partitions::Partitions;
use std::alloc::Global;

mod adopt;
mod bytes;
mod copies;
mod names;
mod numbers;
mod opening;

/// The files of a store, and the number of its next incarnation.
///
/// Incarnations with numbers below `first` have ended. Each is a raw file of its header and its bytes. So all
/// incarnations end in one step: nothing is allocated or visited.
#[derive(Drop)]
pub struct Contents {
    alloc: Global,
    partitions: Partitions,
    next: u64,
    first: u64,
    ghost numbered: { AreBelow partitions next },
    ghost begun: { first ≤ next },
}
