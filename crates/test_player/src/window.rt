//! Marks the allocations of one call for the preloaded library, by allocations of sizes that no other code uses.
//!
//! Without the library the marks have no effect, and no allocation fails.

use std::alloc::Global;

/// The next call that begins is the one with failing allocations.
const ARMED: usize = 1_000_003;

const BEGUN: usize = 1_000_033;

const ENDED: usize = 1_000_037;

/// This allocation fails if one of the armed call failed.
const ASKED: usize = 1_000_039;

fn mark(alloc: Global, size: usize) -> bool {
    Vec::<u8>::with_capacity(alloc, size).is_ok()
}

/// Announces that the next call is the tried one.
pub fn arm(alloc: Global) {
    let _ = mark(alloc, ARMED);
}

/// Marks the start of the call's own allocations.
pub fn begin(alloc: Global) {
    let _ = mark(alloc, BEGUN);
}

/// Marks the end of the call's own allocations.
pub fn end(alloc: Global) {
    let _ = mark(alloc, ENDED);
}

/// Returns whether an allocation of the tried call failed.
pub fn was_refused(alloc: Global) -> bool {
    !mark(alloc, ASKED)
}
