//! Laws of the handles on current incarnations, in each reached state.

ghost use Rattle.blob_lab_model.specs.Laws.{CurrentSizeIsTold, CurrentSizeIsTracked};

/// A handle on its name's current incarnation tracks the length of its live bytes, and `Size` returns it.
///
/// A stale handle may not: a SYNC write that fails because the handle is stale changes its bytes, but not its size.
pub fn sizes()
    ensures tracked { CurrentSizeIsTracked }
    ensures told { CurrentSizeIsTold }
{}
