//! A fixed byte keeps its value until a call touches it.

ghost use Rattle.blob_lab_model.specs.Laws.{FixedBytesPersist};

/// If all opens are exclusive, a byte that a sync, a started sync, a SYNC write or an open fixed keeps its value. After
/// each later call it is durable and in the live bytes of each handle on its blob, and each later open returns a handle
/// that reads it. This ends with a write to a range that includes the byte, a resize to its position or below, or a
/// removal of its blob.
pub fn fixed_bytes_persist()
    ensures { FixedBytesPersist }
{}
