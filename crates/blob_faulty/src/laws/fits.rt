//! Laws about what the mode of a write allows, in a crash and in a failed write.
ghost use Rattle.blob_faulty.specs.FitLaws.{DrawsFit, EntriesFollow, PublishedIsFound, ResizesReach, WritesLayFitting};

/// The choices that a crash draws fit the modes in which the pending writes were issued: a prefix of the write's bytes, any of
/// them, or whole sectors.
pub fn draws()
    ensures { DrawsFit }
{}

/// Entries that a call adds to a blob's log are applied after it, durably and in a crash. Choices fit the longer log if they
/// fit the log and the entries.
pub fn entries()
    ensures { EntriesFollow }
{}

/// Whatever a write returns, it leaves some of its bytes over those before it, as its mode allows, and changes no other byte:
/// durably, and in a crash by fitting choices.
pub fn writes()
    ensures { WritesLayFitting }
{}

/// A resize changes no durable byte. In a crash it does nothing, or cuts or extends to the requested length, or, if it fails in
/// part, to a length above the lesser of the tracked size and the requested one.
pub fn resizes()
    ensures { ResizesReach }
{}

/// After a sync the published bytes are the durable ones, and any crash leaves them. Choices that fit the log fit what is left of it.
pub fn syncs()
    ensures { PublishedIsFound }
{}
