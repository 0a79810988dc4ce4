//! Laws about the bytes of files.
ghost use Rattle.blob_fs.specs.Fixed.{NamedIsThere};
ghost use Rattle.blob_fs.specs.Synced.{SyncedIsFound};
ghost use Rattle.blob_fs.specs.Unreached.{UnreachedStaysFixed};

/// A crash leaves a file that is synced, if a name reaches it, with exactly its bytes: no profile cuts any.
pub fn synced_files<R>()
    ensures found { SyncedIsFound R }
{}

/// The file of each name that calls see exists.
pub fn named_files<R>()
    ensures { NamedIsThere R }
{}

/// A byte that is fixed stays so through a list of calls none of which reaches it. A crash after them leaves it (`FindsFixed`),
/// and fixes what it finds (`FixesFound`).
pub fn fixed_bytes<R>()
    ensures { UnreachedStaysFixed R }
{}
