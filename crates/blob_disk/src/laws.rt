//! What a resize that fails in part would leave.
ghost use Rattle.std.specs.Prelude.{◌≡◌, ℕ, List, length};
ghost use Rattle.blob_model.specs.Bytes.{resize};
ghost use Rattle.sqlite_disk.specs.Disk.{Cut};

/// A resize of 100 live bytes to 50 that reaches 70 is kept by a crash as one to 70. Of 20 durable bytes it leaves 70, and no
/// resize of those to 50 does.
pub fn partial_resizes()
    ensures { (file : List ℕ) → length file ≡ 20 → Cut 50 file (resize file 70) → ⊥ }
{}
