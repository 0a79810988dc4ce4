//! Laws about what a crash may leave after a mutation, given what it might have left before it.
ghost use Rattle.blob_faulty.specs.Outcomes.{RecordedStands, RecordedLeft, RecordedInRange, WritesLay, ResizesCut};

use blob_base::Storage as Inner;
use rand_core::Rng;

/// After a recorded write or resize, a crash leaves what it might have left before, followed by the recorded entries. Each entry
/// is applied by the same choices.
pub fn recorded<S: Inner, R: Rng>()
    ensures stands { RecordedStands R S.Durable }
    ensures left { RecordedLeft R S.Durable }
{}

/// A crash applies some bytes of a recorded write, all of them for a SYNC write and for kept runs, and none outside its range. If
/// resizes don't fail in part, a recorded resize has the requested length. A resize that isn't recorded is lost.
pub fn entries()
    ensures writes { WritesLay }
    ensures in_range { RecordedInRange }
    ensures resizes { ResizesCut }
{}
