// Opens and closes.
ghost use Rattle.std.specs.Prelude.{◌≡◌, ◌≤◌, false, Some, None, IfSome, IfNone};
ghost use Rattle.std.specs.Range.{range_inclusive_start, range_inclusive_end, range_inclusive_exhausted};
ghost use Rattle.blob_script.specs.Acts.{Open, OpenLoose, Close, versions_of};
ghost use Rattle.blob_lab_store.specs.LabStands.{Performs};
ghost use Rattle.blob_lab_store.specs.Tables.{version_bounds};

use crate::ScriptedRng;
use crate::lab::Lab;
use crate::lab::handles::Handle;
use blob_base::{BlobVersion, Storage};
use blob_faulty::laws::names::opens;
use blob_script::Reply;
use std::ops::RangeInclusive;

/// Returns a copy of a range of versions, or `None` if it is empty.
fn accepted(versions: &RangeInclusive<BlobVersion>) -> Option<RangeInclusive<BlobVersion>>
    ensures versions { IfSome result (λ v. versions_of versions.now ≡ Some (version_bounds v)) }
    ensures fresh { IfSome result (λ v. range_inclusive_exhausted v ≡ false) }
    ensures some { IfSome result (λ v. (range_inclusive_start v).0 ≤ (range_inclusive_end v).0) }
    ensures none { IfNone result (versions_of versions.now ≡ None) }
{
    if versions.is_empty() {
        return None;
    }
    Some(*versions.start()..=*versions.end())
}

// Calls by name aren't inlined: a function clears its locals each time, and calls through a handle would pay for those of an open.
impl Lab {
    /// Opens a blob exclusively, with `admit`: `Call::Open` without a copy of its texts. Returns `Opened`, `EmptyRange` for an
    /// empty range of versions, or `Failed`.
    #[inline(never)]
    pub fn open(
        &mut self,
        partition: &str,
        name: &[u8],
        versions: &RangeInclusive<BlobVersion>,
    ) -> Reply
        ensures { Performs self.old (Open partition.now name.now (versions_of versions.now)) result self.new }
    {
        let Some(versions) = accepted(versions) else {
            return Reply::EmptyRange;
        };
        if let Err(e) = self.handles.reserve() {
            return Reply::Failed(e);
        }
        match self
            .wrapper
            .open_exclusive(&mut self.opens, partition, name, versions)
        {
            Ok((blob, size, version)) => Reply::Opened {
                handle: self.handles.add(Handle::exclusive(blob)),
                size,
                version,
            },
            Err(e) => Reply::Failed(e),
        }
    }

    /// Opens a blob without the registry of open names: `Call::OpenLoose` without a copy of its texts. Returns `Opened`,
    /// `EmptyRange` for an empty range of versions, or `Failed`.
    #[inline(never)]
    pub fn open_loose(
        &mut self,
        partition: &str,
        name: &[u8],
        versions: &RangeInclusive<BlobVersion>,
    ) -> Reply
        ensures { Performs self.old (OpenLoose partition.now name.now (versions_of versions.now)) result self.new }
    {
        let Some(versions) = accepted(versions) else {
            return Reply::EmptyRange;
        };
        if let Err(e) = self.handles.reserve() {
            return Reply::Failed(e);
        }
        opens::<blob_memory::Storage, ScriptedRng>();
        match self.wrapper.open_versioned(partition, name, versions) {
            Ok((blob, size, version)) => Reply::Opened {
                handle: self.handles.add(Handle::loose(blob)),
                size,
                version,
            },
            Err(e) => Reply::Failed(e),
        }
    }

    /// Closes a handle. If it has the name open, the name is no longer open.
    pub fn close(&mut self, number: usize) -> Reply
        ensures { Performs self.old (Close number) result self.new }
    {
        match self.handles.take(number) {
            Some(handle) => {
                handle.close(&mut self.opens);
                Reply::Done
            }
            None => Reply::NoHandle,
        }
    }
}
