//! Syncs of the inner blob, and what they retire.
ghost use Rattle.std.specs.Prelude.{◌≡◌, ◌<◌, ◌+◌, ◌-◌, ◌^◌, [], OnOk, IfOk};
ghost use Rattle.blob_header.specs.Refusals.{error_of};
ghost use Rattle.blob_draws.specs.Answers.{or_memory};
ghost use Rattle.blob_faulty.specs.HandleLeaves.{AsksSync, AsksStart};
ghost use Rattle.blob_faulty.specs.Writes.{Syncs, Retires, Marks};

use crate::blob::Blob;
use crate::storage::Storage;
use blob_base::Error;
use blob_pending::room::Room;

impl<B> Blob<B> {
    /// Syncs the inner blob and, on Ok, retires the pending list of its incarnation.
    pub(crate) fn sync_inner<S: blob_base::Storage, R>(
        &mut self,
        store: &mut Storage<S, R>,
    ) -> Result<(), Error>
    where
        B: blob_base::Blob<S>,
        ensures allowed { B.allows_sync self.old.inner store.old.inner (error_of result) }
        ensures synced { Syncs S.Durable B.Blob self.old store.old self.new store.new (error_of result) }
        ensures asked { AsksSync B.Blob self.old store.old self.new store.new (error_of result) }
        ensures retired { OnOk result (Retires S.Durable B.Blob self.old store.old self.new store.new []) }
        ensures next_marker { store.new.next_marker ≡ store.old.next_marker }
    {
        self.inner.sync(&mut store.inner)?;
        store.lists.retire(self.inner.origin_ref(), self.list);
        Ok(())
    }

    /// Starts and finishes a sync of the inner blob, adds a marker to the list and returns the marker's number.
    pub(crate) fn start_marked<S: blob_base::Storage, R>(
        &mut self,
        store: &mut Storage<S, R>,
    ) -> Result<u64, Error>
    where
        B: blob_base::Blob<S>,
        requires left { store.old.next_marker < 2 ^ 64 - 1 }
        ensures allowed { or_memory (B.allows_start_sync self.old.inner store.old.inner) (error_of result) }
        ensures synced { Syncs S.Durable B.Blob self.old store.old self.new store.new (error_of result) }
        ensures asked { AsksStart B.Blob self.old store.old self.new store.new S.leaves_finish (error_of result) }
        ensures marker { IfOk result (λ marker. marker ≡ store.old.next_marker) }
        ensures marked { OnOk result (Marks S.Durable B.Blob self.old store.old self.new store.new) }
        ensures next { OnOk result (store.new.next_marker ≡ store.old.next_marker + 1) }
    {
        let list = store.lists.room_for(&self.inner, self.list, Room::Mark)?;
        let handle = self.inner.start_sync(&mut store.inner);
        store.inner.finish(handle)?;
        self.list = list;
        let number = store.next_marker;
        store.next_marker = number + 1;
        store.lists.mark(list, number);
        Ok(number)
    }
}
