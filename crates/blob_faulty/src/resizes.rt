//! Resizes of the inner blob, and what they record.
ghost use Rattle.std.specs.Prelude.{◌≡◌, [], OnErr};
ghost use Rattle.blob_header.specs.Refusals.{error_of};
ghost use Rattle.blob_draws.specs.Answers.{or_memory};
ghost use Rattle.blob_draws.specs.Fates.{resize_fate_of};
ghost use Rattle.blob_base.specs.HandleCalls.{Resize};
ghost use Rattle.blob_faulty.specs.Allowed.{MayResizeAs};
ghost use Rattle.blob_faulty.specs.Asked.{AsksResize};
ghost use Rattle.blob_faulty.specs.StepResults.{CallsInner, MayCallInner, RecordsResize, ResizesAs, ReachesAs};
ghost use Rattle.blob_faulty.specs.Wrapper.{KeepsDurable};
ghost use Rattle.blob_faulty.specs.Writes.{Writes, resize_effect};

use crate::blob::Blob;
use crate::storage::Storage;
use blob_base::Error;
use blob_draws::faults::ResizeFate;
use blob_pending::room::Room;

impl<B> Blob<B> {
    /// Resizes the inner blob and records nothing.
    fn resize_unrecorded<S: blob_base::Storage, R>(
        &mut self,
        store: &mut Storage<S, R>,
        len: u64,
    ) -> Result<(), Error>
    where
        B: blob_base::Blob<S>,
        ensures allowed { B.allows_resize self.old.inner store.old.inner len (error_of result) }
        ensures asked { CallsInner B.Blob self.old store.old self.new store.new (Resize len) result }
        ensures wrote { Writes S.Durable B.Blob self.old store.old self.new store.new (resize_effect len []) (error_of result) }
        ensures untracked { OnErr result (self.new.size ≡ self.old.size) }
        ensures durable { S.durable store.new.inner ≡ S.durable store.old.inner }
        ensures rest { store.new ≡ record store.old { inner = store.new.inner } }
    {
        self.inner.resize(&mut store.inner, len)?;
        self.size = len;
        Ok(())
    }

    /// Resizes the inner blob and records it, so that it survives a crash.
    fn resize_pending<S: blob_base::Storage, R>(
        &mut self,
        store: &mut Storage<S, R>,
        len: u64,
    ) -> Result<(), Error>
    where
        B: blob_base::Blob<S>,
        ensures allowed { or_memory (B.allows_resize self.old.inner store.old.inner len) (error_of result) }
        ensures asked { MayCallInner B.Blob self.old store.old self.new store.new (Resize len) result }
        ensures recorded { RecordsResize S.Durable B.Blob self.old store.old self.new store.new len result }
        ensures kept { KeepsDurable S.durable store.old store.new }
    {
        let list = store.lists.room_for(&self.inner, self.list, Room::Entry)?;
        self.resize_unrecorded(store, len)?;
        store.lists.push_resize(list, len);
        self.list = list;
        Ok(())
    }

    /// Carries out a resize by its drawn outcome.
    pub(crate) fn resize_by_fate<S: blob_base::Storage, R>(
        &mut self,
        store: &mut Storage<S, R>,
        fate: ResizeFate,
        len: u64,
    ) -> Result<(), Error>
    where
        B: blob_base::Blob<S>,
        ensures allowed { MayResizeAs B.Blob self.old store.old fate len (error_of result) }
        ensures asked { AsksResize B.Blob self.old store.old self.new store.new (resize_fate_of fate) len (error_of result) }
        ensures resized { ResizesAs S.Durable B.Blob self.old store.old self.new store.new fate len result }
        ensures reached { ReachesAs S.Durable B.Blob self.old store.old self.new store.new fate result }
        ensures kept { KeepsDurable S.durable store.old store.new }
    {
        match fate {
            ResizeFate::Resizes(true) => self.resize_pending(store, len),
            ResizeFate::Resizes(false) => self.resize_unrecorded(store, len),
            ResizeFate::Stays => Err(Error::Injected),
            ResizeFate::Reaches(size) => {
                self.resize_pending(store, size)?;
                Err(Error::Injected)
            }
        }
    }
}
