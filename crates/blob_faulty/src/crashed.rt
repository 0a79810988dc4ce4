//! What a crash would leave, in another store.
ghost use Rattle.std.specs.Prelude.{◌≡◌, ℕ, List, [], IfOk, OnErr};
ghost use Rattle.blob_model.specs.Places.{Place};
ghost use Rattle.blob_header.specs.Refusals.{IsMemory};
ghost use Rattle.blob_faulty.specs.Crashes.{CrashDraws, CrashLeaves, ReplaysPending};
ghost use Rattle.blob_faulty.specs.Keeps.{Keeps};
ghost use Rattle.blob_faulty.specs.Lends.{with_rng};
ghost use Rattle.blob_faulty.specs.Wrapper.{KeepsNumbers, inner_of, pending_of};
ghost use Rattle.blob_memory.specs.Store.{directory};

use crate::crash::reserve_all;
use crate::replay::replay_all;
use crate::storage::Storage;
use blob_base::Error;
use blob_draws::config::Config;
use blob_draws::rows::draw_rows;
use blob_draws::selections::Selections;
use blob_pending::gather::gather;
use blob_pending::lists::Lists;
use rand_core::Rng;

impl<R: Rng> Storage<blob_memory::Storage, R> {
    /// Returns a store as a crash would leave this one if `rng` made its draws, and what they kept. This store stays as it is, so
    /// every outcome of a crash can be tried without making the calls before it again.
    ///
    /// The other store is a wrapper of a fork of the inner one (`blob_memory::Storage::fork`), with the same configuration and next
    /// numbers. Nothing is pending in it. Open a blob there to see what is left.
    ///
    /// # Errors
    ///
    /// `Memory` if an allocation fails.
    pub fn crashed(
        &self,
        mut rng: R,
    ) -> Result<(Storage<blob_memory::Storage, R>, Selections), Error>
    where
        R: Drop,
        ensures rows { IfOk result (λ left. CrashDraws R.stream (with_rng self.now rng) left.0 left.1) }
        ensures stands { IfOk result (λ left. CrashLeaves self.now left.0 left.1) }
        ensures durable { IfOk result (λ left. ReplaysPending self.now left.0 left.1) }
        ensures emptied { IfOk result (λ left. pending_of (λ o. o) left.0 ≡ (λ _. [])) }
        ensures directory { IfOk result (λ left. directory (inner_of left.0) ≡ directory (inner_of self.now)) }
        ensures numbers { IfOk result (λ left. KeepsNumbers self.now left.0) }
        ensures keeps { IfOk result (λ left. (o : Place) (bytes : List ℕ) → Keeps self.now o bytes → Keeps left.0 o bytes) }
        ensures memory { OnErr result (IsMemory result) }
    {
        let alloc = self.alloc;
        let draws = gather(alloc, self.lists.as_slice())?;
        let rows = draw_rows(alloc, &draws, &mut rng)?;
        let mut inner = self.inner.fork()?;
        let buffers = reserve_all(&mut inner, alloc, self.lists.as_slice())?;
        replay_all(&mut inner, self.lists.as_slice(), &rows, buffers);
        let left = Storage {
            inner,
            rng,
            config: Config { ..self.config },
            lists: Lists::new(alloc),
            next_write: self.next_write,
            next_marker: self.next_marker,
            alloc,
        };
        Ok((left, Selections::new(rows)))
    }
}
