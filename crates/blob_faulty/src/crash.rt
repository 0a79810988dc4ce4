//! The crash: the generator decides which pending bytes are kept.
ghost use Rattle.std.specs.Prelude.{◌≡◌, ◌≤◌, ℕ, List, [], All, OnOk, OnErr, IfOk, vec_capacity};
ghost use Rattle.blob_model.specs.Places.{Place};
ghost use Rattle.blob_header.specs.Refusals.{IsMemory};
ghost use Rattle.blob_faulty.specs.Crashes.{CrashDraws, CrashLeaves, ReplaysPending};
ghost use Rattle.blob_faulty.specs.Keeps.{Keeps};
ghost use Rattle.blob_faulty.specs.Names.{Steps};
ghost use Rattle.blob_pending.specs.Contents.{HasZeros};
ghost use Rattle.blob_pending.specs.Lists.{lists_of, held_by};
ghost use Rattle.blob_pending.specs.Replays.{most_zeros_of_all, widest_of_all};
ghost use Rattle.blob_faulty.specs.Ready.{IsReady};
ghost use Rattle.blob_faulty.specs.Wrapper.{KeepsNumbers, KeepsRecords, inner_of, pending_of};
ghost use Rattle.blob_memory.specs.Store.{directory, durable};

use crate::replay::{Buffers, replay_all};
use crate::storage::Storage;
use blob_base::Error;
use blob_draws::rows::draw_rows;
use blob_draws::selections::Selections;
use blob_memory::Origin;
use blob_pending::entries::{replay_room, unmarked};
use blob_pending::gather::gather;
use blob_pending::incarnation::Incarnation;
use rand_core::Rng;
use std::alloc::{AllocError, Global};

/// Reserves capacity for the result of replaying each list of a current incarnation. Returns the buffers for the longest writes. An
/// overflowing length is reported as an allocation failure.
pub(crate) fn reserve_all(
    inner: &mut blob_memory::Storage,
    alloc: Global,
    lists: &[Incarnation<Origin>],
) -> Result<Buffers, AllocError>
    ensures ready { OnOk result (All (λ list. IsReady inner.new (held_by (λ o. o) list)) lists.now) }
    ensures wide { IfOk result (λ made. widest_of_all (lists_of (λ o. o) lists.now) ≤ vec_capacity made.chosen) }
    ensures zeros { IfOk result (λ made. HasZeros (most_zeros_of_all (lists_of (λ o. o) lists.now)) made.zeros.items) }
    ensures durable { durable inner.new ≡ durable inner.old }
    ensures directory { directory inner.new ≡ directory inner.old }
{
    let mut choices = 0;
    let mut zeros = 0;
    for list in lists {
        let room = replay_room(unmarked(&list.entries));
        if inner.reserve_crash(&list.origin, room.end).is_err() {
            return Err(AllocError);
        }
        choices = choices.max(room.choices);
        zeros = zeros.max(room.zeros);
    }
    let chosen = Vec::with_capacity(alloc, choices)?;
    let zeros = vec![in alloc; 0; zeros]?;
    Ok(Buffers { zeros, chosen })
}

impl<R: Rng> Storage<blob_memory::Storage, R> {
    /// Replays the pending entries of each current incarnation that follow its last marker, in issue order, over its durable
    /// bytes. Of a write, only the drawn bytes are kept. Then nothing is pending.
    ///
    /// The draws are made in the order of the writes' numbers, over all incarnations, ended ones too. A write that later durable
    /// ranges cover fully takes no draw. Any other is drawn over its whole range, covered bytes too.
    ///
    /// Handles stay current and keep their live bytes. Open again to see what is left.
    ///
    /// # Errors
    ///
    /// `Memory` only. Nothing has changed except the generator.
    pub fn crash(&mut self) -> Result<Selections, Error>
        ensures rows { IfOk result (CrashDraws R.stream self.old self.new) }
        ensures stands { IfOk result (CrashLeaves self.old self.new) }
        ensures durable { IfOk result (ReplaysPending self.old self.new) }
        ensures emptied { OnOk result (pending_of (λ o. o) self.new ≡ (λ _. [])) }
        ensures memory { OnErr result (IsMemory result) }
        ensures unchanged { OnErr result (durable (inner_of self.new) ≡ durable (inner_of self.old)) }
        ensures records { OnErr result (KeepsRecords (λ o. o) self.old self.new) }
        ensures same_files { OnErr result (Steps (λ o. o) directory durable self.old self.new (λ files. files)) }
        ensures directory { directory (inner_of self.new) ≡ directory (inner_of self.old) }
        ensures numbers { KeepsNumbers self.old self.new }
        ensures keeps { (o : Place) (bytes : List ℕ) → Keeps self.old o bytes → Keeps self.new o bytes }
    {
        let alloc = self.alloc;
        let draws = gather(alloc, self.lists.as_slice())?;
        let rows = draw_rows(alloc, &draws, &mut self.rng)?;
        let buffers = reserve_all(&mut self.inner, alloc, self.lists.as_slice())?;
        replay_all(&mut self.inner, self.lists.as_slice(), &rows, buffers);
        self.lists.clear();
        Ok(Selections::new(rows))
    }
}
