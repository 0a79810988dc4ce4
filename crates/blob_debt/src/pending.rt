//! The durability debt of closed handles.
//!
//! A backend that closes handles with work outstanding admits each open here. The open learns whether a predecessor is still
//! working, whether mutations must be flushed, and whether a failure was retained. Contracts are about the history of accepted
//! calls: a call's result follows from any history that the registry represents, and the registry then represents that history
//! with the call added.
ghost use Rattle.std.specs.Prelude.{◌≡◌, ◌≢◌, IsErr, is_some, Ok, ◌∷◌, [], OnErr, OnOk, IfOk, not, option_map, option_copied, Some, None, false, ◌⊎◌, ◌<◌, ◌^◌, ◌-◌};
ghost use Rattle.blob_header.specs.Refusals.{refusal_of, error_of, IsMemory};
ghost use Rattle.blob_debt.specs.History.{History, To, Admit, Release, Settle, Clear, Fail, Close, Forget, Skip, latest, release_result, debt_for, events, is_outstanding};
ghost use Rattle.blob_debt.specs.Debts.{Represents, IsUnchanged, IsOpenedEntry, HoldsNames, AnswersOpen, AnswersOrMemory, after_admit, after_release, entry_denial, operation_of, key_events, entry_report, to_key, by_open, RecordsCall};

pub(crate) mod entry;
pub(crate) mod generation;
pub mod recreated;

use blob_header::Error;
use blob_header::error_copy::copied_error;
use blob_names::names::Names;
use entry::{Change, Entry};
pub use generation::{Generation, GenerationId, Receiver, Sender};
use std::alloc::Global;
use std::collections::BTreeSet;

/// The latest open of each name, and the debt of the closed ones.
///
/// A name has at most one live open. It is live until its generation is closed.
///
/// Generations, their numbers, tokens and keys belong to the registry that returned them. In another one they may be those of
/// another open. If a call takes a key with a number or a token, the key must be that of its generation.
#[derive(Drop)]
pub struct Pending {
    pub(crate) names: Names<Entry>,
    /// Tokens that were given and not settled yet.
    pub(crate) outstanding: BTreeSet<u64>,
    pub(crate) next_generation: u64,
    pub(crate) next_token: u64,
    alloc: Global,
}

impl Pending {
    /// Returns a registry without history.
    pub fn new(alloc: Global) -> Pending
        ensures { Represents result [] }
    {
        Pending {
            names: Names::new(alloc),
            outstanding: BTreeSet::new(alloc),
            next_generation: 0,
            next_token: 0,
            alloc,
        }
    }

    /// Returns an empty registry that numbers generations and tokens from these numbers on.
    pub fn starting_at(alloc: Global, next_generation: u64, next_token: u64) -> Pending
        ensures { Represents result (Skip next_generation next_token ∷ []) }
    {
        let mut pending = Pending::new(alloc);
        pending.next_generation = next_generation;
        pending.next_token = next_token;
        pending
    }

    /// Returns whether the registry has an entry for a name: an open that isn't closed or not settled, debt, or a failure.
    pub fn keeps(&self, partition: &str, name: &[u8]) -> bool
        ensures { (h : History) → Represents self.now h → result ≡ is_some (latest (events h partition.now name.now)) }
    {
        self.names.get(partition, name).is_some()
    }

    /// Admits an open. `existing` is whether the blob existed. If it didn't, the name is forgotten first.
    ///
    /// Returns the open's generation, the token of a predecessor that is still settling, and whether there is such a token or debt.
    ///
    /// Errors, with nothing changed:
    /// - `BlobAlreadyOpen` if the name has an open that isn't closed.
    /// - The retained failure, if there is one.
    /// - `GenerationsExhausted` if no number is left.
    /// - `Memory`.
    pub fn admit(
        &mut self,
        partition: &str,
        name: &[u8],
        existing: bool,
    ) -> Result<(Generation, Option<Receiver>, bool), Error>
        ensures answer { AnswersOpen self.old partition.now name.now existing result }
        ensures stands { (h : History) → Represents self.old h → Represents self.new (after_admit h existing result) }
        ensures refused { OnErr result (IsUnchanged self.old self.new) }
    {
        let entry = self.admitted(partition, name, existing)?;
        let key = (
            String::from_str(self.alloc, partition)?,
            Vec::from_slice(self.alloc, name)?,
        );
        let number = entry.generation;
        let predecessor = entry.settling;
        let owes = predecessor.is_some() || entry.is_dirty;
        self.names.insert(partition, name, entry)?;
        self.next_generation = number + 1;
        let receiver = predecessor.map(|token| Receiver { token });
        Ok((Generation { key, number }, receiver, owes))
    }

    /// Returns the entry for an accepted open, or the error of a rejected one.
    fn admitted(&self, partition: &str, name: &[u8], existing: bool) -> Result<Entry, Error>
        ensures answer { AnswersOpen self.now partition.now name.now existing (entry_report partition.now name.now result) }
        ensures entry { IfOk result (λ entry. IsOpenedEntry self.now partition.now name.now existing entry) }
        ensures number { IfOk result (λ entry. entry.generation ≡ self.now.next_generation) }
        ensures left { IfOk result (λ entry. entry.generation < 2 ^ 64 - 1) }
    {
        let mut entry = Entry::opened(self.next_generation);
        if existing {
            if let Some(known) = self.names.get(partition, name) {
                self.check_closed(partition, name, known)?;
                entry.settling = known.settling;
                entry.is_dirty = known.is_dirty;
            }
        }
        if self.next_generation == u64::MAX {
            return Err(Error::GenerationsExhausted);
        }
        Ok(entry)
    }

    /// Rejects a name with an open that isn't closed, or with a retained failure.
    fn check_closed(&self, partition: &str, name: &[u8], entry: &Entry) -> Result<(), Error>
        ensures ok { OnOk result ((entry.now.is_live ≡ false) × (entry.now.failure ≡ None)) }
        ensures err { OnErr result (IsMemory result ⊎ (error_of result ≡ entry_denial entry.now partition.now name.now)) }
    {
        if entry.is_live {
            let partition = String::from_str(self.alloc, partition)?;
            let name = hex::encode(self.alloc, name)?;
            return Err(Error::BlobAlreadyOpen(partition, name));
        }
        if let Some(failure) = &entry.failure {
            return Err(copied_error(self.alloc, failure)?);
        }
        Ok(())
    }

    /// Releases a name for its next open. Returns the sender that settles this open when its work is done, or `None` if the
    /// generation isn't the name's latest or a predecessor is still settling.
    ///
    /// `GenerationsExhausted` if no number is left for a token, or `Memory`. Both change nothing.
    pub fn release(&mut self, generation: &Generation) -> Result<Option<Sender>, Error>
        ensures answer { (h : History) → Represents self.old h → AnswersOrMemory result (release_result h generation.now) }
        ensures stands { (h : History) → Represents self.old h → Represents self.new (after_release h generation.now result) }
        ensures refused { OnErr result (IsUnchanged self.old self.new) }
        ensures nothing { result ≡ Ok None → IsUnchanged self.old self.new }
        ensures memory { (h : History) → Represents self.old h → IsMemory result → release_result h generation.now ≢ Ok None }
    {
        let key = &generation.key;
        let number = generation.number;
        let Some(entry) = self.names.get(key.0.as_str(), key.1.as_slice()) else {
            return Ok(None);
        };
        if entry.generation != number || entry.settling.is_some() {
            return Ok(None);
        }
        let token = self.next_token;
        if token == u64::MAX {
            return Err(Error::GenerationsExhausted);
        }
        self.outstanding.insert(token)?;
        change(
            &mut self.names,
            key,
            Change::Release {
                generation: number,
                token,
            },
        );
        self.next_token = token + 1;
        Ok(Some(Sender { token }))
    }

    /// Returns whether the name has debt. An open calls this after its predecessor has settled. `Ok(false)` if `id` isn't the
    /// name's latest generation.
    ///
    /// Returns the retained failure as an error, if there is one, or `Memory` if its texts can't be allocated.
    pub fn debt(&self, key: &(String, Vec<u8>), id: GenerationId) -> Result<bool, Error>
        ensures answer { (h : History) → Represents self.now h → AnswersOrMemory result (debt_for (key_events h key.now) id) }
        ensures memory { (h : History) → Represents self.now h → IsMemory result → IsErr (debt_for (key_events h key.now) id) }
    {
        let Some(entry) = self.names.get(key.0.as_str(), key.1.as_slice()) else {
            return Ok(false);
        };
        if entry.generation != id.number {
            return Ok(false);
        }
        if let Some(failure) = &entry.failure {
            return Err(copied_error(self.alloc, failure)?);
        }
        Ok(entry.is_dirty)
    }

    /// Returns whether a token was settled, under any name, even a forgotten one. Allocates nothing.
    pub fn is_settled(&self, receiver: &Receiver) -> bool
        ensures { (h : History) → Represents self.now h → result ≡ not (is_outstanding h receiver.now) }
    {
        !self.outstanding.contains(&receiver.token)
    }

    /// Settles a token. Call this when all work of its open is done. Allocates nothing.
    ///
    /// If the name is settling this token, adds debt if `dirty`, and retains the failure, if there is one.
    ///
    /// `key` must be that of the generation that was released for the token. With another key the token is settled, but its own
    /// name isn't: no later open of that name is released until the name is forgotten.
    pub fn settle(
        &mut self,
        key: &(String, Vec<u8>),
        sender: Sender,
        dirty: bool,
        failure: Option<Error>,
    )
        ensures { RecordsCall self.old self.new (to_key key.now (Settle sender dirty (option_map refusal_of failure))) }
    {
        let Sender { token } = sender;
        self.outstanding.remove(&token);
        change(
            &mut self.names,
            key,
            Change::Settle {
                token,
                dirty,
                failure,
            },
        );
    }

    /// Records the outcome of flushing the debt: success ends the debt, a failure is retained. Success doesn't end a retained
    /// failure. Ignored unless the generation is the name's latest. Allocates nothing.
    pub fn clear(&mut self, key: &(String, Vec<u8>), id: GenerationId, outcome: Result<(), Error>)
        ensures { RecordsCall self.old self.new (to_key key.now (Clear id (error_of outcome))) }
    {
        let generation = id.number;
        change(
            &mut self.names,
            key,
            Change::Clear {
                generation,
                outcome,
            },
        );
    }

    /// Retains a failure. Ignored unless the generation is the name's latest. Allocates nothing.
    pub fn fail(&mut self, generation: &Generation, error: Error)
        ensures { RecordsCall self.old self.new (by_open generation.now (Fail generation.now.number (refusal_of error))) }
    {
        let failed = Change::Clear {
            generation: generation.number,
            outcome: Err(error),
        };
        change(&mut self.names, &generation.key, failed);
    }

    /// Closes an open. Its debt stays for later opens of the name. Allocates nothing.
    pub fn close(&mut self, generation: Generation)
        ensures { RecordsCall self.old self.new (by_open generation (Close generation.number)) }
    {
        let Generation { key, number } = generation;
        change(&mut self.names, &key, Change::Close { generation: number });
    }

    /// Forgets a removed name, or all names of a partition, with their debt and failures. Earlier tokens and generations are then
    /// ignored. Allocates nothing.
    pub fn forget(&mut self, partition: &str, name: Option<&[u8]>)
        ensures { RecordsCall self.old self.new (Forget partition.now (option_copied name.entry)) }
    {
        match name {
            Some(name) => self.names.remove(partition, name),
            None => self.names.remove_partition(partition),
        }
    }
}

/// Applies a change to a name's entry and drops the entry if that ends it. Does nothing without an entry.
fn change(names: &mut Names<Entry>, key: &(String, Vec<u8>), change: Change)
    ensures { (h : History) → HoldsNames names.old h → HoldsNames names.new (to_key key.now (operation_of change) ∷ h) }
{
    let (partition, name) = (key.0.as_str(), key.1.as_slice());
    // A placeholder in the map while the name's own entry is changed.
    let mut entry = Entry::opened(0);
    if !names.exchange(partition, name, &mut entry) {
        return;
    }
    if entry.apply(change) {
        names.remove(partition, name);
    } else {
        names.exchange(partition, name, &mut entry);
    }
}
