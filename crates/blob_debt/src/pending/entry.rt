// The entry of one name.
ghost use Rattle.std.specs.Prelude.{◌≡◌, Some, None, if◌then◌else◌, true, false};

use blob_header::Error;

/// A name's latest open and the debt of its predecessors.
#[derive(Drop)]
pub(crate) struct Entry {
    pub(crate) generation: u64,
    pub(crate) is_live: bool,
    /// The token of a predecessor that isn't settled yet.
    pub(crate) settling: Option<u64>,
    pub(crate) is_dirty: bool,
    pub(crate) failure: Option<Error>,
}

/// A change of an entry. Ignored unless it has the latest generation or the settling token.
#[derive(Drop)]
pub(crate) enum Change {
    Release {
        generation: u64,
        token: u64,
    },
    Settle {
        token: u64,
        dirty: bool,
        failure: Option<Error>,
    },
    Clear {
        generation: u64,
        outcome: Result<(), Error>,
    },
    Close {
        generation: u64,
    },
}

impl Entry {
    ghost use Rattle.blob_debt.specs.Debts.{standing_of, is_standing_over, new_entry, FollowsChange};

    /// Returns the entry of a live open without debt.
    pub(crate) fn opened(generation: u64) -> Entry
        ensures { result ≡ new_entry generation }
    {
        Entry {
            generation,
            is_live: true,
            settling: None,
            is_dirty: false,
            failure: None,
        }
    }

    /// Returns whether a later open needs no entry.
    fn is_over(&self) -> bool
        ensures { result ≡ is_standing_over (standing_of (Some self.now)) }
    {
        !self.is_live && self.settling.is_none() && !self.is_dirty && self.failure.is_none()
    }

    /// Applies a change. Returns whether the entry can be dropped.
    pub(crate) fn apply(&mut self, change: Change) -> bool
        ensures { FollowsChange self.old change (if result then None else Some self.new) }
    {
        match change {
            Change::Release { generation, token } => {
                if self.generation == generation && self.settling.is_none() {
                    self.settling = Some(token);
                }
                false
            }
            Change::Settle {
                token,
                dirty,
                failure,
            } => {
                if self.settling != Some(token) {
                    return false;
                }
                self.settling = None;
                self.is_dirty |= dirty;
                self.failure = failure.or(self.failure.take());
                self.is_over()
            }
            Change::Clear {
                generation,
                outcome,
            } => {
                if self.generation == generation {
                    match outcome {
                        Ok(()) => self.is_dirty = false,
                        Err(error) => self.failure = Some(error),
                    }
                }
                false
            }
            Change::Close { generation } => {
                if self.generation != generation {
                    return false;
                }
                self.is_live = false;
                self.is_over()
            }
        }
    }
}
