// A second session in the same state.
ghost use Rattle.std.specs.Prelude.{◌≡◌, ◌≢◌, ◌⊎◌, None, IfOk, IsSome, OnErr};
ghost use Rattle.blob_draws.specs.Rows.{table_of};
ghost use Rattle.blob_header.specs.Refusals.{IsMemory};
ghost use Rattle.blob_sessions.specs.Forks.{HasForkIn, IsCopy, IsKeptFork, IsLastCopy, bytes_of};
ghost use Rattle.blob_sessions.specs.Sessions.{kept_of};

use crate::kept::Kept;
use crate::ran::{BAD_CALL, CLOSED, DONE, NO_MEMORY};
use crate::session::Session;
use blob_base::Error;
use blob_draws::Selections;
use blob_header::error_copy::copied_error;
use blob_lab::Reply;
use blob_lab::script::setting::copy_of;
use std::alloc::Global;

impl Session {
    /// Opens a closed session in the state of this one, which stays as it is. No call in one changes the other.
    ///
    /// Errors, with nothing changed:
    /// - `BAD_CALL` if `fork` is open. Checked first.
    /// - `CLOSED` if this session is closed.
    /// - `NO_MEMORY`.
    pub fn fork(&mut self, alloc: Global, fork: &mut Session) -> u32
        ensures done { result ≡ DONE → HasForkIn self.old fork.new }
        ensures first { kept_of self.new ≡ kept_of self.old }
        ensures refused { result ≢ DONE → kept_of fork.new ≡ kept_of fork.old }
        ensures open { result ≡ BAD_CALL → IsSome (kept_of fork.old) }
        ensures closed { result ≡ CLOSED → kept_of self.old ≡ None }
        ensures status { (result ≡ DONE) ⊎ (result ≡ BAD_CALL) ⊎ (result ≡ CLOSED) ⊎ (result ≡ NO_MEMORY) }
    {
        if fork.is_open() {
            return BAD_CALL;
        }
        let Some(kept) = self.take(alloc) else {
            return CLOSED;
        };
        let forked = kept.fork(alloc);
        self.put(kept);
        match forked {
            Ok(forked) => {
                fork.put(forked);
                DONE
            }
            Err(_) => NO_MEMORY,
        }
    }
}

impl Kept {
    /// Returns a second laboratory in the same state, with the same settings, last reply and supply of power. Its registry of
    /// durability debt is new.
    ///
    /// The only error is `Memory`.
    fn fork(&self, alloc: Global) -> Result<Box<Kept>, Error>
        ensures ok { IfOk result (λ fork. IsKeptFork self.now fork.value) }
        ensures err { OnErr result (IsMemory result) }
    {
        let last = copied_last(alloc, &self.last)?;
        let lab = self.lab.fork()?;
        let mut fork = Kept::new(alloc, lab, copy_of(self.reader.config()));
        fork.last = last;
        fork.power = self.power;
        Ok(Box::new(alloc, fork)?)
    }
}

/// Returns a copy of the reply to the last call, if there was a call. The only error is `Memory`.
fn copied_last(alloc: Global, last: &Option<Reply>) -> Result<Option<Reply>, Error>
    ensures ok { IfOk result (IsLastCopy last.now) }
    ensures err { OnErr result (IsMemory result) }
{
    match last {
        Some(reply) => Ok(Some(copied_reply(alloc, reply)?)),
        None => Ok(None),
    }
}

/// Returns a copy of a reply. The only error is `Memory`.
fn copied_reply(alloc: Global, reply: &Reply) -> Result<Reply, Error>
    ensures ok { IfOk result (IsCopy reply.now) }
    ensures err { OnErr result (IsMemory result) }
{
    Ok(match reply {
        Reply::Done => Reply::Done,
        Reply::Opened {
            handle,
            size,
            version,
        } => Reply::Opened {
            handle: *handle,
            size: *size,
            version: *version,
        },
        Reply::Bytes(bytes) => Reply::Bytes(Vec::from_slice(alloc, bytes)?),
        Reply::Size(size) => Reply::Size(*size),
        Reply::Names(names) => Reply::Names(copied_names(names)?),
        Reply::Started(number) => Reply::Started(*number),
        Reply::Crashed(selections) => Reply::Crashed(copied_selections(alloc, selections)?),
        Reply::Failed(error) => Reply::Failed(copied_error(alloc, error)?),
        Reply::NoHandle => Reply::NoHandle,
        Reply::EmptyRange => Reply::EmptyRange,
    })
}

/// Returns a copy of the names that a scan returned. The only error is `Memory`.
fn copied_names(names: &Vec<Vec<u8>>) -> Result<Vec<Vec<u8>>, Error>
    ensures ok { IfOk result (λ copy. bytes_of copy ≡ bytes_of names.now) }
    ensures err { OnErr result (IsMemory result) }
{
    Ok(names.clone()?)
}

/// Returns a copy of the choices of a crash. The only error is `Memory`.
pub fn copied_selections(alloc: Global, selections: &Selections) -> Result<Selections, Error>
    ensures ok { IfOk result (λ copy. table_of copy ≡ table_of selections.now) }
    ensures err { OnErr result (IsMemory result) }
{
    Ok(Selections::new(selections.rows().to_vec(alloc)?))
}
