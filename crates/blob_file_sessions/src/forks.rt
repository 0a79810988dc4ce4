// A second session of files in the same state.
ghost use Rattle.std.specs.Prelude.{◌≡◌, ◌≢◌, ◌⊎◌, None, IfErr, IfOk, IsSome};
ghost use Rattle.blob_fs.specs.Errors.{IsOutOfMemory};
ghost use Rattle.blob_fs.specs.declared.error.FsError.TheVariants.{Crashed};
ghost use Rattle.blob_file_sessions.specs.Forks.{HasForkIn, IsForkStatus, IsKeptFork};
ghost use Rattle.blob_file_sessions.specs.Held.{files_of};

use crate::copies::copied_last;
use crate::files::Files;
use crate::kept::KeptFiles;
use crate::refusals::CRASHED;
use blob_fs::FsError;
use blob_sessions::ran::{BAD_CALL, CLOSED, DONE, NO_MEMORY};
use std::alloc::Global;

impl Files {
    /// Opens closed files in the state of these, which stay as they are. No call in one changes the other.
    ///
    /// Errors, with nothing changed:
    /// - `BAD_CALL` if `fork` is open. Checked first.
    /// - `CLOSED` if these files are closed.
    /// - `CRASHED` if the recovery of the last crash failed.
    /// - `NO_MEMORY`.
    pub fn fork(&mut self, alloc: Global, fork: &mut Files) -> u32
        ensures done { result ≡ DONE → HasForkIn self.old fork.new }
        ensures first { files_of self.new ≡ files_of self.old }
        ensures refused { result ≢ DONE → files_of fork.new ≡ files_of fork.old }
        ensures open { result ≡ BAD_CALL → IsSome (files_of fork.old) }
        ensures closed { result ≡ CLOSED → files_of self.old ≡ None }
        ensures status { IsForkStatus result }
    {
        if fork.is_open() {
            return BAD_CALL;
        }
        let Some(kept) = self.take(alloc) else {
            return CLOSED;
        };
        let forked = kept.fork(alloc);
        self.put(kept);
        match forked {
            Ok(forked) => {
                fork.put(forked);
                DONE
            }
            Err(FsError::Crashed) => CRASHED,
            Err(_) => NO_MEMORY,
        }
    }
}

impl KeptFiles {
    /// Returns a second file system in the same state, with the same last reply and supply of power.
    ///
    /// # Errors
    ///
    /// `Crashed` if the recovery of the last crash failed, `Memory`.
    fn fork(&self, alloc: Global) -> Result<Box<KeptFiles>, FsError>
        ensures ok { IfOk result (λ fork. IsKeptFork self.now fork.value) }
        ensures errors { IfErr result (λ e. (e ≡ Crashed) ⊎ IsOutOfMemory e) }
    {
        let last = copied_last(alloc, &self.last)?;
        let rng = self.fs.rng().copy()?;
        let fs = self.fs.fork(rng)?;
        let fork = KeptFiles {
            alloc,
            fs,
            last,
            power: self.power,
        };
        Ok(Box::new(alloc, fork)?)
    }
}
