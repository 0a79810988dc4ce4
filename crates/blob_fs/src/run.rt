//! A list of calls, and a crash after it.
ghost use Rattle.std.specs.Prelude.{IfErr, IfOk, OnErr, OnOk};
ghost use Rattle.blob_fs.specs.Calls.{Does, DoesAll, Leaves, RunsAndCrashes};
ghost use Rattle.blob_fs.specs.Errors.{IsOutOfMemory, OnlyMemoryRefuses};
ghost use Rattle.blob_fs.specs.Fixed.{KeepsUnreached};
ghost use Rattle.blob_fs.specs.Files.{GivesTold, GrowsTold};

use crate::answer::by_number;
use crate::call::NumberCall;
use crate::crash::Crash;
use crate::error::FsError;
use crate::file_system::FileSystem;
use blob_journal::laws::told;
use rand_core::Rng;

impl<R: Rng + Drop> FileSystem<R> {
    /// Makes a call by numbers. Returns whether it returned Ok.
    pub fn call(&mut self, call: &NumberCall<'_>) -> bool
        ensures does { Does call.now result self.old self.new }
        ensures fixed { KeepsUnreached call.now self.old self.new }
    {
        !by_number(self, call).is_refused()
    }

    /// Makes calls, one after another, whatever they return. Returns, for each call, whether it returned Ok.
    ///
    /// # Errors
    ///
    /// `Memory`. No call was made.
    pub fn run(&mut self, calls: &[NumberCall<'_>]) -> Result<Vec<bool>, FsError>
        ensures done { IfOk result (λ oks. DoesAll calls.now oks.items self.old self.new) }
        ensures refused { OnErr result (Leaves self.old self.new) }
        ensures grows { GrowsTold self.old self.new }
        ensures errors { IfErr result IsOutOfMemory }
    {
        told();
        let mut oks = Vec::with_capacity(self.alloc, calls.len())?;
        for call in calls {
            let ok = self.call(call);
            oks.push_reserved(ok);
        }
        Ok(oks)
    }

    /// Makes calls, one after another, and crashes. Returns, for each call, whether it returned Ok, and what the crash kept.
    ///
    /// The names that are found are those of all edits that were settled, before or by the calls, and of some of the others, as
    /// the profile keeps them, in the order of issue, each whole. Each file that they reach has the bytes that the layer's crash
    /// leaves of it, with its kept truncations, cut as the profile says. Each byte that was fixed before the crash is among them.
    /// All that are found are fixed: a second crash leaves them too.
    ///
    /// # Errors
    ///
    /// Those of `run` and of `crash`.
    pub fn run_and_crash(&mut self, calls: &[NumberCall<'_>]) -> Result<(Vec<bool>, Crash), FsError>
        ensures kept { IfOk result (λ r. RunsAndCrashes self.old calls.now r.0.items r.1 self.new) }
        ensures settled { OnOk result (GivesTold self.new) }
        ensures errors { OnlyMemoryRefuses self.new result }
    {
        let oks = self.run(calls)?;
        let crash = self.crash()?;
        Ok((oks, crash))
    }
}
