// What a crash would leave of a laboratory.
ghost use Rattle.std.specs.Prelude.{IfOk, OnErr};
ghost use Rattle.blob_header.specs.Refusals.{IsMemory};
ghost use Rattle.blob_lab_store.specs.LabRuns.{LeavesByCrash};

use crate::ScriptedRng;
use crate::lab::{Lab, Wrapper};
use blob_base::Error;

impl Lab {
    /// Returns the wrapper that a crash would leave if the generator gave these words, followed by zeros. The laboratory stays as
    /// it is, so every outcome of a crash can be tried without making the calls before it again.
    ///
    /// The only error is `Memory`.
    pub fn crashed(&self, words: Vec<u64>) -> Result<Wrapper, Error>
        ensures left { IfOk result (LeavesByCrash self.now words.items) }
        ensures memory { OnErr result (IsMemory result) }
    {
        let (left, _) = self.wrapper.crashed(ScriptedRng::new(words))?;
        Ok(left)
    }
}
