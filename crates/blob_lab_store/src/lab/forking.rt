// A second laboratory in the same state.
ghost use Rattle.std.specs.Prelude.{◌≡◌, IfOk, OnErr};
ghost use Rattle.blob_header.specs.Refusals.{IsMemory};
ghost use Rattle.blob_lab_store.specs.Generators.{generator_of};
ghost use Rattle.blob_lab_store.specs.LabRuns.{IsFork};

use crate::lab::Lab;
use blob_base::Error;

impl Lab {
    /// Returns a second laboratory that represents every state that this one represents: the same files and pending writes,
    /// configuration and generator, and the same open names, handles and started syncs, by the same numbers. The same calls get
    /// the same replies in both, unless memory runs out, and no call in one changes the other. So a run can go on in several
    /// ways, and the calls before them are made once.
    ///
    /// A blob's pages that haven't changed since a sync are shared. Other bytes are copied, pending writes too. This laboratory
    /// stays as it is. `end` each of the two.
    ///
    /// The only error is `Memory`.
    pub fn fork(&self) -> Result<Lab, Error>
        ensures stands { IfOk result (IsFork self.now) }
        ensures generator { IfOk result (λ fork. generator_of fork ≡ generator_of self.now) }
        ensures memory { OnErr result (IsMemory result) }
    {
        let rng = self.wrapper.rng().copy()?;
        let wrapper = self.wrapper.fork(rng)?;
        let syncs = self.syncs.copy()?;
        let mut opens = self.opens.copy()?;
        let handles = self.handles.copy(&mut opens)?;
        Ok(Lab {
            wrapper,
            opens,
            handles,
            syncs,
            alloc: self.alloc,
        })
    }
}
