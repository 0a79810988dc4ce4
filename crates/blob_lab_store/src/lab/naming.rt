// Calls by name, except opens.
ghost use Rattle.std.specs.Prelude.{option_copied};
ghost use Rattle.blob_script.specs.Acts.{Admit, Remove, Scan};
ghost use Rattle.blob_lab_store.specs.LabStands.{Performs};

use crate::ScriptedRng;
use crate::lab::Lab;
use blob_base::Storage;
use blob_faulty::laws::names::removals;
use blob_script::Reply;

impl Lab {
    /// Retires the pending list of the name's current incarnation: `Call::Admit` without a copy of its texts. Returns `Done`.
    pub fn admit(&mut self, partition: &str, name: &[u8]) -> Reply
        ensures { Performs self.old (Admit partition.now name.now) result self.new }
    {
        let _ = self.wrapper.admit(partition, name);
        Reply::Done
    }

    /// Removes a blob, or with no name the partition: `Call::Remove` without a copy of its texts. Returns `Done`, and none of
    /// these names is open then, or `Failed`.
    #[inline(never)]
    pub fn remove(&mut self, partition: &str, name: Option<&[u8]>) -> Reply
        ensures { Performs self.old (Remove partition.now (option_copied name.entry)) result self.new }
    {
        removals::<blob_memory::Storage, ScriptedRng>();
        match self.opens.remove(&mut self.wrapper, partition, name) {
            Ok(()) => Reply::Done,
            Err(e) => Reply::Failed(e),
        }
    }

    /// Returns the names of a partition, sorted by bytes: `Call::Scan` without a copy of its text. Returns `Names` or `Failed`.
    #[inline(never)]
    pub fn scan(&mut self, partition: &str) -> Reply
        ensures { Performs self.old (Scan partition.now) result self.new }
    {
        match self.wrapper.scan(partition) {
            Ok(names) => Reply::Names(names),
            Err(e) => Reply::Failed(e),
        }
    }
}
