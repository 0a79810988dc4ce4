//! `admit`, which retires the pending list of a name.
ghost use Rattle.blob_faulty.specs.Admitted.{Admits};

use crate::retired::Retired;
use crate::storage::Storage;

impl<R> Storage<blob_memory::Storage, R> {
    /// Retires the pending list of the name's current incarnation: a crash then leaves its durable bytes as they are.
    /// Call it after an open if the durable bytes must survive a crash. Lists of ended incarnations stay, and change no
    /// byte. An unknown name changes nothing.
    ///
    /// Can't fail. Makes no draw and allocates nothing.
    pub fn admit(&mut self, partition: &str, name: &[u8]) -> Retired
        ensures { Admits self.old self.new partition.now name.now }
    {
        self.lists.retire_name(&self.inner, partition, name);
        Retired { _private: () }
    }
}
