// The durable bytes of incarnations.
ghost use Rattle.std.specs.Prelude.{◌≡◌, option_copied};
ghost use Rattle.std.specs.Borrow.{sem};
ghost use Rattle.std.specs.Option.{option_copied_mut};
ghost use Rattle.blob_model.specs.Directory.{is_current};
ghost use Rattle.blob_memory.specs.Contents.{directory_of, vec_at};

use super::Contents;
use crate::item::Item;
use crate::origin::Origin;
use blob_pages::Bytes;

impl Contents {
    ghost use Rattle.blob_memory.specs.ContentsLends.{LendsDurable};

    /// Returns the durable logical bytes of an incarnation, if it is current.
    pub fn bytes(&self, origin: &Origin) -> Option<&Bytes>
        ensures { option_copied result ≡ vec_at self.now origin.now }
    {
        match self.partitions.get(&origin.partition, &origin.name) {
            Some(Item::Held(held)) => {
                if held.is_current(self.first, origin) {
                    Some(&held.bytes)
                } else {
                    None
                }
            }
            _ => None,
        }
    }

    /// Returns them for a change.
    pub fn bytes_mut(&mut self, origin: &Origin) -> Option<&mut Bytes>
        ensures* writes_back { sem 𝓛 (LendsDurable self.entry origin.now result) }
        ensures value { option_copied_mut result ≡ vec_at self.old origin.now }
    {
        let first = self.first;
        self.partitions.bytes_mut(first, origin)
    }

    /// Returns whether an incarnation is its name's current one.
    pub fn is_current(&self, origin: &Origin) -> bool
        ensures { result ≡ is_current (directory_of self.now) origin.now }
    {
        self.bytes(origin).is_some()
    }
}
