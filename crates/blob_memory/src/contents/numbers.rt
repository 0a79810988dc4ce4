// The numbers of current incarnations.
ghost use Rattle.std.specs.Prelude.{◌≡◌, IfOk, option_map};
ghost use Rattle.blob_base.specs.Names.{HasNumbers};
ghost use Rattle.blob_model.specs.Directory.{current};
ghost use Rattle.blob_memory.specs.Contents.{directory_of};

use super::Contents;
use crate::item::Item;
use std::alloc::AllocError;

impl Contents {
    /// Returns the number of the name's current incarnation, if it has one.
    pub fn current_number(&self, partition: &str, name: &[u8]) -> Option<u64>
        ensures { result ≡ option_map (λ o. o.number) (current (directory_of self.now) partition.now name.now) }
    {
        match self.partitions.get(partition, name) {
            Some(Item::Held(held)) => {
                if held.number < self.first {
                    None
                } else {
                    Some(held.number)
                }
            }
            _ => None,
        }
    }

    /// Returns the numbers of the partition's incarnations, current or ended. The only error is out of memory.
    pub fn current_numbers(&self, partition: &str) -> Result<Vec<u64>, AllocError>
        ensures { IfOk result (λ numbers. HasNumbers (directory_of self.now) partition.now numbers.items) }
    {
        self.partitions.numbers(partition)
    }
}
