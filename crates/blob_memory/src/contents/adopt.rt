// Incarnations that begin with the bytes of a file, and the end of all incarnations.
ghost use Rattle.std.specs.Prelude.{◌≡◌, ◌<◌, ◌-◌, ◌^◌, None};
ghost use Rattle.blob_memory.specs.Contents.{with_begun, directory_ended, directory_of, durable_adopted, durable_of, empty_directory, item_of, IsUnder, logical_from, IsFrom};
ghost use Rattle.blob_memory.specs.Listing.{listing_at};

use super::Contents;
use crate::item::{Held, Item};
use blob_base::{BlobVersion, Layout};
use blob_overlay::overlay::drop_front;
use blob_pages::Bytes;

/// Moves the logical bytes out of an item. Those of a raw file begin at `start`. Does not allocate.
fn into_logical(item: Item, start: usize) -> Bytes
    requires { IsFrom start item }
    ensures { result.items ≡ logical_from start item }
{
    match item {
        Item::Raw(bytes) => {
            let mut bytes = bytes;
            drop_front(&mut bytes, start);
            Bytes::from_vec(bytes)
        }
        Item::Held(held) => held.bytes,
    }
}

impl Contents {
    /// Begins an incarnation with the header and the bytes that a file has. Does not allocate.
    pub fn adopt(&mut self, partition: &str, name: &[u8], layout: Layout, version: BlobVersion)
        requires left { (directory_of self.old).next < 2 ^ 64 - 1 }
        requires under { IsUnder self.old layout version (item_of self.old partition.now name.now) }
        ensures directory { directory_of self.new ≡ with_begun self.old partition.now name.now layout version }
        ensures durable { durable_of self.new ≡ durable_adopted self.old partition.now name.now layout }
    {
        let mut item = Item::Raw(Vec::new(self.alloc));
        self.partitions.exchange(partition, name, &mut item);
        let number = self.next;
        let bytes = into_logical(item, layout.data_offset() as usize);
        let mut item = Item::Held(Held {
            number,
            layout,
            version,
            bytes,
        });
        self.partitions.exchange(partition, name, &mut item);
        self.next = number + 1;
    }

    /// Ends all incarnations. Each becomes a raw file of its header and its durable bytes. Does not allocate.
    pub fn end_all(&mut self)
        ensures directory { directory_of self.new ≡ directory_ended self.old }
        ensures durable { durable_of self.new ≡ (λ _. None) }
        ensures listing { listing_at self.new ≡ listing_at self.old }
    {
        self.first = self.next;
    }

    /// Moves the contents out. The rest is empty, with the same next number.
    pub fn take(&mut self) -> Contents
        ensures directory { directory_of result ≡ directory_of self.old }
        ensures durable { durable_of result ≡ durable_of self.old }
        ensures listing { listing_at result ≡ listing_at self.old }
        ensures left { directory_of self.new ≡ empty_directory (directory_of self.old).next }
        ensures none { durable_of self.new ≡ (λ _. None) }
    {
        let empty = Contents::new(self.alloc, self.next);
        std::mem::replace(self, empty)
    }
}
