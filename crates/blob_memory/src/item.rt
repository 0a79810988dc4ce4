// The file of a name.
ghost use Rattle.std.specs.Prelude.{◌≡◌, Some};
ghost use Rattle.std.specs.Borrow.{sem};
ghost use Rattle.std.specs.Option.{option_copied_mut};
ghost use Rattle.blob_memory.specs.Contents.{is_current_of, vec_in};
ghost use Rattle.blob_memory.specs.ItemLends.{LendsBytes};

use crate::origin::Origin;
use blob_base::{BlobVersion, Layout};
use blob_pages::Bytes;
use std::alloc::AllocError;

/// A blob that an open has accepted. The layout and the version represent its header, so no write can change it.
#[derive(Drop)]
pub struct Held {
    /// The incarnation's number. No other incarnation of the store has it.
    pub number: u64,
    pub layout: Layout,
    pub version: BlobVersion,
    /// The durable bytes after the header.
    pub bytes: Bytes,
}

/// The file of a name.
#[derive(Drop)]
pub enum Item {
    /// Raw bytes with the header, which no open has accepted.
    Raw(Vec<u8>),
    Held(Held),
}

impl Clone for Item {
    ghost use Rattle.blob_memory.specs.Forks.{IsCopy};

    ghost is_clone = { IsCopy };

    /// Copies the item, and its bytes by `Bytes::copy`. The only error is out of memory.
    fn clone(&self) -> Result<Item, AllocError> {
        match self {
            Item::Raw(bytes) => Ok(Item::Raw(Vec::from_slice(*bytes.allocator(), bytes)?)),
            Item::Held(held) => Ok(Item::Held(Held {
                number: held.number,
                layout: held.layout,
                version: held.version,
                bytes: held.bytes.copy()?,
            })),
        }
    }
}

impl Held {
    /// Returns whether it is the current incarnation of an origin, if those with numbers below `first` have ended.
    pub fn is_current(&self, first: u64, origin: &Origin) -> bool
        ensures { result ≡ is_current_of first self.now origin.now.number origin.now.start }
    {
        first <= self.number
            && self.number == origin.generation
            && self.layout.data_offset() == origin.data_offset
    }
}

impl Item {
    /// Returns the logical bytes for a change, if it is the current incarnation of an origin.
    pub fn bytes_mut(&mut self, first: u64, origin: &Origin) -> Option<&mut Bytes>
        ensures* writes_back { sem 𝓛 (LendsBytes self.entry result) }
        ensures value { option_copied_mut result ≡ vec_in first (Some self.old) origin.now.number origin.now.start }
    {
        if let Item::Held(held) = self {
            if held.is_current(first, origin) {
                return Some(&mut held.bytes);
            }
        }
        None
    }
}
