// The checksum of all blobs, fed piece by piece.
ghost use Rattle.std.specs.Prelude.{◌≡◌};
ghost use Rattle.blob_memory.specs.Audit.{piece_of, pieces_of, audit, IsListing};
ghost use Rattle.blob_header.specs.Checksum.{crc32c};
ghost use Rattle.blob_header.specs.Header.{region};
ghost use Rattle.blob_memory.specs.Feeds.{Feeds};
ghost use Rattle.blob_memory.specs.Listing.{raw_bytes, listed_of, raw_in, listing_in, listing_all, AreOrdered, AreOrderedNames, AreAllOrdered};

use crate::item::Item;
use blob_base::{BlobVersion, Crc32, Header, Layout};
use blob_pages::Bytes;
use std::collections::BTreeMap;

/// Feeds a header.
fn feed_header(crc: &mut Crc32, layout: Layout, version: BlobVersion)
    ensures { Feeds crc.old crc.new (region layout version.0) }
{
    let header = Header {
        magic: layout.magic(),
        layout_version: layout.layout_version(),
        blob_version: version,
    };
    let prelude = header.encode();
    crc.update(&prelude);
    match layout {
        Layout::V0 => {}
        Layout::V1 => {
            crc.update(&Crc32::checksum(&prelude).to_be_bytes());
            crc.update(&[0; 4084]);
        }
    }
}

/// Feeds the bytes of a blob.
fn feed_bytes(crc: &mut Crc32, bytes: &Bytes)
    ensures { Feeds crc.old crc.new bytes.now.items }
{
    let len = bytes.len();
    let mut done = 0;
    while done < len {
        let part = bytes.part(done, len - done);
        crc.update(part);
        done += part.len();
    }
}

/// Feeds the raw bytes of a file.
fn feed_item(crc: &mut Crc32, item: &Item)
    ensures { Feeds crc.old crc.new (raw_bytes item.now) }
{
    match item {
        Item::Raw(bytes) => crc.update(bytes),
        Item::Held(held) => {
            feed_header(crc, held.layout, held.version);
            feed_bytes(crc, &held.bytes);
        }
    }
}

/// Feeds the partition, the name and the raw bytes of a blob.
fn feed_blob(crc: &mut Crc32, partition: &str, name: &[u8], item: &Item)
    ensures { Feeds crc.old crc.new (piece_of (listed_of partition.now name.now item.now)) }
{
    crc.update(b"partition");
    crc.update(partition.as_bytes());
    crc.update(b"blob");
    crc.update(name);
    crc.update(b"content");
    feed_item(crc, item);
}

/// Feeds the blobs of a partition.
fn feed_names(crc: &mut Crc32, partition: &str, names: &BTreeMap<Vec<u8>, Item>)
    ensures fed { Feeds crc.old crc.new (pieces_of (listing_in partition.now names.now.entries)) }
    ensures ordered { AreOrderedNames names.now }
{
    for (name, item) in names.iter() {
        feed_blob(crc, partition, name, item);
    }
}

/// Feeds the blobs of all partitions.
fn feed_partitions(crc: &mut Crc32, partitions: &BTreeMap<String, BTreeMap<Vec<u8>, Item>>)
    ensures fed { Feeds crc.old crc.new (pieces_of (listing_all partitions.now.entries)) }
    ensures ordered { AreOrdered partitions.now }
    ensures all_ordered { AreAllOrdered partitions.now.entries }
{
    for (partition, names) in partitions.iter() {
        feed_names(crc, partition, names);
    }
}

/// Returns the checksum of all blobs.
pub fn audit(partitions: &BTreeMap<String, BTreeMap<Vec<u8>, Item>>) -> [u8; 4]
    ensures audit { result ≡ audit crc32c (listing_all partitions.now.entries) }
    ensures listing { IsListing (raw_in partitions.now) (listing_all partitions.now.entries) }
{
    let mut crc = Crc32::new();
    crc.update(b"commonware-runtime-storage-audit-v1");
    feed_partitions(&mut crc, partitions);
    crc.finalize().to_be_bytes()
}
