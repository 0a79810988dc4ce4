// Copies of the bytes of a name's file.
ghost use Rattle.std.specs.Prelude.{◌≡◌, ◌≤◌, ℕ, List, None, Some, OnErr, IfOk, option_map, drop, length};
ghost use Rattle.std.specs.Option.{ForSome};
ghost use Rattle.blob_header.specs.Refusals.{IsMemory};
ghost use Rattle.blob_memory.specs.Contents.{items_of};
ghost use Rattle.blob_memory.specs.Listing.{raw_bytes, logical_found, raw_blob_in, logical_blob_in};

use super::Contents;
use crate::item::{Held, Item};
use blob_base::{BlobVersion, Error, Header, Layout, resolve};
use std::alloc::Global;

/// Returns the header of an incarnation and the bytes after it. Only `Memory` can be returned.
fn with_header(alloc: Global, held: &Held) -> Result<Vec<u8>, Error>
    ensures ok { IfOk result (λ raw. raw.items ≡ raw_bytes (Item.Held held.now)) }
    ensures memory { OnErr result (IsMemory result) }
{
    let layouts = held.layout..=held.layout;
    let versions = held.version..=held.version;
    let (mut raw, _) = Header::create(alloc, &layouts, &versions)?;
    held.bytes.append_to(&mut raw)?;
    Ok(raw)
}

/// Returns None if a header is invalid. Only `Memory` can be returned.
fn only_memory(error: Error) -> Result<Option<usize>, Error>
    ensures ok { IfOk result (λ offset. offset ≡ None) }
    ensures memory { OnErr result (IsMemory result) }
{
    match error {
        Error::Memory(error) => Err(Error::Memory(error)),
        _ => Ok(None),
    }
}

/// Returns the offset of the logical bytes in a raw file, if it has a header. Only `Memory` can be returned.
fn data_in(alloc: Global, raw: &[u8], partition: &str, name: &[u8]) -> Result<Option<usize>, Error>
    ensures ok { IfOk result (λ offset. option_map (λ n. drop n raw.now) offset ≡ logical_found raw.now) }
    ensures within { IfOk result (λ offset. ForSome offset (λ n. n ≤ length raw.now)) }
    ensures memory { OnErr result (IsMemory result) }
{
    let layouts = Layout::all();
    let versions = BlobVersion::new(0)..=BlobVersion::new(u16::MAX);
    let len = raw.len() as u64;
    match resolve(alloc, raw, len, &layouts, &versions, partition, name) {
        Ok(Some((_, _, offset))) => Ok(Some(offset as usize)),
        Ok(None) => Ok(None),
        Err(error) => only_memory(error),
    }
}

/// Returns the bytes after the header of a raw file, if it has one. Only `Memory` can be returned.
fn behind_header(
    alloc: Global,
    raw: &[u8],
    partition: &str,
    name: &[u8],
) -> Result<Option<Vec<u8>>, Error>
    ensures ok { IfOk result (λ bytes. items_of bytes ≡ logical_found raw.now) }
    ensures memory { OnErr result (IsMemory result) }
{
    let Some(start) = data_in(alloc, raw, partition, name)? else {
        return Ok(None);
    };
    let rest = &raw[start..];
    Ok(Some(Vec::from_slice(alloc, rest)?))
}

/// Returns the bytes after the header of an incarnation. Only `Memory` can be returned.
fn held_bytes(held: &Held) -> Result<Vec<u8>, Error>
    ensures ok { IfOk result (λ bytes. bytes.items ≡ held.now.bytes.items) }
    ensures found { IfOk result (λ bytes. Some held.now.bytes.items ≡ logical_found (raw_bytes (Item.Held held.now))) }
    ensures memory { OnErr result (IsMemory result) }
{
    let _number = held.version.get();
    Ok(held.bytes.to_vec()?)
}

impl Contents {
    /// Returns the raw bytes of a name's file with its header, or None without a file. Only `Memory` can be returned.
    pub fn raw(&self, partition: &str, name: &[u8]) -> Result<Option<Vec<u8>>, Error>
        ensures ok { IfOk result (λ raw. items_of raw ≡ raw_blob_in self.now partition.now name.now) }
        ensures memory { OnErr result (IsMemory result) }
    {
        match self.partitions.get(partition, name) {
            None => Ok(None),
            Some(Item::Raw(bytes)) => Ok(Some(Vec::from_slice(self.alloc, bytes)?)),
            Some(Item::Held(held)) => Ok(Some(with_header(self.alloc, held)?)),
        }
    }

    /// Returns the bytes after the header of a name's file. Returns None without a file, or if the file doesn't begin
    /// with a header of any layout and version. Only `Memory` can be returned.
    pub fn logical(&self, partition: &str, name: &[u8]) -> Result<Option<Vec<u8>>, Error>
        ensures ok { IfOk result (λ bytes. items_of bytes ≡ logical_blob_in self.now partition.now name.now) }
        ensures memory { OnErr result (IsMemory result) }
    {
        match self.partitions.get(partition, name) {
            None => Ok(None),
            Some(Item::Raw(bytes)) => behind_header(self.alloc, bytes, partition, name),
            Some(Item::Held(held)) => Ok(Some(held_bytes(held)?)),
        }
    }
}
