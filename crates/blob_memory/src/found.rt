// What an open finds of a name's file.
ghost use Rattle.std.specs.Prelude.{◌≡◌, ◌≤◌, ◌<◌, ◌^◌, [], None, Some, true, false, IfOk, IfErr, OnErr, length};
ghost use Rattle.std.specs.Range.{range_inclusive_end};
ghost use Rattle.blob_header.specs.Header.{data_start};
ghost use Rattle.blob_model.specs.Opening.{layout_from};
ghost use Rattle.blob_header.specs.Refusals.{IsMemory};
ghost use Rattle.blob_header.specs.Versions.{is_in_range, lower, upper};

use crate::item::Held;
use blob_base::header_laws::resolved_has_header;
use blob_base::{BlobVersion, DEFAULT_BLOB_LAYOUT, Error, Layout, resolve};
use blob_pages::Bytes;
use std::alloc::Global;
use std::ops::RangeInclusive;

/// A header, and a copy of the logical bytes after it.
#[derive(Drop)]
pub struct Found {
    /// The number of the current incarnation, or None if a new one must begin.
    pub number: Option<u64>,
    /// Whether the header and the bytes come from a file.
    pub is_file: bool,
    pub layout: Layout,
    pub version: BlobVersion,
    pub live: Bytes,
}

/// Returns what an open finds of a blob that it must create: a V1 header of the greatest version, and no bytes.
pub fn nothing(alloc: Global, versions: &RangeInclusive<BlobVersion>) -> Found
    ensures number { result.number ≡ None }
    ensures file { result.is_file ≡ false }
    ensures layout { result.layout ≡ Layout.V1 }
    ensures version { result.version ≡ range_inclusive_end versions.now }
    ensures live { result.live.items ≡ [] }
{
    Found {
        number: None,
        is_file: false,
        layout: DEFAULT_BLOB_LAYOUT,
        version: *versions.end(),
        live: Bytes::new(alloc),
    }
}

// Returns whether a version is in the range. A range that was iterated to its end still has its bounds.
fn has_version(versions: &RangeInclusive<BlobVersion>, version: BlobVersion) -> bool
    ensures fits { version.0 < 2 ^ 16 }
    ensures within { result ≡ is_in_range (lower versions.now) (upper versions.now) version.0 }
{
    let number = version.get();
    versions.start().get() <= number && number <= versions.end().get()
}

/// Returns the layout with this data offset.
fn layout_at(offset: u64) -> Layout
    ensures { result ≡ layout_from offset }
{
    if offset == Layout::V0.data_offset() {
        Layout::V0
    } else {
        Layout::V1
    }
}

impl Held {
    ghost use Rattle.blob_memory.specs.Found.{opening_of, DeclinesHeld, FindsHeld};

    /// Returns what an open finds of an incarnation, current or ended. Its header is known, so none is parsed. The
    /// error is `BlobVersionMismatch` or `Memory`.
    pub fn found(
        &self,
        is_ended: bool,
        versions: &RangeInclusive<BlobVersion>,
    ) -> Result<Found, Error>
        ensures opening { IfOk result (λ found. FindsHeld is_ended self.now versions.now (opening_of found)) }
        ensures ended { IfOk result (λ found. is_ended ≡ true → found.number ≡ None) }
        ensures current { IfOk result (λ found. is_ended ≡ false → found.number ≡ Some self.now.number) }
        ensures file { IfOk result (λ found. found.is_file ≡ true) }
        ensures layout { IfOk result (λ found. found.layout ≡ self.now.layout) }
        ensures version { IfOk result (λ found. found.version ≡ self.now.version) }
        ensures live { IfOk result (λ found. found.live.items ≡ self.now.bytes.items) }
        ensures err { IfErr result (DeclinesHeld is_ended self.now versions.now) }
    {
        if !has_version(versions, self.version) {
            return Err(Error::BlobVersionMismatch {
                expected: *versions.start()..=*versions.end(),
                found: self.version,
            });
        }
        Ok(Found {
            number: (!is_ended).then_some(self.number),
            is_file: true,
            layout: self.layout,
            version: self.version,
            live: self.bytes.copy()?,
        })
    }
}

ghost use Rattle.blob_memory.specs.Found.{opening_of, begins_at, raw_opening, IsDeclined, IsFoundRaw};

/// Returns what an open finds of a raw file with a header of this version and data offset. Only `Memory` can be
/// returned.
fn found_behind(
    alloc: Global,
    raw: &[u8],
    version: BlobVersion,
    offset: u64,
) -> Result<Found, Error>
    requires within { offset ≤ length raw.now }
    requires start { data_start (layout_from offset) ≡ offset }
    ensures opening { IfOk result (λ found. opening_of found ≡ begins_at offset version raw.now) }
    ensures found { IfOk result (λ found. IsFoundRaw found.number found.is_file found.layout found.live.items raw.now) }
    ensures err { OnErr result (IsMemory result) }
{
    let bytes = &raw[offset as usize..];
    let live = Bytes::from_slice(alloc, bytes)?;
    Ok(Found {
        number: None,
        is_file: true,
        layout: layout_at(offset),
        version,
        live,
    })
}

/// Returns what an open finds of a raw file. The error is that of the open, or `Memory`.
pub fn found_raw(
    alloc: Global,
    raw: &[u8],
    versions: &RangeInclusive<BlobVersion>,
    partition: &str,
    name: &[u8],
) -> Result<Found, Error>
    ensures opening { IfOk result (λ found. raw_opening partition.now name.now raw.now versions.now ≡ opening_of found) }
    ensures found { IfOk result (λ found. IsFoundRaw found.number found.is_file found.layout found.live.items raw.now) }
    ensures err { IfErr result (IsDeclined (raw_opening partition.now name.now raw.now versions.now)) }
{
    resolved_has_header();
    let len = raw.len() as u64;
    let layouts = Layout::all();
    let Some((_, version, offset)) = resolve(alloc, raw, len, &layouts, versions, partition, name)?
    else {
        return Ok(nothing(alloc, versions));
    };
    found_behind(alloc, raw, version, offset)
}
