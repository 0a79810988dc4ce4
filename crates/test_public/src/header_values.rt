//! The region of a header, and the resolution of a blob.

use blob_header::{BlobVersion, Error, Header, Layout, resolve};
use std::alloc::Global;
use std::ops::RangeInclusive;
use std::process::Abort;

fn versions(first: u16, last: u16) -> RangeInclusive<BlobVersion> {
    BlobVersion::new(first)..=BlobVersion::new(last)
}

/// Returns the resolution of a whole blob as a text, with the reason if it is corrupt.
pub(crate) fn told(alloc: Global, blob: &[u8]) -> Result<String, Error> {
    let raw_len = blob.len() as u64;
    let found = resolve(
        alloc,
        blob,
        raw_len,
        &Layout::all(),
        &versions(0, u16::MAX),
        "image",
        b"blob",
    );
    match found {
        Ok(None) => Ok(String::from_str(alloc, "create")?),
        Ok(Some((size, version, offset))) => {
            let number = version.get();
            Ok(format!(in alloc; "valid {size} {number} {offset}")?)
        }
        Err(Error::BlobCorrupt(_, _, reason)) => Ok(reason),
        Err(error) => Err(error),
    }
}

/// Returns the V1 region of this version.
pub(crate) fn region_of(
    rt: &impl Abort,
    alloc: Global,
    version: BlobVersion,
) -> Result<[u8; 4096], Error> {
    let (bytes, _) = Header::create(alloc, &(Layout::V1..=Layout::V1), &(version..=version))?;
    assert!(rt; bytes.len() == 4096);
    let mut region = [0; 4096];
    region.copy_from_slice(bytes.as_slice());
    Ok(region)
}
