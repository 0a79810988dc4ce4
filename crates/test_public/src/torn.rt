//! Opening every prefix of an old layout's header, with any of its bytes lost.

use blob_base::{BlobVersion, Error, Storage};
use blob_memory::Storage as Memory;
use std::alloc::Global;
use std::process::Abort;
use std::test::Fail;

#[derive(Clone, Copy)]
enum Outcome {
    Created,
    Kept,
    Refused,
}

const BITS: [u8; 8] = [1, 2, 4, 8, 16, 32, 64, 128];

// Replaces some of eight bytes by zeros, selected by bits.
fn with_holes(whole: [u8; 8], lost: u8) -> [u8; 8] {
    let mut image = whole;
    for (byte, bit) in image.iter_mut().zip(BITS) {
        if lost & bit != 0 {
            *byte = 0;
        }
    }
    image
}

// An image is created again if it is shorter than a header, or if it is a prefix of all layouts' magics, followed by
// zeros.
fn outcome_of(image: &[u8], whole: [u8; 8]) -> Outcome {
    if image.len() < 8 {
        return Outcome::Created;
    }
    if image == whole.as_slice() {
        return Outcome::Kept;
    }
    let fronts: [[u8; 8]; 4] = [
        [0; 8],
        *b"C\0\0\0\0\0\0\0",
        *b"CW\0\0\0\0\0\0",
        *b"CWI\0\0\0\0\0",
    ];
    if fronts.iter().any(|front| image == front.as_slice()) {
        return Outcome::Created;
    }
    Outcome::Refused
}

// A header of the old layout, and the raw blob that a creation for its version writes.
#[derive(Drop)]
struct Whole {
    version: u16,
    bytes: [u8; 8],
    created: Vec<u8>,
}

// Returns the size of an open for one version, if it is accepted.
fn opened(store: &mut Memory, name: &[u8], version: u16) -> Option<u64> {
    let versions = BlobVersion::new(version)..=BlobVersion::new(version);
    match store.open_versioned("p", name, versions) {
        Ok((_blob, size, _version)) => Some(size),
        Err(_error) => None,
    }
}

// Opens a store's only blob. Returns whether the result is as expected.
fn opens_so(alloc: Global, image: &[u8], whole: &Whole) -> Result<bool, Error> {
    let mut store = Memory::new(alloc);
    store.set_raw_blob("p", b"b", Vec::from_slice(alloc, image)?)?;
    let size = opened(&mut store, b"b", whole.version);
    let found = store.raw_blob("p", b"b")?.unwrap_or(Vec::new(alloc));
    Ok(match outcome_of(image, whole.bytes) {
        Outcome::Created => size == Some(0) && found == whole.created,
        Outcome::Kept => size == Some(0) && found.as_slice() == image,
        Outcome::Refused => size.is_none() && found.as_slice() == image,
    })
}

fn expect(rt: &impl Abort, alloc: Global, image: &[u8], whole: &Whole) -> Result<(), Error> {
    assert!(rt; opens_so(alloc, image, whole)?, "{image:?}");
    Ok(())
}

// Tries each prefix once, with each of its bytes lost or not.
fn fronts_open_so(rt: &impl Abort, alloc: Global, whole: &Whole) -> Result<(), Error> {
    for lost in 0..=u8::MAX {
        let image = with_holes(whole.bytes, lost);
        for (len, bit) in BITS.iter().enumerate() {
            if lost < *bit {
                expect(rt, alloc, &image[..len], whole)?;
            }
        }
        expect(rt, alloc, &image, whole)?;
    }
    Ok(())
}

#[test]
fn what_is_left_of_an_old_header_opens_so(rt: HostRuntime) -> Result<(), Fail> {
    let rows: [(u16, [u8; 8]); 4] = [
        (0, *b"CWIC\x00\x00\x00\x00"),
        (3, *b"CWIC\x00\x00\x00\x03"),
        (0x0100, *b"CWIC\x00\x00\x01\x00"),
        (0xffff, *b"CWIC\x00\x00\xff\xff"),
    ];
    for (version, bytes) in rows {
        let mut store = Memory::new(rt.alloc());
        assert!(rt; opened(&mut store, b"new", version) == Some(0));
        let created = store.raw_blob("p", b"new")?;
        let created = created.unwrap_or(Vec::new(rt.alloc()));
        assert!(rt; created.len() == 4096);
        let whole = Whole {
            version,
            bytes,
            created,
        };
        fronts_open_so(&rt, rt.alloc(), &whole)?;
    }
    Ok(())
}
