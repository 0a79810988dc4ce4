// What a blob's header says, without a session.
ghost use Rattle.std.specs.Prelude.{◌≡◌, ◌≢◌, ◌≤◌, ◌↔◌, IsTrue, false, IfSome, None, Ok};
ghost use Rattle.std.specs.Bool.{OnFalse, OnTrue};
ghost use Rattle.blob_header.specs.Header.{IsFrontOfCreation};
ghost use Rattle.blob_header.specs.Parse.{failure_of};
ghost use Rattle.blob_header.specs.Resolve.{OfBlobs};
ghost use Rattle.blob_sessions.specs.Headers.{CopiesRegion, HasFront, IsCreated, IsFrontOfBlob, ParsesHeader, ResolvesHeader, accepted_by, layout_numbered, no_header, refused_header};

use crate::parts::copied;
use crate::ran::{BAD_CALL, DONE, NO_MEMORY, Ran};
use blob_header::{BlobVersion, Error, Header, HeaderError, Layout};
use std::alloc::Global;

/// The first four bytes are no layout's magic.
pub const INVALID_MAGIC: u32 = 48;
/// The layout version isn't the one that goes with the magic.
pub const UNSUPPORTED_LAYOUT_VERSION: u32 = 49;
/// The layout isn't accepted.
pub const LAYOUT_MISMATCH: u32 = 50;
/// The version isn't accepted.
pub const VERSION_MISMATCH: u32 = 51;
/// Bytes 8 to 11 aren't the checksum of the eight before them.
pub const INVALID_CHECKSUM: u32 = 52;
/// A byte between the checksum and the data offset isn't zero.
pub const INVALID_PADDING: u32 = 53;
/// The blob ends before its header does.
pub const TRUNCATED: u32 = 54;
/// An open creates the blob again: it has fewer than 8 bytes, or what an interrupted creation left.
pub const TO_CREATE: u32 = 55;

/// Which layouts and versions are accepted, each from the first to the second. A layout is its number: 0 or 1.
#[repr(C)]
#[derive(Clone, Copy)]
pub struct Accepts {
    pub oldest: u16,
    pub newest: u16,
    pub least: u16,
    pub greatest: u16,
}

/// What a header says. Those that it doesn't say are 0.
#[repr(C)]
#[derive(Clone, Copy)]
pub struct ParsedHeader {
    /// `DONE`, why the header is refused, or `BAD_CALL`.
    pub status: u32,
    /// The blob's version. If the layout version, the layout or the version is refused, its number.
    pub version: u32,
    /// The size of the blob without its header, in bytes; with `TRUNCATED` the length that the header needs.
    pub size: u64,
    /// The offset of the blob's own bytes.
    pub data_offset: u64,
}

impl ParsedHeader {
    /// Without a header.
    pub fn stopped(status: u32) -> ParsedHeader
        ensures { result ≡ no_header status }
    {
        ParsedHeader {
            status,
            version: 0,
            size: 0,
            data_offset: 0,
        }
    }

    fn refused(error: &HeaderError) -> ParsedHeader
        ensures { result ≡ refused_header (failure_of error.now) }
    {
        let (status, version, size) = match error {
            HeaderError::InvalidMagic { .. } => (INVALID_MAGIC, 0, 0),
            HeaderError::UnsupportedLayoutVersion { found, .. } => {
                (UNSUPPORTED_LAYOUT_VERSION, *found, 0)
            }
            HeaderError::LayoutMismatch { found, .. } => {
                (LAYOUT_MISMATCH, found.layout_version(), 0)
            }
            HeaderError::VersionMismatch { found, .. } => (VERSION_MISMATCH, found.get(), 0),
            HeaderError::InvalidChecksum => (INVALID_CHECKSUM, 0, 0),
            HeaderError::InvalidPadding => (INVALID_PADDING, 0, 0),
            HeaderError::Truncated { required_len, .. } => (TRUNCATED, 0, *required_len),
        };
        ParsedHeader {
            status,
            version: version as u32,
            size,
            data_offset: 0,
        }
    }
}

/// Parses the header of a blob. `raw` is a prefix of the blob, of at least `min(raw_len, 4096)` bytes, and `raw_len` its whole
/// length in bytes.
///
/// `BAD_CALL` if a layout is unknown, `raw` has too few bytes or more than the blob, or the blob is shorter than any header.
pub fn parse(raw: &[u8], raw_len: u64, accepts: &Accepts) -> ParsedHeader
    ensures parsed { IsFrontOfBlob raw.now raw_len → ParsesHeader raw.now raw_len accepts.now result }
    ensures unknown { accepted_by accepts.now ≡ None → result ≡ no_header BAD_CALL }
    ensures no_front { (IsFrontOfBlob raw.now raw_len → ⊥) → result ≡ no_header BAD_CALL }
{
    let len = raw.len() as u64;
    if raw_len < 8 || len > raw_len || len < raw_len.min(4096) {
        return ParsedHeader::stopped(BAD_CALL);
    }
    let (Some(oldest), Some(newest)) = (layout(accepts.oldest), layout(accepts.newest)) else {
        return ParsedHeader::stopped(BAD_CALL);
    };
    let versions = BlobVersion::new(accepts.least)..=BlobVersion::new(accepts.greatest);
    match Header::parse(raw, raw_len, &(oldest..=newest), &versions) {
        Ok((size, version, data_offset)) => ParsedHeader {
            status: DONE,
            version: version.get() as u32,
            size,
            data_offset,
        },
        Err(error) => ParsedHeader::refused(&error),
    }
}

/// Resolves the header of a blob as an open does. `raw` is a prefix of the blob, of at least `min(raw_len, 4096)` bytes, and
/// `raw_len` its whole length in bytes.
///
/// `TO_CREATE` if an open creates the blob again; `BAD_CALL` if a layout is unknown, or `raw` has too few bytes or more than the
/// blob. Any other status but `DONE` is the first test that the header fails.
pub fn resolve(alloc: Global, raw: &[u8], raw_len: u64, accepts: &Accepts) -> ParsedHeader
    ensures resolved { HasFront raw.now raw_len → ResolvesHeader raw.now raw_len accepts.now result }
    ensures unknown { accepted_by accepts.now ≡ None → result ≡ no_header BAD_CALL }
    ensures no_front { (HasFront raw.now raw_len → ⊥) → result ≡ no_header BAD_CALL }
{
    let len = raw.len() as u64;
    if len > raw_len || len < raw_len.min(4096) {
        return ParsedHeader::stopped(BAD_CALL);
    }
    let (Some(_), Some(_)) = (layout(accepts.oldest), layout(accepts.newest)) else {
        return ParsedHeader::stopped(BAD_CALL);
    };
    if is_to_create(alloc, raw, raw_len) {
        return ParsedHeader::stopped(TO_CREATE);
    }
    parse(raw, raw_len, accepts)
}

/// Returns whether an open creates a blob again. `raw` is a prefix of the blob, and `raw_len` its length.
fn is_to_create(alloc: Global, raw: &[u8], raw_len: u64) -> bool
    requires { HasFront raw.now raw_len }
    ensures is { OnTrue result (OfBlobs raw.now raw_len (λ blob. IsCreated raw_len blob)) }
    ensures not { OnFalse result (OfBlobs raw.now raw_len (λ blob. ¬ (IsCreated raw_len blob))) }
    ensures whole { OnFalse result (8 ≤ raw_len) }
{
    if raw_len < 8 {
        return true;
    }
    let versions = BlobVersion::new(0)..=BlobVersion::new(u16::MAX);
    let layouts = Layout::all();
    let found = blob_header::resolve(alloc, raw, raw_len, &layouts, &versions, "", b"");
    is_none(&found)
}

/// Returns whether a resolution found that the blob must be created. An error, even `Memory`, means that it isn't.
fn is_none(found: &Result<Option<(u64, BlobVersion, u64)>, Error>) -> bool
    ensures is { OnTrue result (found.now ≡ Ok None) }
    ensures not { OnFalse result (found.now ≢ Ok None) }
{
    match found {
        Ok(None) => true,
        _ => false,
    }
}

/// Copies the header region of a new blob to the start of `into`: 8 bytes in layout 0, 4096 in layout 1.
///
/// `NO_ROOM` with the capacity that is needed; `BAD_CALL` if the layout is unknown; `NO_MEMORY`.
pub fn create(alloc: Global, number: u16, version: u16, into: &mut [u8]) -> Ran
    ensures { CopiesRegion number version result into.old into.new }
{
    let Some(layout) = layout(number) else {
        return Ran::stopped(BAD_CALL);
    };
    let version = BlobVersion::new(version);
    match Header::create(alloc, &(layout..=layout), &(version..=version)) {
        Ok((region, _)) => copied(&region, into),
        Err(_) => Ran::stopped(NO_MEMORY),
    }
}

/// Returns whether these raw bytes of a whole blob may be what an interrupted creation in this layout left. No bytes are if there
/// is no such layout.
pub fn is_interrupted_creation(number: u16, raw: &[u8]) -> bool
    ensures known { IfSome (layout_numbered number) (λ layout. IsTrue result ↔ IsFrontOfCreation layout raw.now) }
    ensures unknown { layout_numbered number ≡ None → result ≡ false }
{
    match layout(number) {
        Some(layout) => layout.interrupted_creation(raw),
        None => false,
    }
}

fn layout(number: u16) -> Option<Layout>
    ensures { result ≡ layout_numbered number }
{
    match number {
        0 => Some(Layout::V0),
        1 => Some(Layout::V1),
        _ => None,
    }
}
