//! Calls on headers, without a session.
ghost use Rattle.std.specs.Prelude.{◌≡◌, ◌↔◌, None, IfSome, IsTrue, false};
ghost use Rattle.blob_header.specs.Header.{IsFrontOfCreation};
ghost use Rattle.blob_sessions.specs.Headers.{CopiesRegion, HasFront, IsFrontOfBlob, ParsesHeader, ResolvesHeader, accepted_by, layout_numbered, no_header};

use blob_sessions::ran::BAD_CALL;
use blob_sessions::{Accepts, ParsedHeader, Ran, headers};
use std::alloc::Global;

/// Parses the header of a blob, without a session. `raw` is a prefix of the blob, of at least `min(raw_len, 4096)` bytes, and
/// `raw_len` its whole length in bytes.
///
/// `BAD_CALL` if a layout is unknown, `raw` has too few bytes or more than the blob, or the blob is shorter than any header. Any
/// other status but `DONE` is the first test that the header fails.
#[unsafe(no_mangle)]
pub extern "C" fn blobcrash_parse_header(
    raw: &[u8],
    raw_len: u64,
    accepts: &Accepts,
) -> ParsedHeader
    ensures parsed { IsFrontOfBlob raw.now raw_len → ParsesHeader raw.now raw_len accepts.now result }
    ensures unknown { accepted_by accepts.now ≡ None → result ≡ no_header BAD_CALL }
    ensures no_front { (IsFrontOfBlob raw.now raw_len → ⊥) → result ≡ no_header BAD_CALL }
{
    headers::parse(raw, raw_len, accepts)
}

/// Resolves the header of a blob as an open does, without a session. `raw` is a prefix of the blob, of at least
/// `min(raw_len, 4096)` bytes, and `raw_len` its whole length in bytes.
///
/// `TO_CREATE` if an open creates the blob again; `BAD_CALL` if a layout is unknown, or `raw` has too few bytes or more than the
/// blob. Any other status but `DONE` is the first test that the header fails.
#[unsafe(no_mangle)]
pub extern "C" fn blobcrash_resolve_header(
    alloc: Global,
    raw: &[u8],
    raw_len: u64,
    accepts: &Accepts,
) -> ParsedHeader
    ensures resolved { HasFront raw.now raw_len → ResolvesHeader raw.now raw_len accepts.now result }
    ensures unknown { accepted_by accepts.now ≡ None → result ≡ no_header BAD_CALL }
    ensures no_front { (HasFront raw.now raw_len → ⊥) → result ≡ no_header BAD_CALL }
{
    headers::resolve(alloc, raw, raw_len, accepts)
}

/// Copies the header region of a new blob to the start of `into`, without a session: 8 bytes in layout 0, 4096 in layout 1.
///
/// `NO_ROOM` with the capacity that is needed; `BAD_CALL` if the layout is unknown; `NO_MEMORY`.
#[unsafe(no_mangle)]
pub extern "C" fn blobcrash_create_header(
    alloc: Global,
    layout: u16,
    version: u16,
    into: &mut [u8],
) -> Ran
    ensures { CopiesRegion layout version result into.old into.new }
{
    headers::create(alloc, layout, version, into)
}

/// Returns whether these raw bytes of a whole blob may be what an interrupted creation in this layout left. No bytes are if there
/// is no such layout.
#[unsafe(no_mangle)]
pub extern "C" fn blobcrash_interrupted_creation(layout: u16, raw: &[u8]) -> bool
    ensures known { IfSome (layout_numbered layout) (λ layout. IsTrue result ↔ IsFrontOfCreation layout raw.now) }
    ensures unknown { layout_numbered layout ≡ None → result ≡ false }
{
    headers::is_interrupted_creation(layout, raw)
}
