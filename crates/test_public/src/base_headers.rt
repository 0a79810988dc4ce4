//! Headers and checksums.
use blob_base::{
    BlobVersion, Crc32, DEFAULT_BLOB_LAYOUT, DEFAULT_BLOB_VERSION, Header, HeaderError, Layout,
};

#[test]
fn layouts(rt: HostRuntime) {
    assert!(rt; Layout::V0 < Layout::V1 && DEFAULT_BLOB_LAYOUT == Layout::V1);
    assert!(rt; Layout::all() == (Layout::V0..=Layout::V1));
}

#[test]
fn numbers_of_layouts(rt: HostRuntime) {
    assert!(rt; Layout::V1.layout_version() == 1 && Layout::V0.data_offset() == 8);
    assert!(rt; Layout::V0.magic() == *b"CWIC");
    assert!(rt; BlobVersion::new(7).get() == 7 && DEFAULT_BLOB_VERSION.get() == 0);
}

#[test]
fn sizes(rt: HostRuntime) {
    assert!(rt; Header::PRELUDE_SIZE == 8 && Header::EXTENSION_SIZE == 4);
    assert!(rt; Header::PARSE_LEN == 12 && Header::MAGIC_LENGTH == 4);
}

#[test]
fn a_checksum_of_parts(rt: HostRuntime) {
    let mut parts = Crc32::new();
    parts.update(b"1234");
    parts.update(b"56789");
    assert!(rt; parts.finalize() == 0xe3069283);
}

/// Every error of a header by its name and fields.
pub fn number(error: &HeaderError) -> u64 {
    match error {
        HeaderError::InvalidMagic { found: _ } => 0,
        HeaderError::UnsupportedLayoutVersion {
            expected: _,
            found: _,
        } => 1,
        HeaderError::InvalidChecksum => 2,
        HeaderError::InvalidPadding => 3,
        HeaderError::Truncated {
            required_len: _,
            raw_len,
        } => *raw_len,
        HeaderError::LayoutMismatch {
            expected: _,
            found: _,
        } => 5,
        HeaderError::VersionMismatch {
            expected: _,
            found: _,
        } => 6,
    }
}
