//! The base of the crash-fault storage layer: errors, blob headers, buffers, rates, and the storage traits with their laws.
#![tactic(auto)]

pub mod any_store;
pub mod buffers;
pub mod buffers_mut;
pub mod handle;
pub mod laws;
pub mod options;
pub mod probability;
pub mod storage;
pub mod value_laws;

pub use blob_header::{
    BlobVersion, Crc32, DEFAULT_BLOB_LAYOUT, DEFAULT_BLOB_VERSION, Error, Header, HeaderError,
    Layout, RefusalLine, checksum, error, header, header_error, header_laws, layout,
    partition_name, refusal_line, resolution, resolve, validate_partition_name, version,
};
pub use blob_model::{SectorSize, sector_size};
pub use buffers::IoBufs;
pub use buffers_mut::IoBufsMut;
pub use handle::Handle;
pub use options::{ReadOptions, WriteOptions};
pub use probability::Probability;
pub use storage::{Blob, Durable, Storage};
