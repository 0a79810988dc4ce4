//! Laws of every store. A law is an empty function; its contract is the law.

pub mod opens;

pub use blob_model::laws::{checksums, draws, files, overlays, pending, persistence};
