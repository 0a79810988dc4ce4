//! Names, and paths of them.
use crate::error::FsError;
pub use blob_directory::path::{NAME_MAX, first_name};

/// Refuses what can't be a name.
///
/// # Errors
///
/// `InvalidName` if the name is empty, `.` or `..`, or has a zero or a slash; `NameTooLong` above 255 bytes.
pub fn check_name(name: &[u8]) -> Result<(), FsError> {
    if name.is_empty() || name == b".".as_slice() || name == b"..".as_slice() {
        return Err(FsError::InvalidName);
    }
    if name.contains(&0) || name.contains(&b'/') {
        return Err(FsError::InvalidName);
    }
    if name.len() > NAME_MAX {
        return Err(FsError::NameTooLong);
    }
    Ok(())
}
