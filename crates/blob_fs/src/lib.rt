//! Files with names, directories, renames and their syncs over the fault wrapper.
#![tactic(auto)]

pub mod access;
pub mod answer;
mod base;
mod boxed_file;
pub mod call;
pub mod commit;
pub mod crash;
mod draws;
mod drops;
pub mod error;
pub mod file_system;
pub mod files;
mod flushes;
pub mod forks;
pub mod inspection;
pub mod laws;
pub mod names;
pub mod path;
pub mod paths;
mod places;
mod recovery;
pub mod renames;
pub mod reply;
pub mod run;
pub mod switches;
pub mod syncs;
mod truncate;
mod truncation;
mod truncations;
mod unlinked;
pub mod whole;
mod writes;
mod zeros;

pub use blob_directory::{
    Binding, Change, Edit, Keeps, Kind, Profile, Settles, edit, profile, table,
};
pub use call::Call;
pub use crash::{Crash, Place};
pub use error::FsError;
pub use file_system::{Descriptor, FileSystem, Options, ROOT};
pub use renames::Rename;
pub use reply::Reply;
pub use switches::{FailedSync, FailedWrite, Syncs};
pub use whole::TreeEntry;
