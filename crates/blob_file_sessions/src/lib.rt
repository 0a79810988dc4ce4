//! Files for a program in another language: a file system that is begun by a preamble, and its calls by numbers and bytes. `blob_c`
//! exports these to C.
#![tactic(auto)]

mod by_kind;
pub mod call;
mod copies;
pub mod effects;
pub mod files;
mod forks;
pub mod kept;
pub mod kinds;
pub mod line_text;
mod loose;
pub mod names;
pub mod parts;
pub mod path_text;
pub mod preamble;
pub mod reader;
pub mod refusals;
pub mod setting;
pub mod supply;
pub mod tree;

pub use blob_fs::Reply;
pub use call::{FileCall, FileReply};
pub use files::Files;
pub use kept::KeptFiles;
pub use reader::FileReader;
pub use setting::FileSetting;
