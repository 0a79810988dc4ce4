//! The bytes of a blob, in pages that copies share. A sync counts groups of pages and copies no page. A write copies each
//! shared page that it changes, and the references of its group if the group is shared too.
#![tactic(auto)]

mod blank;
pub mod bytes;
mod form;
mod group;
pub mod overlay;
mod page;
mod page_list;
mod page_writes;
pub mod pages;
mod table;

pub use bytes::Bytes;
