//! Incarnations of the memory store.
use blob_base::Durable;
use blob_memory::{Origin, Storage as Memory};
use std::alloc::AllocError;

pub fn is_removed(store: &Memory, origin: &Origin) -> bool {
    store.is_removed(origin, "p", Some(b"b"))
}

pub fn number_of(origin: &Origin) -> u64 {
    Memory::number_of(origin)
}

pub fn current_number(store: &Memory) -> Option<u64> {
    store.current_number("p", b"b")
}

pub fn current_numbers(store: &Memory) -> Result<Vec<u64>, AllocError> {
    store.current_numbers("p")
}
