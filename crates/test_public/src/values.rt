//! Options, handles of started syncs, and read buffers.

use blob_base::{Error, Handle, IoBufsMut, ReadOptions, WriteOptions};
use std::test::Fail;

#[test]
fn options_are_sets(rt: HostRuntime) {
    let none = WriteOptions::default();
    let sync = none.union(WriteOptions::SYNC);
    assert!(rt; sync == WriteOptions::SYNC && sync.without(WriteOptions::SYNC) == none);
    assert!(rt; sync.contains(WriteOptions::SYNC) && !none.contains(WriteOptions::SYNC));
    assert!(rt; ReadOptions::default() == ReadOptions {});
}

#[test]
fn handles_carry_outcome_and_marker(rt: HostRuntime) {
    let ready = Handle::ready(Err(Error::Closed));
    assert!(rt; matches!(ready.outcome(), Err(Error::Closed)) && ready.marker().is_none());
    assert!(rt; matches!(&ready.into_outcome(), Err(Error::Closed)));
    let marked = Handle::marked(7);
    assert!(rt; marked.marker() == Some(7) && marked.into_outcome().is_ok());
}

#[test]
fn bytes_are_replaced(rt: HostRuntime) -> Result<(), Fail> {
    let mut buf = IoBufsMut::with_capacity(rt.alloc(), 4)?;
    assert!(rt; buf.is_empty() && buf.capacity() >= 4);
    buf.set(b"abcd");
    buf.set(b"ef");
    assert!(rt; buf.len() == 2 && buf.coalesce().as_slice() == b"ef".as_slice());
    Ok(())
}
