ghost use Rattle.std.specs.Prelude.{◌≡◌, ◌≤◌, ◌+◌, ◌++◌, [], length, IsTrue, ◌↔◌, IfOk, OnErr, vec_capacity};
ghost use Rattle.blob_header.specs.Refusals.{IsMemory};

use blob_header::error::Error;
use std::alloc::Global;
use std::marker::Model;

/// A buffer for a read: its bytes and its capacity.
#[derive(Debug, Drop)]
pub struct IoBufsMut {
    bytes: Vec<u8>,
}

impl Model for IoBufsMut {
    ghost use Rattle.std.specs.Prelude.{vec_capacity};
    ghost use Rattle.blob_base.specs.Buffers.{Buffer};

    ghost Value = { Buffer };

    ghost view = { λ b. record { bytes = b.bytes.items; capacity = vec_capacity b.bytes } };
}

impl IoBufsMut {
    /// Returns an empty buffer with at least this capacity in bytes. The only error is `Memory`.
    pub fn with_capacity(alloc: Global, capacity: usize) -> Result<IoBufsMut, Error>
        ensures empty { IfOk result (λ buf. buf.bytes ≡ []) }
        ensures room { IfOk result (λ buf. capacity ≤ buf.capacity) }
        ensures memory { OnErr result (IsMemory result) }
    {
        Ok(IoBufsMut {
            bytes: Vec::with_capacity(alloc, capacity)?,
        })
    }

    /// Returns the number of bytes.
    pub fn len(&self) -> usize
        ensures { result ≡ length self.now.bytes }
    {
        self.bytes.len()
    }

    /// Returns whether there are no bytes.
    pub fn is_empty(&self) -> bool
        ensures { IsTrue result ↔ (self.now.bytes ≡ []) }
    {
        self.bytes.is_empty()
    }

    /// Returns how many bytes fit without allocating.
    pub fn capacity(&self) -> usize
        ensures capacity { result ≡ self.now.capacity }
        ensures within { length self.now.bytes ≤ self.now.capacity }
    {
        self.bytes.capacity()
    }

    /// Replaces the bytes. Doesn't allocate: `bytes` must fit the capacity.
    pub fn set(&mut self, bytes: &[u8])
        requires { length bytes.now ≤ self.old.capacity }
        ensures bytes { self.new.bytes ≡ bytes.now }
        ensures room { self.old.capacity ≤ self.new.capacity }
    {
        self.bytes.clear();
        self.bytes.extend_from_slice(bytes).unwrap();
    }

    /// Appends bytes within the capacity. Doesn't allocate.
    pub fn put_slice(&mut self, bytes: &[u8])
        requires { length self.old.bytes + length bytes.now ≤ self.old.capacity }
        ensures bytes { self.new.bytes ≡ self.old.bytes ++ bytes.now }
        ensures room { self.old.capacity ≤ self.new.capacity }
    {
        self.bytes.extend_from_slice(bytes).unwrap();
    }

    /// Returns the bytes with their capacity.
    pub fn coalesce(self) -> Vec<u8>
        ensures bytes { result.items ≡ self.bytes }
        ensures room { vec_capacity result ≡ self.capacity }
    {
        self.bytes
    }
}
