//! The bytes of a blob.
ghost use Rattle.std.specs.Prelude.{◌≡◌, ◌≤◌, ◌<◌, ◌+◌, ◌++◌, [], length, take, drop, IfOk, OnOk, vec_capacity};
ghost use Rattle.blob_pages.specs.Paged.{splice};

use crate::form::Form;
use std::alloc::{AllocError, Global};
use std::marker::Model;

/// The bytes of a blob. Contracts see them as a list with a capacity. Copies share their pages until one of them
/// writes.
#[derive(Drop)]
pub struct Bytes {
    pub(crate) form: Form,
}

impl Model for Bytes {
    ghost use Rattle.blob_pages.specs.Stored.{Stored};

    ghost Value = { Stored };

    ghost use Rattle.blob_pages.specs.Forms.{content, capacity};

    ghost view = { λ b. record { items = content b.form; capacity = capacity b.form } };
}

/// Copies a run into a buffer at `at`.
fn copy_part(buf: &mut [u8], at: usize, run: &[u8])
    requires { at + length run.now ≤ length buf.old }
    ensures { buf.new ≡ splice buf.old at run.now }
{
    let end = at + run.len();
    buf[at..end].copy_from_slice(run);
}

impl Bytes {
    /// Makes an empty value.
    pub fn new(alloc: Global) -> Bytes
        ensures { result.items ≡ [] }
    {
        Bytes::from_vec(Vec::new(alloc))
    }

    /// Takes the bytes of a vector, with its capacity. Does not allocate.
    pub fn from_vec(bytes: Vec<u8>) -> Bytes
        ensures items { result.items ≡ bytes.items }
        ensures capacity { result.capacity ≡ vec_capacity bytes }
    {
        Bytes {
            form: Form::Flat(bytes),
        }
    }

    /// Copies these bytes. The only error is out of memory.
    pub fn from_slice(alloc: Global, bytes: &[u8]) -> Result<Bytes, AllocError>
        ensures { IfOk result (λ made. made.items ≡ bytes.now) }
    {
        Ok(Bytes {
            form: Form::from_slice(alloc, bytes)?,
        })
    }

    /// Returns the allocator.
    pub fn allocator(&self) -> Global {
        self.form.alloc()
    }

    /// Returns the number of bytes. It is at most the capacity.
    pub fn len(&self) -> usize
        ensures len { result ≡ length self.now.items }
        ensures within { result ≤ self.now.capacity }
    {
        self.form.len()
    }

    /// Returns contiguous bytes from `at` on, at least one and at most `len`.
    pub fn part(&self, at: usize, len: usize) -> &[u8]
        requires some { 0 < len }
        requires within { at + len ≤ length self.now.items }
        ensures some { 0 < length result.now }
        ensures within { length result.now ≤ len }
        ensures part { result.now ≡ take (length result.now) (drop at self.now.items) }
    {
        self.form.part(at, len)
    }

    /// Fills `out` with the bytes from `at` on.
    pub fn read(&self, at: usize, out: &mut [u8])
        requires { at + length out.old ≤ length self.now.items }
        ensures { out.new ≡ take (length out.old) (drop at self.now.items) }
    {
        let _there = self.len();
        let len = out.len();
        let mut done = 0;
        while done < len {
            let part = self.part(at + done, len - done);
            copy_part(out, done, part);
            done += part.len();
        }
    }

    /// Appends all bytes to a vector. The only error is out of memory. The vector may have a part of them then.
    pub fn append_to(&self, out: &mut Vec<u8>) -> Result<(), AllocError>
        ensures { OnOk result (out.new.items ≡ out.old.items ++ self.now.items) }
    {
        let len = self.len();
        out.reserve(len)?;
        let mut done = 0;
        while done < len {
            let part = self.part(done, len - done);
            out.extend_from_slice(part)?;
            done += part.len();
        }
        Ok(())
    }

    /// Copies the bytes into a vector. The only error is out of memory.
    pub fn to_vec(&self) -> Result<Vec<u8>, AllocError>
        ensures { IfOk result (λ made. made.items ≡ self.now.items) }
    {
        let mut made = Vec::new(self.allocator());
        self.append_to(&mut made)?;
        Ok(made)
    }

    /// Copies the bytes. The copy shares every page that is shared already. The only error is out of memory.
    pub fn copy(&self) -> Result<Bytes, AllocError>
        ensures { IfOk result (λ copy. copy.items ≡ self.now.items) }
    {
        Ok(Bytes {
            form: self.form.copy()?,
        })
    }
}
