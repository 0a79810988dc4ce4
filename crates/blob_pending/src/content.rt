//! The bytes of a pending write.
ghost use Rattle.std.specs.Prelude.{◌≡◌, ◌≤◌, ◌+◌, false, length, take, drop, IfOk};
ghost use Rattle.std.specs.Bool.{OnFalse};
ghost use Rattle.blob_pending.specs.Contents.{are_zeros, zeros_in, HasZeros};

use std::alloc::{AllocError, Global};
use std::marker::Model;

/// The bytes of a pending write. Contracts see them as a list. Of zeros only the number is held: a file system may write zeros first
/// wherever a file grows.
#[derive(Drop)]
pub struct Content {
    /// The bytes, or none if all are zeros.
    held: Vec<u8>,
    /// How many bytes there are, so that asking for it takes no branch.
    len: usize,
}

impl Model for Content {
    ghost use Rattle.std.specs.Prelude.{ℕ, List};

    ghost Value = { List ℕ };

    ghost use Rattle.blob_pending.specs.Contents.{bytes_of, IsShort};

    ghost view = { λ c. bytes_of c.held.items c.len };

    ghost invariant = { λ c. IsShort c.held.items c.len };
}

/// Returns whether the eight bytes from an index on are zeros.
#[inline(always)]
fn has_8_zeros(bytes: &[u8], at: usize) -> bool
    requires { at + 8 ≤ length bytes.now }
    ensures { result ≡ are_zeros (take 8 (drop at bytes.now)) }
{
    let word = u64::from_le_bytes([
        bytes[at],
        bytes[at + 1],
        bytes[at + 2],
        bytes[at + 3],
        bytes[at + 4],
        bytes[at + 5],
        bytes[at + 6],
        bytes[at + 7],
    ]);
    word == 0
}

/// Returns whether the 32 bytes from an index on are zeros. It reads all of them, since a test of each word would take longer.
#[inline(always)]
fn has_32_zeros(bytes: &[u8], at: usize) -> bool
    requires { at + 32 ≤ length bytes.now }
    ensures { result ≡ are_zeros (take 32 (drop at bytes.now)) }
{
    let first = has_8_zeros(bytes, at) & has_8_zeros(bytes, at + 8);
    let second = has_8_zeros(bytes, at + 16) & has_8_zeros(bytes, at + 24);
    first & second
}

/// Returns whether all bytes are zeros. Compares them one by one.
fn are_few_zeros(bytes: &[u8]) -> bool
    ensures { result ≡ are_zeros bytes.now }
{
    bytes.iter().all(|byte| *byte == 0)
}

/// Returns whether the first byte, if there is one, is a zero.
#[inline(always)]
fn may_be_zeros(bytes: &[u8]) -> bool
    ensures { OnFalse result (are_zeros bytes.now ≡ false) }
{
    match bytes.first() {
        Some(byte) => *byte == 0,
        None => true,
    }
}

/// Returns whether all bytes are zeros. It isn't inlined, since most bytes that are written don't begin with a zero.
#[inline(never)]
fn is_of_zeros(bytes: &[u8]) -> bool
    ensures { result ≡ are_zeros bytes.now }
{
    let mut at = 0;
    while bytes.len() - at >= 32 {
        if !has_32_zeros(bytes, at) {
            return false;
        }
        at += 32;
    }
    are_few_zeros(&bytes[at..])
}

impl Content {
    /// Makes a content of these bytes. Zeros aren't copied. The only error is out of memory.
    #[inline(always)]
    pub fn from_slice(alloc: Global, bytes: &[u8]) -> Result<Content, AllocError>
        ensures { IfOk result (λ made. made ≡ bytes.now) }
    {
        let held = if may_be_zeros(bytes) && is_of_zeros(bytes) {
            Vec::new(alloc)
        } else {
            Vec::from_slice(alloc, bytes)?
        };
        Ok(Content {
            held,
            len: bytes.len(),
        })
    }

    /// Returns the number of bytes.
    pub fn len(&self) -> usize
        ensures { result ≡ length self.now }
    {
        self.len
    }

    /// Returns how many zeros `as_slice` needs: all bytes of a content of zeros, and none of another.
    pub fn zeros(&self) -> usize
        ensures { result ≡ zeros_in self.now }
    {
        if self.held.is_empty() { self.len } else { 0 }
    }

    /// Returns the bytes. Those of a content of zeros are the first of `zeros`.
    pub fn as_slice<'a>(&'a self, zeros: &'a [u8]) -> &'a [u8]
        requires { HasZeros (zeros_in self.now) zeros.now }
        ensures { result.now ≡ self.now }
    {
        if self.held.is_empty() {
            return &zeros[..self.len];
        }
        &self.held
    }

    /// Copies the bytes into a vector. The only error is out of memory.
    pub fn to_vec(&self, alloc: Global) -> Result<Vec<u8>, AllocError>
        ensures { IfOk result (λ made. made.items ≡ self.now) }
    {
        if self.held.is_empty() {
            return vec![in alloc; 0; self.len];
        }
        Vec::from_slice(alloc, &self.held)
    }
}

impl Clone for Content {
    ghost is_clone = { λ a b. b ≡ a };

    /// Returns a copy. The only error is out of memory.
    fn clone(&self) -> Result<Content, AllocError> {
        Ok(Content {
            held: Vec::from_slice(*self.held.allocator(), &self.held)?,
            len: self.len,
        })
    }
}
