ghost use Rattle.std.specs.Prelude.{◌≡◌, ◌<◌, ◌≤◌, ◌+◌, ◌↔◌, IsTrue, List, ℕ, [], ◌++◌, length, OnOk, OnErr, IfOk};
ghost use Rattle.std.specs.List.{flat_map};
ghost use Rattle.blob_header.specs.Refusals.{error_of, OffsetOverflow, IsMemory};

use blob_header::error::Error;
use std::alloc::Global;
use std::marker::Model;

/// The bytes of a write, in one or more pieces. Contracts see one list. The pieces stay separate.
#[derive(Debug, Drop)]
pub struct IoBufs {
    pieces: Vec<Vec<u8>>,
    len: usize,
}

impl Model for IoBufs {
    ghost use Rattle.std.specs.Prelude.{◌≡◌, List, ℕ, length};
    ghost use Rattle.std.specs.List.{flat_map};

    ghost Value = { List ℕ };

    ghost view = { λ b. flat_map (λ p. p.items) b.pieces.items };

    ghost invariant = { λ b. b.len ≡ length (flat_map (λ p. p.items) b.pieces.items) };
}

impl IoBufs {
    /// Returns an empty buffer.
    pub fn new(alloc: Global) -> IoBufs
        ensures { result ≡ [] }
    {
        IoBufs {
            pieces: Vec::new(alloc),
            len: 0,
        }
    }

    /// Returns a buffer with `bytes` as its only piece. The only error is `Memory`.
    pub fn from_vec(bytes: Vec<u8>) -> Result<IoBufs, Error>
        ensures ok { IfOk result (λ bufs. bufs ≡ bytes.items) }
        ensures memory { OnErr result (IsMemory result) }
    {
        let mut bufs = IoBufs::new(*bytes.allocator());
        let len = bytes.len();
        bufs.pieces.push(bytes)?;
        bufs.len = len;
        Ok(bufs)
    }

    /// Appends a piece.
    ///
    /// Returns `OffsetOverflow` if the total length would exceed `usize::MAX`; otherwise the only error is `Memory`.
    /// After an error the bytes are unchanged and the piece is dropped.
    pub fn push(&mut self, piece: Vec<u8>) -> Result<(), Error>
        ensures ok { OnOk result (self.new ≡ self.old ++ piece.items) }
        ensures err { OnErr result (self.new ≡ self.old) }
        ensures overflow { (error_of result ≡ Some OffsetOverflow) ↔ (usize.MAX < length self.old + length piece.items) }
        ensures memory { OnErr result (length self.old + length piece.items ≤ usize.MAX → IsMemory result) }
    {
        let Some(total) = self.len.checked_add(piece.len()) else {
            return Err(Error::OffsetOverflow);
        };
        self.pieces.push(piece)?;
        self.len = total;
        Ok(())
    }

    /// Returns the number of bytes.
    pub fn remaining(&self) -> usize
        ensures { result ≡ length self.now }
    {
        self.len
    }

    /// Returns whether there are no bytes. Empty pieces may exist.
    pub fn is_empty(&self) -> bool
        ensures { IsTrue result ↔ (self.now ≡ []) }
    {
        self.len == 0
    }

    /// Returns the pieces. Concatenated, they are the bytes.
    pub fn pieces(&self) -> &[Vec<u8>]
        ensures { flat_map (λ p. p.items) result.now ≡ self.now }
    {
        &self.pieces
    }

    /// Returns the bytes as one piece. A single piece is moved. Otherwise the only error is `Memory`.
    pub fn coalesce(self) -> Result<Vec<u8>, Error>
        ensures ok { IfOk result (λ bytes. bytes.items ≡ self) }
        ensures memory { OnErr result (IsMemory result) }
    {
        let mut pieces = self.pieces;
        if pieces.len() == 1 {
            return Ok(pieces.remove(0));
        }
        joined(*pieces.allocator(), &pieces, self.len)
    }

    /// Copies the bytes into one piece. The only error is `Memory`.
    pub fn copied(&self) -> Result<IoBufs, Error>
        ensures ok { IfOk result (λ bufs. bufs ≡ self.now) }
        ensures memory { OnErr result (IsMemory result) }
    {
        IoBufs::from_vec(joined(*self.pieces.allocator(), &self.pieces, self.len)?)
    }
}

/// Concatenates the pieces. `len` is their total length.
fn joined(alloc: Global, pieces: &[Vec<u8>], len: usize) -> Result<Vec<u8>, Error>
    ensures ok { IfOk result (λ bytes. bytes.items ≡ flat_map (λ p. p.items) pieces.now) }
    ensures memory { OnErr result (IsMemory result) }
{
    let mut bytes = Vec::with_capacity(alloc, len)?;
    for piece in pieces {
        bytes.extend_from_slice(piece)?;
    }
    Ok(bytes)
}
