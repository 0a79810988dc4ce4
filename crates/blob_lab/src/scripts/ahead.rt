// Readers with a visible buffer.
ghost use Rattle.std.specs.Prelude.{◌≡◌, ℕ, List};

use std::alloc::Allocator;
use std::io::{BufRead, BufReader, Read};

/// A reader with a buffer that callers can see.
pub trait Ahead: BufRead {
    // The buffered bytes, which the next reads take without waiting.
    ghost ready: { Self → List ℕ };

    /// Returns the buffered bytes. Taking them doesn't wait.
    fn ready(&self) -> &[u8]
        ensures { result.now ≡ ready self.now };
}

impl<R: Read, A: Allocator> Ahead for BufReader<R, A> {
    ghost use Rattle.std.specs.Io.Buffered.{reader_buffer};

    ghost ready = { reader_buffer };

    fn ready(&self) -> &[u8] {
        self.buffer()
    }
}

/// The whole slice counts as buffered.
impl Ahead for &[u8] {
    ghost ready = { λ bytes. bytes.now };

    fn ready(&self) -> &[u8] {
        self
    }
}
