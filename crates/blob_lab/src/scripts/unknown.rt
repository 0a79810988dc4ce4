// A reader with a hidden buffer.
ghost use Rattle.std.specs.Prelude.{◌≡◌, []};

use crate::scripts::Ahead;
use std::io::{self, BufRead, Read};

/// A reader that counts as unbuffered: each read may wait.
pub(super) struct Unknown<R> {
    reader: R,
}

impl<R> Unknown<R> {
    pub(super) fn new(reader: R) -> Unknown<R>
        ensures { result.reader ≡ reader }
    {
        Unknown { reader }
    }

    pub(super) fn into_inner(self) -> R
        ensures { result ≡ self.reader }
    {
        let Unknown { reader } = self;
        reader
    }
}

impl<R: Read> Read for Unknown<R> {
    ghost remaining = { λ u. R.remaining u.reader };

    fn read(&mut self, buf: &mut [u8]) -> io::Result<usize> {
        self.reader.read(buf)
    }
}

impl<R: BufRead> BufRead for Unknown<R> {
    ghost consumable_len = { λ u. R.consumable_len u.reader };

    fn fill_buf(&mut self) -> io::Result<&[u8]> {
        self.reader.fill_buf()
    }

    fn consume(&mut self, amount: usize) {
        self.reader.consume(amount);
    }
}

impl<R: BufRead> Ahead for Unknown<R> {
    ghost ready = { λ u. [] };

    fn ready(&self) -> &[u8] {
        &[]
    }
}
