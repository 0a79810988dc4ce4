//! Reading up to a byte.
ghost use Rattle.std.specs.Prelude.{◌≡◌, ◌+◌, IfOk, OnOk, vec_len};
ghost use Rattle.std.specs.Io.{StopsAt, appended_bytes};
ghost use Rattle.std.specs.Io.KnownBytes.{IsAtEnd};
ghost use Rattle.std.specs.Io.BufRead.{DropsThrough};
ghost use Rattle.blob_script.specs.Reads.{AppendsThrough, MovesBytes};

use memchr::memchr;
use std::io::{BufRead, Error, ErrorKind, Result};

/// Appends the reader's bytes up to and including the first `byte`, or to the end. Returns their number. Like
/// `BufRead::read_until`, with a faster search.
///
/// # Errors
///
/// Those of the reader, except an interrupted read, which is retried; `OutOfMemory`. The bytes taken until then were
/// appended.
pub fn read_through<R: BufRead>(reader: &mut R, byte: u8, bytes: &mut Vec<u8>) -> Result<usize>
    ensures len { IfOk result (λ n. vec_len bytes.new ≡ vec_len bytes.old + n) }
    ensures bytes { OnOk result (AppendsThrough byte (R.remaining reader.old) bytes.old.items bytes.new.items) }
    ensures rest { OnOk result (DropsThrough (R.remaining reader.old) (R.remaining reader.new) byte) }
    ensures end { IfOk result (λ n. n ≡ 0 → IsAtEnd (R.remaining reader.old)) }
    ensures stops { StopsAt (appended_bytes bytes.old.items bytes.new.items) byte }
    ensures none_lost { MovesBytes (R.remaining reader.old) (R.remaining reader.new) bytes.old.items bytes.new.items }
{
    let start = bytes.len();
    'turns: for _ in 0..u64::MAX {
        let ready = match reader.fill_buf() {
            Ok(ready) => ready,
            Err(e) if e.kind() == ErrorKind::Interrupted => continue,
            Err(e) => return Err(e),
        };
        let found = memchr(byte, ready);
        let end = match found {
            Some(place) => place + 1,
            None => ready.len(),
        };
        bytes.extend_from_slice(&ready[..end])?;
        reader.consume(end);
        if found.is_some() || end == 0 {
            return Ok(bytes.len() - start);
        }
    }
    Err(Error::from(ErrorKind::TimedOut))
}
