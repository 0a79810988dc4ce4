ghost use Rattle.std.specs.Prelude.{Some};
ghost use Rattle.blob_lab.specs.ResolveReplies.{by_refusal, resolution_line};

use blob_base::{BlobVersion, Error, RefusalLine};
use std::fmt;

/// Displays a result of `resolve` as a line, without the line feed: `valid SIZE VERSION OFFSET`, `create`, or the
/// error's line.
#[derive(Clone, Copy)]
pub struct ResolutionLine<'a>(pub &'a Result<Option<(u64, BlobVersion, u64)>, Error>);

impl fmt::Display for ResolutionLine<'_> {
    ghost output = { λ line. Some (resolution_line (by_refusal line.0.now)) };

    fn fmt<W: fmt::Write>(&self, f: &mut fmt::Formatter<W>) -> fmt::Result {
        match self.0 {
            Ok(Some((size, version, offset))) => {
                let version = version.get();
                write!(f, "valid {size} {version} {offset}")
            }
            Ok(None) => f.write_str("create"),
            Err(e) => {
                let line = RefusalLine(e);
                write!(f, "{line}")
            }
        }
    }
}
