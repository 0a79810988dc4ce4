//! How long a search goes on, and what is printed of that.
ghost use Rattle.std.specs.Prelude.{◌≡◌, ◌<◌, ◌↔◌, IsTrue};
ghost use Rattle.blob_distinct.specs.Printed.{limit_text};

/// Returns whether one more may be tried: fewer than `limit` were.
pub fn may_try(tried: u64, limit: u64) -> bool
    ensures { IsTrue result ↔ tried < limit }
{
    tried < limit
}

/// Returns the words on whether all were tried.
pub fn limit_text(is_complete: bool) -> &'static str
    ensures { result.now ≡ limit_text is_complete }
{
    if is_complete {
        "all of them"
    } else {
        "not all of them: the limit was reached"
    }
}
