//! Paths: names after slashes.
ghost use Rattle.std.specs.Prelude.{◌≡◌, ◌<◌, ◌≤◌, ◌∷◌, [], length, IfNone, IfSome, not};
ghost use Rattle.std.specs.List.{prefix_len};
ghost use Rattle.blob_directory.specs.Paths.{is_slash, path_names};

/// The longest name, in bytes.
pub const NAME_MAX: usize = 255;

/// Returns how many slashes a path begins with.
fn slashes_before(path: &[u8]) -> usize
    ensures value { result ≡ prefix_len is_slash path.now }
    ensures within { result ≤ length path.now }
{
    path.iter().take_while(|b| **b == b'/').count()
}

/// Returns how many bytes are before the first slash.
fn length_before_slash(path: &[u8]) -> usize
    ensures value { result ≡ prefix_len (λ b. not (is_slash b)) path.now }
    ensures within { result ≤ length path.now }
{
    path.iter().take_while(|b| **b != b'/').count()
}

/// Returns the path's first name and what follows it, or `None` if the path has no name. Slashes before a name don't
/// count.
pub fn first_name(path: &[u8]) -> Option<(&[u8], &[u8])>
    ensures names { IfSome result (λ r. path_names path.now ≡ r.0.now ∷ path_names r.1.now) }
    ensures none { IfNone result (path_names path.now ≡ []) }
    ensures shorter { IfSome result (λ r. length r.1.now < length path.now) }
{
    let (_, left) = path.split_at(slashes_before(path));
    if left.is_empty() {
        return None;
    }
    Some(left.split_at(length_before_slash(left)))
}
