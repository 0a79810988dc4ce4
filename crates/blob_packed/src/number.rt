//! Numbers in eight bytes.
ghost use Rattle.std.specs.Prelude.{◌≡◌, ◌+◌, ◌++◌, ◌<◌, length, drop, IfSome, OnOk, MatchOption};
ghost use Rattle.blob_packed.specs.Numbers.{number_bytes, number_told};

use std::alloc::AllocError;

/// Appends a number in eight bytes, the high one first. Fails only if memory runs out.
#[tactic(auto, unfolding(crate::specs::Numbers::number_bytes))]
pub fn put_number(bytes: &mut Vec<u8>, number: u64) -> Result<(), AllocError>
    ensures { OnOk result (bytes.new.items ≡ bytes.old.items ++ number_bytes number) }
{
    bytes.extend_from_slice(&number.to_be_bytes())
}

/// Returns the number that bytes begin with, in eight bytes, and what follows it. `None` if there are fewer.
#[tactic(auto, unfolding(crate::specs::Numbers::number_told))]
pub fn take_number(bytes: &[u8]) -> Option<(u64, &[u8])>
    ensures number { MatchOption result (length bytes.now < 8) (λ told. told.0 ≡ number_told bytes.now) }
    ensures rest { IfSome result (λ told. told.1.now ≡ drop 8 bytes.now) }
    ensures length { IfSome result (λ told. length told.1.now + 8 ≡ length bytes.now) }
{
    let (number, rest) = bytes.split_first_chunk::<8>()?;
    Some((u64::from_be_bytes(*number), rest))
}
