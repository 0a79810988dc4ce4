ghost use Rattle.std.specs.Prelude.{◌<◌, ◌+◌, ◌^◌};

use crate::mode::PartialWriteMode;
use blob_base::Probability;

/// What determines the draws of a pending write.
#[derive(Clone, Copy)]
pub struct Draw {
    pub number: u64,
    pub offset: u64,
    pub len: usize,
    /// The mode and the retention rate of its issue.
    pub mode: PartialWriteMode,
    pub rate: Probability,
    ghost fits: { offset + len < 2 ^ 64 },
}
