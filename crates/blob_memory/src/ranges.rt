// The ends of ranges.
ghost use Rattle.std.specs.Prelude.{◌≡◌, ◌<◌, ◌+◌, ◌^◌, OnOk, IfOk, IfSome, is_none};
ghost use Rattle.blob_header.specs.Refusals.{error_of, refused_if, OffsetOverflow};
ghost use Rattle.blob_memory.specs.Answers.{is_uncounted};

use crate::origin::Origin;
use blob_base::Error;

impl Origin {
    /// Returns the logical end of a range of the blob. Returns `None` if the physical end doesn't fit in 64 bits.
    #[inline(always)]
    pub(crate) fn checked_end(&self, offset: u64, len: usize) -> Option<usize>
        ensures end { IfSome result (λ end. end ≡ offset + len) }
        ensures counted { IfSome result (λ end. offset + self.now.start + len < 2 ^ 64) }
        ensures none { is_none result ≡ is_uncounted (offset + self.now.start + len) }
    {
        let raw = offset.checked_add(self.data_offset)?;
        if len as u64 > u64::MAX - raw {
            return None;
        }
        Some(offset as usize + len)
    }

    /// Returns the logical end of a range of the blob. Returns `OffsetOverflow` if the physical end doesn't fit in 64
    /// bits.
    #[inline(always)]
    pub(crate) fn logical_end(&self, offset: u64, len: usize) -> Result<usize, Error>
        ensures end { IfOk result (λ end. end ≡ offset + len) }
        ensures counted { OnOk result (offset + self.now.start + len < 2 ^ 64) }
        ensures refusal { error_of result ≡ refused_if OffsetOverflow (is_uncounted (offset + self.now.start + len)) }
    {
        let Some(raw) = offset.checked_add(self.data_offset) else {
            return Err(Error::OffsetOverflow);
        };
        if len as u64 > u64::MAX - raw {
            return Err(Error::OffsetOverflow);
        }
        Ok(offset as usize + len)
    }
}
