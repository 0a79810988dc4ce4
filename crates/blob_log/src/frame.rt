//! Frames: the bytes of a record in a log, and the records that bytes begin with.
ghost use Rattle.std.specs.Prelude.{◌≡◌, ◌<◌, ◌≤◌, ◌+◌, ◌^◌, ℕ, false, MatchOption, IfOk, OnOk, OnErr, length, map, List, ◌++◌, [], slice_index, replicate};
ghost use Rattle.std.specs.Int.{w32, from_be_bytes};
ghost use Rattle.blob_header.specs.Fronts.{BeginsWith};
ghost use Rattle.blob_log.specs.Frames.{AreShort, IsFirst, checksum, frame, frames, is_frame, scan};

use blob_base::Crc32;
use blob_base::laws::checksums::checksums_fit;
use std::alloc::{AllocError, Global};

/// The frame of a record: its length and its checksum in four bytes each, and the record. Refused for memory alone.
#[tactic(auto, using(std::proofs::lemmas::Grind::common_steps), unfolding(crate::specs::Frames::frame))]
pub fn frame_of(alloc: Global, entry: &[u8]) -> Result<Vec<u8>, AllocError>
    requires { length entry.now < 2 ^ 32 }
    ensures { IfOk result (λ bytes. bytes.items ≡ frame entry.now) }
{
    let mut bytes = Vec::with_capacity(alloc, 8)?;
    bytes.extend_from_slice(&(entry.len() as u32).to_be_bytes())?;
    bytes.extend_from_slice(&checksum_of(entry).to_be_bytes())?;
    bytes.extend_from_slice(entry)?;
    Ok(bytes)
}

// The checksum of a record's length and its bytes.
#[tactic(auto, unfolding(crate::specs::Frames::checksum))]
fn checksum_of(entry: &[u8]) -> u32
    requires { length entry.now < 2 ^ 32 }
    ensures { result ≡ checksum entry.now }
{
    let mut sum = Crc32::new();
    sum.update(&(entry.len() as u32).to_be_bytes());
    sum.update(entry);
    sum.finalize()
}

// The number that the first four bytes are, the high one first.
fn number(bytes: &[u8]) -> u32
    requires { 4 ≤ length bytes.now }
    ensures { result ≡ from_be_bytes w32 bytes.now }
{
    u32::from_be_bytes([bytes[0], bytes[1], bytes[2], bytes[3]])
}

/// Returns the record that the bytes begin with, if they begin with a complete frame with the right checksum.
#[tactic(auto, using(std::proofs::lemmas::Bool::Decides::nat_tests), unfolding(crate::specs::Frames::length_told, crate::specs::Frames::sum_told))]
pub fn first(bytes: &[u8]) -> Option<&[u8]>
    ensures { MatchOption result (is_frame bytes.now ≡ false) (λ entry. IsFirst bytes.now entry.now) }
{
    if bytes.len() < 8 || bytes.len() - 8 < number(bytes) as usize {
        return None;
    }
    let entry = &bytes[8..8 + number(bytes) as usize];
    if checksum_of(entry) != number(&bytes[4..]) {
        return None;
    }
    Some(entry)
}

/// Returns the records that the bytes begin with, and the end of the last one's frame. Fails only if memory runs out.
pub fn scan(alloc: Global, bytes: &[u8]) -> Result<(Vec<Vec<u8>>, usize), AllocError>
    ensures records { IfOk result (λ found. map (λ r. r.items) found.0.items ≡ scan bytes.now) }
    ensures end { IfOk result (λ found. found.1 ≡ length (frames (scan bytes.now))) }
    ensures front { OnOk result (BeginsWith (frames (scan bytes.now)) bytes.now) }
    ensures short { OnOk result (AreShort (scan bytes.now)) }
{
    let mut records = Vec::new(alloc);
    let mut end = 0;
    while let Some(entry) = first(&bytes[end..]) {
        records.push(Vec::from_slice(alloc, entry)?)?;
        end += 8 + entry.len();
    }
    Ok((records, end))
}

/// A scan of frames finds their records, whatever bytes follow. Bytes begin with the frames of the records that a scan of them
/// finds. Zeros hold no record.
pub fn scans_find_frames()
    ensures again { (rs : List (List ℕ)) (rest : List ℕ) → AreShort rs → scan (frames rs ++ rest) ≡ rs ++ scan rest }
    ensures front { (bytes : List ℕ) → ((i : ℕ) → slice_index bytes i < 256) → BeginsWith (frames (scan bytes)) bytes }
    ensures zeros { (n : ℕ) → scan (replicate n 0) ≡ [] }
{
    checksums_fit();
}
