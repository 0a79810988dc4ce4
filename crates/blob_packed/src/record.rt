//! Records: how they are written, and how they are found.
ghost use Rattle.std.specs.Prelude.{◌≡◌, ◌+◌, ◌-◌, ◌++◌, ◌∷◌, [], ◌<◌, ◌≤◌, length, drop, replicate, None, Some, true, false, IfSome, OnOk, MatchOption};
ghost use Rattle.blob_packed.specs.Records.{begins_record, first_length, first_number, first_record, found_from, record_bytes};

use crate::number::{put_number, take_number};
use std::alloc::AllocError;

/// The first byte of a record that nothing settled.
const ISSUED: u8 = 1;

/// The first byte of a settled record.
const SETTLED: u8 = 2;

/// A record that was found, and the bytes after it.
#[derive(Clone, Copy)]
pub struct Record<'a> {
    pub number: u64,
    pub bytes: &'a [u8],
    pub is_settled: bool,
    pub rest: &'a [u8],
}

/// Appends a record that has a number and these bytes. Fails only if memory runs out.
pub fn put_record(
    bytes: &mut Vec<u8>,
    number: u64,
    payload: &[u8],
    is_settled: bool,
) -> Result<(), AllocError>
    ensures { OnOk result (bytes.new.items ≡ bytes.old.items ++ record_bytes number (payload.now, is_settled)) }
{
    bytes.push(if is_settled { SETTLED } else { ISSUED })?;
    put_number(bytes, number)?;
    put_number(bytes, payload.len() as u64)?;
    bytes.extend_from_slice(payload)
}

/// Returns the record that bytes begin with, if its number is at least `next`.
fn first_record(bytes: &[u8], next: u64) -> Option<Record<'_>>
    ensures begins { MatchOption result
        (begins_record next bytes.now ≡ false) (λ _. begins_record next bytes.now ≡ true) }
    ensures number { IfSome result (λ r. r.number ≡ first_number bytes.now) }
    ensures bytes { IfSome result (λ r. (r.bytes.now, r.is_settled) ≡ first_record bytes.now) }
    ensures rest { IfSome result (λ r. r.rest.now ≡ drop (17 + first_length bytes.now) bytes.now) }
{
    let (mark, rest) = bytes.split_first()?;
    if *mark != ISSUED && *mark != SETTLED {
        return None;
    }
    let (number, rest) = take_number(rest)?;
    let (size, rest) = take_number(rest)?;
    let size = size as usize;
    if number < next || rest.len() < size {
        return None;
    }
    let (bytes, rest) = rest.split_at(size);
    let is_settled = *mark == SETTLED;
    Some(Record {
        number,
        bytes,
        is_settled,
        rest,
    })
}

/// Returns the first record that bytes have with this number or a greater one. Bytes before it that begin no record are
/// passed over: they are of lost ones. `None` if there is no such record.
pub fn next_record(bytes: &[u8], next: u64) -> Option<Record<'_>>
    ensures none { result ≡ None → found_from next bytes.now ≡ [] }
    ensures found { IfSome result (λ r. found_from next bytes.now ≡
        replicate (r.number - next) None ++ (Some (r.bytes.now, r.is_settled) ∷ found_from (r.number + 1) r.rest.now)) }
    ensures number { IfSome result (λ r. next ≤ r.number) }
    ensures rest { IfSome result (λ r. length r.rest.now < length bytes.now) }
{
    let mut rest = bytes;
    while let Some((_, behind)) = rest.split_first() {
        match first_record(rest, next) {
            Some(record) => return Some(record),
            None => rest = behind,
        }
    }
    None
}
