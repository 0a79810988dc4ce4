//! Hex digits. Vectors decode sixteen pairs at a time.
ghost use Rattle.std.specs.Prelude.{◌≡◌, ◌≤◌, ◌<◌, ◌+◌, ◌*◌, ◌/◌, ◌%◌, length, map, slice_index, unwrap_or, Ok, IfOk, IsErr, MatchResult, true, false};
ghost use Rattle.blob_tokens.specs.Pairs.{IsPairsFrom};
ghost use Rattle.hex.specs.Hex.{decode_of, decode_pairs, encode_lower, hex_digit_value, lower_digits};

use crate::refused_line::RefusedLine;
use std::alloc::Global;
use std::simd::prelude::*;

/// Sixteen times the value of each byte as a hex digit of either case, or 256 if it isn't one.
static HIGH: [u16; 256] = [
    256, 256, 256, 256, 256, 256, 256, 256, 256, 256, 256, 256, 256, 256, 256, 256, 256, 256, 256,
    256, 256, 256, 256, 256, 256, 256, 256, 256, 256, 256, 256, 256, 256, 256, 256, 256, 256, 256,
    256, 256, 256, 256, 256, 256, 256, 256, 256, 256, 0, 16, 32, 48, 64, 80, 96, 112, 128, 144,
    256, 256, 256, 256, 256, 256, 256, 160, 176, 192, 208, 224, 240, 256, 256, 256, 256, 256, 256,
    256, 256, 256, 256, 256, 256, 256, 256, 256, 256, 256, 256, 256, 256, 256, 256, 256, 256, 256,
    256, 160, 176, 192, 208, 224, 240, 256, 256, 256, 256, 256, 256, 256, 256, 256, 256, 256, 256,
    256, 256, 256, 256, 256, 256, 256, 256, 256, 256, 256, 256, 256, 256, 256, 256, 256, 256, 256,
    256, 256, 256, 256, 256, 256, 256, 256, 256, 256, 256, 256, 256, 256, 256, 256, 256, 256, 256,
    256, 256, 256, 256, 256, 256, 256, 256, 256, 256, 256, 256, 256, 256, 256, 256, 256, 256, 256,
    256, 256, 256, 256, 256, 256, 256, 256, 256, 256, 256, 256, 256, 256, 256, 256, 256, 256, 256,
    256, 256, 256, 256, 256, 256, 256, 256, 256, 256, 256, 256, 256, 256, 256, 256, 256, 256, 256,
    256, 256, 256, 256, 256, 256, 256, 256, 256, 256, 256, 256, 256, 256, 256, 256, 256, 256, 256,
    256, 256, 256, 256, 256, 256, 256, 256, 256, 256, 256, 256, 256, 256, 256, 256, 256, 256, 256,
    256, 256, 256, 256, 256, 256, 256, 256,
];

/// The value of each byte as a hex digit of either case, or 256 if it isn't one.
static LOW: [u16; 256] = [
    256, 256, 256, 256, 256, 256, 256, 256, 256, 256, 256, 256, 256, 256, 256, 256, 256, 256, 256,
    256, 256, 256, 256, 256, 256, 256, 256, 256, 256, 256, 256, 256, 256, 256, 256, 256, 256, 256,
    256, 256, 256, 256, 256, 256, 256, 256, 256, 256, 0, 1, 2, 3, 4, 5, 6, 7, 8, 9, 256, 256, 256,
    256, 256, 256, 256, 10, 11, 12, 13, 14, 15, 256, 256, 256, 256, 256, 256, 256, 256, 256, 256,
    256, 256, 256, 256, 256, 256, 256, 256, 256, 256, 256, 256, 256, 256, 256, 256, 10, 11, 12, 13,
    14, 15, 256, 256, 256, 256, 256, 256, 256, 256, 256, 256, 256, 256, 256, 256, 256, 256, 256,
    256, 256, 256, 256, 256, 256, 256, 256, 256, 256, 256, 256, 256, 256, 256, 256, 256, 256, 256,
    256, 256, 256, 256, 256, 256, 256, 256, 256, 256, 256, 256, 256, 256, 256, 256, 256, 256, 256,
    256, 256, 256, 256, 256, 256, 256, 256, 256, 256, 256, 256, 256, 256, 256, 256, 256, 256, 256,
    256, 256, 256, 256, 256, 256, 256, 256, 256, 256, 256, 256, 256, 256, 256, 256, 256, 256, 256,
    256, 256, 256, 256, 256, 256, 256, 256, 256, 256, 256, 256, 256, 256, 256, 256, 256, 256, 256,
    256, 256, 256, 256, 256, 256, 256, 256, 256, 256, 256, 256, 256, 256, 256, 256, 256, 256, 256,
    256, 256, 256, 256, 256, 256, 256, 256, 256, 256, 256, 256, 256, 256, 256, 256, 256, 256, 256,
    256, 256, 256,
];

/// Returns the value of each lane as a hex digit of either case, or 255 if it isn't one.
#[inline(always)]
fn values(lanes: u8x16) -> u8x16
    ensures { result ≡ map (λ c. unwrap_or (hex_digit_value c) 255) lanes }
{
    let number = lanes - u8x16::splat(48);
    let letter = (lanes | u8x16::splat(32)) - u8x16::splat(87);
    let is_number = number.simd_lt(u8x16::splat(10));
    let is_letter = (letter - u8x16::splat(10)).simd_lt(u8x16::splat(6));
    is_number.select(number, is_letter.select(letter, u8x16::splat(255)))
}

/// Decodes sixteen pairs of digits after the first `first` pairs, and returns whether each byte is a digit.
#[inline(always)]
fn sixteen(digits: &[u8], first: usize) -> (u8x16, bool)
    requires { 2 * first + 32 ≤ length digits.now }
    ensures good { result.1 ≡ true → IsPairsFrom digits.now first result.0 }
    ensures bad { result.1 ≡ false → IsErr (decode_pairs 0 digits.now) }
{
    let pairs = u8x32::from_slice(&digits[2 * first..]);
    let high = values(pairs.swizzle([0, 2, 4, 6, 8, 10, 12, 14, 16, 18, 20, 22, 24, 26, 28, 30]));
    let low = values(pairs.swizzle([1, 3, 5, 7, 9, 11, 13, 15, 17, 19, 21, 23, 25, 27, 29, 31]));
    let bad = (high | low).simd_ge(u8x16::splat(128)).to_bitmask();
    (high * u8x16::splat(16) + low, bad == 0)
}

/// Decodes pairs of digits into `bytes`. Returns false if a byte isn't a digit; `bytes` is unspecified then.
fn decode_pairs(digits: &[u8], bytes: &mut [u8]) -> bool
    requires { length digits.now ≡ 2 * length bytes.old }
    ensures { MatchResult (decode_pairs 0 digits.now) (λ read. (result ≡ true) × (bytes.new ≡ read)) (λ _. result ≡ false) }
{
    let blocks = bytes.len() / 16;
    'blocks: for k in 0..blocks {
        let (block, good) = sixteen(digits, 16 * k);
        if !good {
            return false;
        }
        block.copy_to_slice(&mut bytes[16 * k..]);
    }
    // A test in each turn would keep the compiler from unrolling the loop.
    let mut seen = 0u16;
    'pairs: for i in 16 * blocks..bytes.len() {
        // At least 256 if one isn't a digit.
        let value = HIGH[digits[2 * i] as usize] + LOW[digits[2 * i + 1] as usize];
        seen |= value;
        bytes[i] = (value % 256) as u8;
    }
    seen < 256
}

/// Decodes an even number of digits in parts of 512 bytes, so that the whole isn't filled with zeros first. A function of
/// its own, since a call fills `part` with zeros even if it doesn't use it.
fn decode_parts(alloc: Global, digits: &[u8]) -> Result<Vec<u8>, RefusedLine>
    requires { length digits.now % 2 ≡ 0 }
    ensures ok { IfOk result (λ bytes. decode_pairs 0 digits.now ≡ Ok bytes.items) }
    ensures bad { result ≡ Err RefusedLine.BadCall → IsErr (decode_pairs 0 digits.now) }
{
    let mut bytes = Vec::with_capacity(alloc, digits.len() / 2)?;
    let mut part = [0u8; 512];
    let mut rest = digits;
    while !rest.is_empty() {
        let (front, back) = rest.split_at(rest.len().min(1024));
        let decoded = &mut part[..front.len() / 2];
        if !decode_pairs(front, decoded) {
            return Err(RefusedLine::BadCall);
        }
        bytes.extend_from_slice(decoded)?;
        rest = back;
    }
    Ok(bytes)
}

/// Decodes hex digits of either case, as the crate `hex` does.
///
/// # Errors
///
/// `BadCall` if the number of digits is odd or a byte isn't a digit; `NoMemory`.
pub fn decode_hex(alloc: Global, digits: &[u8]) -> Result<Vec<u8>, RefusedLine>
    ensures ok { IfOk result (λ bytes. decode_of digits.now ≡ Ok bytes.items) }
    ensures bad { result ≡ Err RefusedLine.BadCall → IsErr (decode_of digits.now) }
{
    if digits.len() % 2 != 0 {
        return Err(RefusedLine::BadCall);
    }
    if digits.len() > 1024 {
        return decode_parts(alloc, digits);
    }
    let mut bytes = vec![in alloc; 0u8; digits.len() / 2]?;
    if !decode_pairs(digits, bytes.as_mut_slice()) {
        return Err(RefusedLine::BadCall);
    }
    Ok(bytes)
}

/// Returns the lower-case hex digit of a value.
#[inline(always)]
fn digit(value: u8) -> u8
    requires { value < 16 }
    ensures { result ≡ slice_index lower_digits value }
{
    if value < 10 {
        b'0' + value
    } else {
        b'a' - 10 + value
    }
}

/// Encodes bytes as lower-case hex digits.
pub fn encode_hex(bytes: &[u8], digits: &mut [u8])
    requires { length digits.old ≡ 2 * length bytes.now }
    ensures { digits.new ≡ encode_lower bytes.now }
{
    // Computed, not read from a table: so the compiler can encode several bytes per instruction.
    'bytes: for i in 0..bytes.len() {
        let byte = bytes[i];
        digits[2 * i] = digit(byte / 16);
        digits[2 * i + 1] = digit(byte % 16);
    }
}
