//! The order of bytes, compared eight at a time. A slice of bytes is otherwise compared one by one.
ghost use Rattle.std.specs.Prelude.{◌≡◌, ◌≤◌, ◌+◌, length};
ghost use Rattle.std.specs.Cmp.Lexicographic.{slice_cmp};
ghost use Rattle.std.specs.Ordering.{nat_cmp};
ghost use Rattle.blob_names.specs.Orders.{number_in};

use std::cmp::Ordering;
use std::collections::btree_map::Comparable;

/// Returns the number in eight bytes from an index on, the high one first.
#[inline(always)]
fn number_at(bytes: &[u8], at: usize) -> u64
    requires { at + 8 ≤ length bytes.now }
    ensures { result ≡ number_in bytes.now at }
{
    u64::from_be_bytes([
        bytes[at],
        bytes[at + 1],
        bytes[at + 2],
        bytes[at + 3],
        bytes[at + 4],
        bytes[at + 5],
        bytes[at + 6],
        bytes[at + 7],
    ])
}

/// Compares bytes one by one.
fn order_few<'a>(one: &'a [u8], other: &'a [u8]) -> Ordering
    ensures { result ≡ slice_cmp nat_cmp one.now other.now }
{
    Ord::cmp(&one, &other)
}

/// Compares bytes: the first two that differ decide, and else the lengths do.
pub fn order<'a>(one: &'a [u8], other: &'a [u8]) -> Ordering
    ensures { result ≡ slice_cmp nat_cmp one.now other.now }
{
    let both = one.len().min(other.len());
    if both < 8 {
        return order_few(one, other);
    }
    // The last number has bytes of the one before it if there are fewer than eight more.
    let last = both - 8;
    let mut at = 0;
    while at < last {
        let (x, y) = (number_at(one, at), number_at(other, at));
        if x != y {
            return x.cmp(&y);
        }
        at = (at + 8).min(last);
    }
    let (x, y) = (number_at(one, last), number_at(other, last));
    if x != y {
        return x.cmp(&y);
    }
    one.len().cmp(&other.len())
}

/// Bytes to look up in a map with keys of bytes, without a copy of them.
#[derive(Clone, Copy)]
pub struct Sought<'a> {
    pub bytes: &'a [u8],
}

impl<'a> Comparable<Vec<u8>> for Sought<'a> {
    ghost use Rattle.std.specs.BTreeMap.Comparable.{le_lt_trans};
    ghost use Rattle.std.proofs.lemmas.Cmp.{nat_list_cmp_total};

    ghost compare = { λ q k. slice_cmp nat_cmp q.bytes.now k.items };

    ghost respects_cmp = { λ q x y. nat_list_cmp_total.congr q.bytes.now x.items y.items };

    ghost below_greater = { λ q x y. le_lt_trans nat_list_cmp_total q.bytes.now x.items y.items };

    fn compare(&self, key: &Vec<u8>) -> Ordering {
        order(self.bytes, key)
    }
}
