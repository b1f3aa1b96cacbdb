//! How many octets are below a limit, counted in lanes.

ghost use Rattle.std.specs.Prelude.{◌≡◌, ◌+◌, ◌<◌, ◌≤◌, length, count_by, nat_lt};

use std::simd::Simd;
use std::simd::prelude::*;

/// How many octets are below a limit. No branch depends on an octet, so none is mispredicted.
#[inline]
pub(crate) fn count_below(octets: &[u8], limit: u8) -> usize
    ensures value { result ≡ count_by (λ x. nat_lt x limit) octets.now }
    ensures fits { result ≤ length octets.now }
{
    let (count, rest) = count_by_32(octets, limit);
    // If 32 divides the length, none is left: one test in place of the five that follow.
    if rest.is_empty() {
        return count;
    }
    let (count, rest) = count_first::<16>(count, rest, limit);
    let (count, rest) = count_first::<8>(count, rest, limit);
    let (count, rest) = count_first::<4>(count, rest, limit);
    let (count, rest) = count_first::<2>(count, rest, limit);
    count_first::<1>(count, rest, limit).0
}

/// How many octets are below a limit, counted 32 at a time, and the fewer than 32 octets that are left.
#[inline(always)]
fn count_by_32(octets: &[u8], limit: u8) -> (usize, &[u8])
    ensures value { result.0 + count_by (λ x. nat_lt x limit) result.1.now ≡ count_by (λ x. nat_lt x limit) octets.now }
    ensures fits { result.0 + length result.1.now ≤ length octets.now }
    ensures few { length result.1.now < 32 }
{
    let mut count = 0;
    let mut rest = octets;
    while rest.len() >= 32 {
        let (more, after) = count_first::<32>(count, rest, limit);
        count = more;
        rest = after;
    }
    (count, rest)
}

/// A count and how many of the first `COUNT` octets are below a limit, and the octets after them. If there are fewer,
/// the count and all octets.
#[inline(always)]
fn count_first<const COUNT: usize>(count: usize, octets: &[u8], limit: u8) -> (usize, &[u8])
    requires lanes { COUNT ≤ 64 }
    requires room { count + length octets.now ≤ usize.MAX }
    ensures value { result.0 + count_by (λ x. nat_lt x limit) result.1.now ≡ count + count_by (λ x. nat_lt x limit) octets.now }
    ensures fits { result.0 + length result.1.now ≤ count + length octets.now }
    ensures shorter { COUNT ≤ length octets.now → length result.1.now + COUNT ≡ length octets.now }
    ensures few { length octets.now < COUNT + COUNT → length result.1.now < COUNT }
{
    if octets.len() < COUNT {
        return (count, octets);
    }
    let (first, rest) = octets.split_at(COUNT);
    (count + count_all::<COUNT>(first, limit), rest)
}

/// How many of `COUNT` octets are below a limit.
#[inline(always)]
fn count_all<const COUNT: usize>(octets: &[u8], limit: u8) -> usize
    requires all { length octets.now ≡ COUNT }
    requires lanes { COUNT ≤ 64 }
    ensures value { result ≡ count_by (λ x. nat_lt x limit) octets.now }
    ensures fits { result ≤ length octets.now }
{
    // erase: another body
    let lanes = Simd::<u8, COUNT>::from_slice(octets).simd_lt(Simd::splat(limit));
    lanes.to_bitmask().count_ones() as usize
}
