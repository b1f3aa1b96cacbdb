//! Equality and order of octets, by words, and below a word by octets.

ghost use Rattle.std.specs.Prelude.{◌≡◌, ◌≢◌, ◌+◌, ◌≤◌, length, take, min, nat_eq, MatchOption};
ghost use Rattle.std.specs.Cmp.Lexicographic.{pointwise, slice_cmp};
ghost use Rattle.std.specs.Ordering.{nat_cmp};

use crate::fast::words::{HALF_OCTETS, WORD_OCTETS, half_word, word};
use std::cmp::Ordering;

/// Whether octets are the same. The last octet is compared first, since most pairs differ there, then the last word,
/// and then the words before it, which may overlap it. Fewer octets than a word are compared one by one.
// erase: const
#[inline(always)]
pub(crate) fn are_equal(a: &[u8], b: &[u8]) -> bool
    ensures { result ≡ pointwise nat_eq a.now b.now }
{
    let len = a.len();
    if len != b.len() {
        return false;
    }
    if len < WORD_OCTETS {
        return are_equal_by_octet(a, b);
    }
    if a[len - 1] != b[len - 1] {
        return false;
    }
    if word(a, len - WORD_OCTETS) != word(b, len - WORD_OCTETS) {
        return false;
    }
    unequal_words(a, b, len - WORD_OCTETS).is_none()
}

/// Whether slices of one length have the same octets, without a branch for each word: for arrays, whose few words the
/// compiler compares at once.
// erase: const
#[inline(always)]
pub(crate) fn are_arrays_equal(a: &[u8], b: &[u8]) -> bool
    requires { length a.now ≡ length b.now }
    ensures { result ≡ pointwise nat_eq a.now b.now }
{
    let len = a.len();
    if len < WORD_OCTETS {
        return are_equal_by_octet(a, b);
    }
    let mut same = true;
    let mut at = 0;
    while at < len - WORD_OCTETS {
        same &= word(a, at) == word(b, at);
        at += WORD_OCTETS;
    }
    same & (word(a, len - WORD_OCTETS) == word(b, len - WORD_OCTETS))
}

/// Whether slices of one length have the same octets: the last one first, since most pairs differ there.
#[inline(always)]
const fn are_equal_by_octet(a: &[u8], b: &[u8]) -> bool
    requires { length a.now ≡ length b.now }
    ensures { result ≡ pointwise nat_eq a.now b.now }
{
    let mut left = a.len();
    while left > 0 {
        left -= 1;
        if a[left] != b[left] {
            return false;
        }
    }
    true
}

/// The first two words that differ, of those that begin before `end`.
// erase: const
#[tactic(auto, using(crate::proofs::ByWords::word_by_word))]
#[inline(always)]
fn unequal_words(a: &[u8], b: &[u8], end: usize) -> Option<(u64, u64)>
    requires in_a { end + WORD_OCTETS ≤ length a.now }
    requires in_b { end + WORD_OCTETS ≤ length b.now }
    ensures { MatchOption result (take end a.now ≡ take end b.now)
        (λ words. (a.now ≢ b.now) × (nat_cmp words.0 words.1 ≡ slice_cmp nat_cmp a.now b.now)) }
{
    let mut at = 0;
    while at < end {
        let (x, y) = (word(a, at), word(b, at));
        if x != y {
            return Some((x, y));
        }
        at += WORD_OCTETS;
    }
    None
}

/// The lexicographic order of octets: by words, of which the last may overlap the one before, or one by one if there
/// are fewer than a word has.
#[tactic(auto, using(crate::proofs::ByWords::unequal_cmp))]
#[inline(always)]
pub(crate) fn order(a: &[u8], b: &[u8]) -> Ordering
    ensures { result ≡ slice_cmp nat_cmp a.now b.now }
{
    let min_len = a.len().min(b.len());
    if min_len < WORD_OCTETS {
        return order_by_octet(a, b);
    }
    let last = min_len - WORD_OCTETS;
    if let Some((x, y)) = unequal_words(a, b, last) {
        return x.cmp(&y);
    }
    let (x, y) = (word(a, last), word(b, last));
    if x != y {
        return x.cmp(&y);
    }
    a.len().cmp(&b.len())
}

/// The lexicographic order of octets, one by one.
#[tactic(auto, using(crate::proofs::ByWords::ended_cmp))]
#[inline(always)]
fn order_by_octet(a: &[u8], b: &[u8]) -> Ordering
    ensures { result ≡ slice_cmp nat_cmp a.now b.now }
{
    for index in 0..a.len().min(b.len()) {
        if a[index] != b[index] {
            return a[index].cmp(&b[index]);
        }
    }
    a.len().cmp(&b.len())
}

/// How many of the first octets are found to be the same: a word, half a word or none.
// erase: const
#[inline(always)]
pub(crate) fn same_start(a: &[u8], b: &[u8]) -> usize
    ensures within { result ≤ min (length a.now) (length b.now) }
    ensures same { take result a.now ≡ take result b.now }
{
    let min_len = if a.len() < b.len() { a.len() } else { b.len() };
    if min_len >= WORD_OCTETS && word(a, 0) == word(b, 0) {
        WORD_OCTETS
    } else if min_len >= HALF_OCTETS && half_word(a) == half_word(b) {
        HALF_OCTETS
    } else {
        0
    }
}
