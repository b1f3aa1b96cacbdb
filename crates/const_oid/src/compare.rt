//! How slices of octets and names compare.

ghost use Rattle.std.specs.Prelude.{◌≡◌, ◌≢◌, ◌↔◌, ℕ, ◌<◌, ◌≤◌, List, ◌++◌, length, slice_index, take, drop, min, None, IsFalse, IsTrue};
ghost use Rattle.std.specs.Ordering.{nat_cmp};
ghost use Rattle.std.specs.Str.{str_eq_ignore_ascii_case};
ghost use Rattle.const_oid.specs.Contents.{cut, parts_fault};
ghost use Rattle.const_oid.specs.Identifier.{root_rule};
ghost use Rattle.const_oid.specs.Orders.{parts_cmp};
ghost use Rattle.const_oid.specs.Private.Octets.{lens_cmp, length_at};
ghost use Rattle.const_oid.specs.Private.Prefixes.{IsCommonPrefix};

use crate::fast::comparison::{are_equal, same_start};
use crate::fast::slices::first_octets;
use crate::fast::words::{WORD_OCTETS, last_word};
use crate::parts::{CONTINUED, without_last_part};
use std::cmp::Ordering;

/// Whether octets begin with others.
// erase: const
#[tactic(auto, using(crate::proofs::BeginsWith::begins_iff))]
#[inline(always)]
pub(crate) fn begins_with(octets: &[u8], prefix: &[u8]) -> bool
    ensures { IsTrue result ↔ ((rest : List ℕ) × (octets.now ≡ prefix.now ++ rest)) }
{
    if prefix.len() > octets.len() {
        return false;
    }
    let (start, _) = octets.split_at(prefix.len());
    if prefix.len() < WORD_OCTETS {
        // The first octet first, since most identifiers begin with a prefix or differ at its start.
        return first_difference(prefix, start, 0, prefix.len()) == prefix.len();
    }
    are_equal(prefix, start)
}

/// The lexicographic order of subidentifiers, a shorter one before a longer one: of valid octets, that of their arcs.
/// In others, a subidentifier ends with its first octet below 0x80, or with the last octet.
///
/// At the first octet that differs, both subidentifiers began at the same index. So the one with more octets left is
/// the longer one, and an octet that ends its subidentifier decides.
// erase: const
#[tactic(auto, using(crate::proofs::ByParts::ended_parts))]
#[inline]
pub fn order_by_parts(a: &[u8], b: &[u8]) -> Ordering
    ensures { result ≡ parts_cmp a.now b.now }
{
    let min_len = lesser(a.len(), b.len());
    let i = first_difference(a, b, same_start(a, b), min_len);
    if i == min_len {
        return order_of_numbers(a.len(), b.len());
    }
    if a[i] < CONTINUED || b[i] < CONTINUED {
        return order_of_numbers(a[i] as usize, b[i] as usize);
    }
    match order_of_lens(a, b, i) {
        Ordering::Equal => order_of_numbers(a[i] as usize, b[i] as usize),
        unequal => unequal,
    }
}

/// The order of the lengths of the subidentifiers that begin at `start`. They are read in turn.
// erase: const
#[inline(always)]
fn order_of_lens(a: &[u8], b: &[u8], start: usize) -> Ordering
    requires { start ≤ min (length a.now) (length b.now) }
    ensures { result ≡ lens_cmp start a.now b.now }
{
    let min_len = lesser(a.len(), b.len());
    let mut index = start;
    while index < min_len {
        if a[index] < CONTINUED {
            return if ends_at(b, index) {
                Ordering::Equal
            } else {
                Ordering::Less
            };
        }
        if b[index] < CONTINUED {
            return if ends_at(a, index) {
                Ordering::Equal
            } else {
                Ordering::Greater
            };
        }
        index += 1;
    }
    order_of_numbers(a.len(), b.len())
}

/// Whether a subidentifier ends at `index`: its octet is below 128, or the last one.
// erase: const
#[tactic(auto, using(crate::proofs::ByParts::part_ends))]
#[inline(always)]
fn ends_at(octets: &[u8], index: usize) -> bool
    requires { index < length octets.now }
    ensures ends { IsTrue result → length_at octets.now index ≡ 1 }
    ensures more { IsFalse result → 1 < length_at octets.now index }
{
    octets[index] < CONTINUED || index + 1 == octets.len()
}

/// The subidentifiers that valid octets and others begin with, up to the first that differs.
pub(crate) fn common_parts<'a>(octets: &'a [u8], others: &[u8]) -> &'a [u8]
    requires { parts_fault root_rule (cut octets.now) ≡ None }
    ensures { IsCommonPrefix octets.now others.now result.now }
{
    let min_len = octets.len().min(others.len());
    let same = first_difference(octets, others, same_start(octets, others), min_len);
    if same == octets.len() {
        return octets;
    }
    without_last_part(first_octets(octets, same + 1))
}

/// The bit of ASCII case.
pub(crate) const CASE: u8 = 32;

/// Whether names are the same, by their bytes. Words are compared first. Most that differ do so in the last one, also
/// ignoring ASCII case, and else their bytes are compared.
// erase: const
pub(crate) fn is_same_name(a: &[u8], b: &[u8]) -> bool
    ensures { result ≡ str_eq_ignore_ascii_case a.now b.now }
{
    if a.len() != b.len() {
        return false;
    }
    if are_equal(a, b) {
        return true;
    }
    if last_word::<CASE>(a) != last_word::<CASE>(b) {
        return false;
    }
    let mut index = 0;
    while index < a.len() {
        if a[index] != b[index] && !a[index].eq_ignore_ascii_case(&b[index]) {
            return false;
        }
        index += 1;
    }
    true
}

/// The first index from `start` up to `end` at which the octets differ, or `end` if there is none. Before `start` they
/// must be the same. So the order by subidentifiers of all octets is that of the octets from the result on.
#[tactic(auto, using(crate::proofs::ByParts::same_up_to))]
#[inline(always)]
const fn first_difference(a: &[u8], b: &[u8], start: usize, end: usize) -> usize
    requires ends { end ≤ min (length a.now) (length b.now) }
    requires starts { (start ≤ end) × (take start a.now ≡ take start b.now) }
    ensures within { result ≤ end }
    ensures same { take result a.now ≡ take result b.now }
    ensures unequal { result < end → slice_index a.now result ≢ slice_index b.now result }
    ensures by_parts { parts_cmp a.now b.now ≡ parts_cmp (drop result a.now) (drop result b.now) }
{
    let mut index = start;
    while index < end {
        if a[index] != b[index] {
            return index;
        }
        index += 1;
    }
    end
}

/// The lesser of two numbers: constants cannot call `usize::min`.
#[inline(always)]
pub(crate) const fn lesser(a: usize, b: usize) -> usize
    ensures { result ≡ min a b }
{
    if a < b { a } else { b }
}

/// The order of two numbers: constants cannot call `usize::cmp`.
#[inline(always)]
const fn order_of_numbers(a: usize, b: usize) -> Ordering
    ensures { result ≡ nat_cmp a b }
{
    // Two branches in its place take more instructions: SPEED's table of searches.
    match (a > b) as i8 - (a < b) as i8 {
        -1 => Ordering::Less,
        0 => Ordering::Equal,
        _ => Ordering::Greater,
    }
}
