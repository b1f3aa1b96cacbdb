//! Contents octets tested in windows of eight. An octet is plain if it does not begin a subidentifier with 128, and is
//! not the fourth in a row of 128 or more. A subidentifier of plain octets is valid: it has at most four octets, as few
//! as can be, so its number is below 2^28.

ghost use Rattle.std.specs.Prelude.{◌≡◌, ℕ, ◌+◌, ◌-◌, ◌<◌, ◌≤◌, ◌++◌, false, length, slice_index, take, drop, MatchOption, None};
ghost use Rattle.const_oid.specs.Private.Octets.{ArePlain, fault_at, window_of};

use crate::fast::words::{HALF_OCTETS, WORD_OCTETS};

/// How many octets a window has, with the three before it that bear on its first one.
const SPAN: usize = 3 + WORD_OCTETS;

/// The high bit of each octet.
const HIGH: u64 = 0x8080_8080_8080_8080;

/// Whether an octet of a window is not plain. `before` has for each octet the one before it, and `two_before` the bits
/// that are set in both of the two before that.
#[inline(always)]
const fn is_odd(window: u64, before: u64, two_before: u64) -> bool
    ensures { result ≡ false → (k : ℕ) → k < 8 → (slice_index (window_of window) k ≡ 128 → 128 ≤ slice_index (window_of before) k)
        × (128 ≤ slice_index (window_of window) k → 128 ≤ slice_index (window_of before) k → slice_index (window_of two_before) k < 128) }
{
    window & (before & two_before | !((window & !HIGH) + !HIGH | before)) & HIGH != 0
}

/// Whether an octet of a window is not plain if none is before it.
#[inline(always)]
const fn is_odd_start(window: u64) -> bool
    ensures { result ≡ false → ArePlain (window_of window) 0 WORD_OCTETS }
{
    is_odd(window, window << 8, (window & window << 8) << 16)
}

/// The eight octets from an index on, the first the least significant.
#[inline(always)]
fn window(octets: &[u8], at: usize) -> u64
    requires { at + WORD_OCTETS ≤ length octets.now }
    ensures { window_of result ≡ take WORD_OCTETS (drop at octets.now) }
{
    match octets.split_at(at).1.first_chunk::<WORD_OCTETS>() {
        Some(window) => u64::from_le_bytes(*window),
        None => unreachable!(),
    }
}

/// The first four octets and the last four as a window.
#[inline(always)]
fn both_ends(octets: &[u8]) -> u64
    requires { HALF_OCTETS ≤ length octets.now }
    ensures { window_of result ≡ take HALF_OCTETS octets.now ++ drop (length octets.now - HALF_OCTETS) octets.now }
{
    match (
        octets.first_chunk::<HALF_OCTETS>(),
        octets.last_chunk::<HALF_OCTETS>(),
    ) {
        (Some(start), Some(end)) => u32::from_le_bytes(*start) as u64
            | (u32::from_le_bytes(*end) as u64) << 32,
        _ => unreachable!(),
    }
}

/// Whether an octet is not plain of the window after three octets.
#[inline(always)]
fn is_odd_after_three(octets: &[u8]) -> bool
    requires { SPAN ≤ length octets.now }
    ensures { result ≡ false → ArePlain octets.now 3 SPAN }
{
    let two_before = window(octets, 1) & window(octets, 0);
    is_odd(window(octets, 3), window(octets, 2), two_before)
}

/// Where the first window begins that has an octet that is not plain. The last one ends the octets, if the last octet
/// is below 128.
#[inline(always)]
fn first_odd(octets: &[u8]) -> Option<usize>
    requires some { 0 < length octets.now }
    requires ended { slice_index octets.now (length octets.now - 1) < 128 }
    ensures { MatchOption result (ArePlain octets.now 0 (length octets.now)) (λ at. (at ≤ length octets.now) × ArePlain octets.now 0 at) }
{
    let len = octets.len();
    if len < HALF_OCTETS {
        return (octets[0] | octets[len / 2] >= 128).then_some(0);
    }
    if len < WORD_OCTETS {
        return is_odd_start(both_ends(octets)).then_some(0);
    }
    if is_odd_start(window(octets, 0)) {
        return Some(0);
    }
    // Two windows that overlap by three. Most lengths from nine on take this branch, so it is predicted.
    if len <= 2 * WORD_OCTETS - 3 {
        return is_odd_start(window(octets, len - WORD_OCTETS)).then_some(len - WORD_OCTETS);
    }
    let (_, mut rest) = octets.split_at(WORD_OCTETS - 3);
    while rest.len() > SPAN {
        if is_odd_after_three(rest) {
            return Some(len - rest.len() + 3);
        }
        (_, rest) = rest.split_at(WORD_OCTETS);
    }
    is_odd_after_three(octets.split_at(len - SPAN).1).then_some(len - WORD_OCTETS)
}

/// The start of a subidentifier before which all are valid, or `None` if all are.
#[inline(always)]
pub(crate) fn first_doubtful(octets: &[u8]) -> Option<usize>
    requires { 0 < length octets.now }
    ensures { MatchOption result (fault_at octets.now 0 ≡ None)
        (λ start. (start ≤ length octets.now) × (fault_at octets.now 0 ≡ fault_at octets.now start)) }
{
    // Where a pointer has 32 bits, words take too much code.
    if usize::BITS < u64::BITS || octets[octets.len() - 1] >= 128 {
        return Some(0);
    }
    // Apart, so that the compiler leaves out the test of the index.
    let (before, _) = octets.split_at(first_odd(octets)?);
    let mut start = before.len();
    while start > 0 && before[start - 1] >= 128 {
        start -= 1;
    }
    Some(start)
}
