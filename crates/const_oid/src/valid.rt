//! Checks of contents octets (X.690, 8.19.2).

ghost use Rattle.std.specs.Prelude.{◌≡◌, ◌↔◌, ◌+◌, ◌<◌, ◌≤◌, IsTrue, length, slice_index, take, drop};
ghost use Rattle.std.specs.Result.{result_err};
ghost use Rattle.const_oid.specs.Base128.{value_of};
ghost use Rattle.const_oid.specs.Contents.{cut, parts_fault};
ghost use Rattle.const_oid.specs.Identifier.{root_rule};
ghost use Rattle.const_oid.specs.Private.Groups.{IsPastFour};
ghost use Rattle.const_oid.specs.Private.Octets.{EndsAt, fault_at, limit_at};

use crate::error::{Error, Result};
use crate::fast::windows::first_doubtful;
use crate::fast::words::half_word;

/// Checks contents octets of any length, or returns their error.
// By windows, for fewer instructions: the row "from_bytes, borrowed" of SPEED.
#[tactic(auto, using(crate::proofs::PartsFault::parts_at))]
#[inline(never)]
pub(crate) fn check(octets: &[u8]) -> Result<()>
    ensures { result_err result ≡ parts_fault root_rule (cut octets.now) }
{
    if octets.is_empty() {
        return Err(Error::Empty);
    }
    if let Some(start) = first_doubtful(octets) {
        return check_from(octets, start);
    }
    Ok(())
}

/// What `check_by_octet` returns. rt's build zeroes the slot of a call's result where the calling function begins: this
/// one, and not `check`, for which windows are mostly enough.
#[inline(always)]
fn check_from(octets: &[u8], start: usize) -> Result<()>
    requires { start ≤ length octets.now }
    ensures { result_err result ≡ fault_at octets.now start }
{
    check_by_octet(octets, start)
}

/// Checks the subidentifiers from the one on that begins at `start`, octet by octet.
// By index, and not by `checked_group`, for fewer instructions. Out of line, for less code.
#[tactic(auto, using(crate::proofs::PartEnds::end_one))]
#[inline(never)]
fn check_by_octet(octets: &[u8], start: usize) -> Result<()>
    requires { start ≤ length octets.now }
    ensures { result_err result ≡ fault_at octets.now start }
{
    let mut at = start;
    while at < octets.len() {
        let start = at;
        at += 1;
        // A subidentifier of one octet is the most frequent one.
        if octets[start] < 128 {
            continue;
        }
        at = match two_or_more_end(octets, start) {
            Ok(end) => end,
            Err(fault) => return Err(fault),
        };
    }
    Ok(())
}

/// The index after the subidentifier of two octets or more that begins at `start`, or its error.
#[tactic(auto, using(crate::proofs::PartEnds::more_at))]
#[inline(always)]
fn two_or_more_end(octets: &[u8], start: usize) -> Result<usize>
    requires inside { start < length octets.now }
    requires more { 128 ≤ slice_index octets.now start }
    ensures { EndsAt octets.now start result }
{
    // The octet is 128 or more, so this is whether it is 128. Compared with 128, it takes more instructions.
    if octets[start] % 128 == 0 {
        return Err(Error::Base128);
    }
    for len in 1..4 {
        if start + len >= octets.len() {
            return Err(Error::Base128);
        }
        if octets[start + len] < 128 {
            return Ok(start + len + 1);
        }
    }
    five_end(octets, start)
}

/// The index after the subidentifier that begins at `start`, and does not end within four octets, or its error.
#[tactic(auto, using(crate::proofs::PartEnds::five_ends))]
#[inline(always)]
fn five_end(octets: &[u8], start: usize) -> Result<usize>
    requires inside { start < length octets.now }
    requires past_four { IsPastFour (drop start octets.now) }
    ensures { EndsAt octets.now start result }
{
    let last = start + 4;
    if last >= octets.len() {
        return Err(Error::Base128);
    }
    if !is_in_range(octets, start) {
        return Err(Error::ArcTooBig);
    }
    if octets[last] < 128 {
        return Ok(last + 1);
    }
    if last + 1 == octets.len() {
        return Err(Error::Base128);
    }
    Err(Error::ArcTooBig)
}

/// Whether five octets, of the subidentifier that begins at `start`, are a number in its range. Numbers below 2^32 have
/// a first digit below 16. Those from there to the greatest first subidentifier have the digits 16, 0, 0, 0 and one
/// below 80.
// The number is not made, for less code: the row `from_bytes` of SPEED's sizes.
#[inline(always)]
fn is_in_range(octets: &[u8], start: usize) -> bool
    requires inside { start + 4 < length octets.now }
    requires past_four { IsPastFour (drop start octets.now) }
    ensures { IsTrue result ↔ (value_of (take 5 (drop start octets.now)) ≤ limit_at start) }
{
    octets[start] < 0x90 || start == 0 && half_word(octets) == 0x9080_8080 && octets[4] % 128 < 80
}
