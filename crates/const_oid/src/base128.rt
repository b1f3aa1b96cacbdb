//! The octets of one subidentifier, a number in base 128 (X.690, 8.19.2). In names, they are its `group`.

ghost use Rattle.std.specs.Prelude.{◌≡◌, ◌+◌, ◌*◌, ◌%◌, ◌^◌, ◌<◌, ◌≤◌, ◌∷◌, None, Some, length, map, slice_index, take, IfSome, MatchOption, MatchResult};
ghost use Rattle.const_oid.specs.Base128.{value_of, width};
ghost use Rattle.const_oid.specs.Contents.{cut, later_fault, parts_fault, max_first};
ghost use Rattle.const_oid.specs.Identifier.{root_rule, max_arc};
ghost use Rattle.const_oid.specs.Private.Groups.{IsFaulty, IsFirst};
ghost use Rattle.const_oid.specs.Private.Octets.{AppendsTo, fault_from};

use crate::Arc;
use crate::error::{Error, Result};
use crate::parts::CONTINUED;

/// The number of the first subidentifier, and the octets after it.
// Apart from `checked_group`, which tests what is known here: the row "arcs, all" of SPEED.
#[inline(always)]
pub(crate) fn read_group(octets: &[u8]) -> (u64, &[u8])
    requires { parts_fault root_rule (cut octets.now) ≡ None }
    ensures { IsFirst octets.now result.0 result.1.now }
{
    match octets {
        // A subidentifier of one octet is the most frequent one.
        [octet, after @ ..] if *octet < CONTINUED => (*octet as u64, after),
        octets => read_longer(octets),
    }
}

/// What `read_two_to_five` returns. rt's build zeroes the slot of a call's result where the calling function begins:
/// this one, and not `read_group`, which mostly reads one octet.
#[inline(always)]
fn read_longer(octets: &[u8]) -> (u64, &[u8])
    requires valid { parts_fault root_rule (cut octets.now) ≡ None }
    requires more { 128 ≤ slice_index octets.now 0 }
    ensures { IsFirst octets.now result.0 result.1.now }
{
    let (number, after) = read_two_to_five(octets);
    (number, after)
}

/// The number of the first subidentifier, of two to five octets, and the octets after it.
#[tactic(auto, using(crate::proofs::PartsFault::valid_read))]
#[inline(never)]
fn read_two_to_five(octets: &[u8]) -> (u64, &[u8])
    requires valid { parts_fault root_rule (cut octets.now) ≡ None }
    requires more { 128 ≤ slice_index octets.now 0 }
    ensures { IsFirst octets.now result.0 result.1.now }
{
    // The arms that return 0 are not reached, since a subidentifier of valid octets ends, within five octets.
    match octets {
        [a, b, after @ ..] if *b < CONTINUED => (add_digit(add_digit(0, *a), *b), after),
        [a, b, c, after @ ..] => {
            let number = add_digit(add_digit(add_digit(0, *a), *b), *c);
            if *c < CONTINUED {
                return (number, after);
            }
            match after {
                [d, after @ ..] if *d < CONTINUED => (add_digit(number, *d), after),
                [d, e, after @ ..] => (add_digit(add_digit(number, *d), *e), after),
                _ => (0, &[]),
            }
        }
        _ => (0, &[]),
    }
}

/// The number of the first subidentifier, at most a limit, and the octets after it, or `None` if it is not valid.
#[tactic(auto, using(crate::proofs::PartsFault::groups_read))]
#[inline(always)]
pub(crate) fn checked_group(octets: &[u8], limit: u64) -> Option<(u64, &[u8])>
    requires some { 0 < length octets.now }
    requires wide { max_arc ≤ limit }
    requires small { limit ≤ max_first root_rule }
    ensures read { MatchOption result (IsFaulty limit octets.now)
        (λ group. (fault_from limit (cut octets.now) ≡ later_fault (cut group.1.now)) × (group.0 ≤ limit)) }
    ensures number { IfSome result (λ group. map value_of (cut octets.now) ≡ group.0 ∷ map value_of (cut group.1.now)) }
    ensures width { IfSome result (λ group. width group.0 + length group.1.now ≤ length octets.now) }
    ensures shorter { IfSome result (λ group. length group.1.now < length octets.now) }
{
    match octets {
        [a, after @ ..] if *a < CONTINUED => Some((*a as u64, after)),
        [a, ..] if *a == CONTINUED => None,
        [a, b, after @ ..] if *b < CONTINUED => Some((add_digit(add_digit(0, *a), *b), after)),
        [a, b, c, after @ ..] if *c < CONTINUED => Some((
            add_digit(add_digit(add_digit(0, *a), *b), *c),
            after,
        )),
        [a, b, c, d, after @ ..] if *d < CONTINUED => Some((
            add_digit(add_digit(add_digit(add_digit(0, *a), *b), *c), *d),
            after,
        )),
        [_, _, _, _, e, after @ ..] if *e < CONTINUED && number_of_five(octets) <= limit => {
            Some((number_of_five(octets), after))
        }
        _ => None,
    }
}

/// The error of the first subidentifier, which is not valid.
#[tactic(auto, using(crate::proofs::PartsFault::group_faults))]
#[cold]
#[inline]
pub(crate) fn group_fault(octets: &[u8], limit: u64) -> Error
    requires some { 0 < length octets.now }
    requires wide { max_arc ≤ limit }
    requires small { limit ≤ max_first root_rule }
    requires faulty { IsFaulty limit octets.now }
    ensures { fault_from limit (cut octets.now) ≡ Some result }
{
    if octets[0] == CONTINUED || octets.len() < 5 {
        return Error::Base128;
    }
    if number_of_five(octets) > limit || octets.len() > 5 {
        return Error::ArcTooBig;
    }
    Error::Base128
}

/// The number of five octets.
#[inline(always)]
fn number_of_five(octets: &[u8]) -> u64
    requires { 5 ≤ length octets.now }
    ensures { result ≡ value_of (take 5 octets.now) }
{
    let high = add_digit(add_digit(add_digit(0, octets[0]), octets[1]), octets[2]);
    add_digit(add_digit(high, octets[3]), octets[4])
}

/// A number with one more digit in base 128.
#[inline(always)]
fn add_digit(high: u64, octet: u8) -> u64
    requires { high < 2 ^ 35 }
    ensures { result ≡ high * 128 + octet % 128 }
{
    high * 128 + (octet % 128) as u64
}

/// Appends the subidentifier of a number to the first `used` octets of a slice, if they then fit a capacity, and
/// returns how many there are. A slice that is shorter than the capacity is not written to: octets are counted alone.
// erase: const
#[inline(always)]
pub(crate) fn append_group(
    out: &mut [u8],
    used: usize,
    number: u64,
    capacity: usize,
) -> Result<usize>
    requires { number < 2 ^ 35 }
    ensures appends { AppendsTo capacity number used out.old out.new result }
    ensures kept { length out.old < capacity → out.new ≡ out.old }
{
    if out.len() < capacity {
        return count_group(used, number, capacity);
    }
    let mut at = used;
    let mut last = number;
    if number >= 0x80 {
        if number >= 0x4000 {
            // A literal number of turns is unrolled at opt-level 3.
            let mut shift: u32 = 28;
            while shift > 7 {
                if number >> shift > 0 {
                    if at >= capacity {
                        return Err(Error::Length);
                    }
                    out[at] = CONTINUED + ((number >> shift) % 128) as u8;
                    at += 1;
                }
                shift -= 7;
            }
        }
        if at >= capacity {
            return Err(Error::Length);
        }
        out[at] = CONTINUED + ((number >> 7) % 128) as u8;
        at += 1;
        last = number % 128;
    }
    if at >= capacity {
        return Err(Error::Length);
    }
    out[at] = last as u8;
    Ok(at + 1)
}

/// How many octets `used` ones and the subidentifier of a number are, if they fit a capacity.
// erase: const
#[tactic(auto, using(crate::proofs::Groups::widths_on))]
#[inline]
fn count_group(used: usize, number: u64, capacity: usize) -> Result<usize>
    ensures { MatchResult result (λ end. (end ≡ used + width number) × (end ≤ capacity))
        (λ fault. (fault ≡ Error.Length) × (capacity < used + width number)) }
{
    let mut end = used;
    let mut rest = number;
    while rest >= 0x80 {
        if end >= capacity {
            return Err(Error::Length);
        }
        end += 1;
        rest >>= 7;
    }
    if end >= capacity {
        return Err(Error::Length);
    }
    Ok(end + 1)
}
