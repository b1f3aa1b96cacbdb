//! Dotted text to octets.
//!
//! A text is read component by component. If one is wrong, only an index is returned, and a function that is rarely
//! called makes the error of it. So a valid text costs fewer instructions.

ghost use Rattle.std.specs.Prelude.{◌≡◌, ◌≢◌, ◌<◌, ◌≤◌, ℕ, List, ◌++◌, drop, length, Err, IfErr, IfOk, MatchOption, MatchResult};
ghost use Rattle.const_oid.specs.Output.{IsEncodedIn, WritesEncoding};
ghost use Rattle.const_oid.specs.Private.Parser.{error_of, place_of, HasFault, IsFaultAt, IsFoundAfter, IsFoundAt, IsComponent, IsRoot, IsWrittenTo, NeedsNoStart};
ghost use Rattle.const_oid.specs.Contents.{arcs_of_octets};
ghost use Rattle.const_oid.specs.Identifier.{root_rule, IsEncoding};
ghost use Rattle.const_oid.specs.Stop.{component_at, or_trailing, stop_fault};
ghost use Rattle.const_oid.specs.Text.{text_answer, text_of, FollowsArc};

use crate::Arc;
use crate::base128::append_group;
use crate::error::{Error, Result};
use crate::fast::lanes::count_below;
use crate::parts::last_part;
use crate::root::{check_first, join_root};
use std::result;

/// What is wrong with a text.
#[derive(Copy, Clone)]
pub(crate) enum Wrong {
    /// The component that starts at an index goes wrong at another one.
    Component { start: usize, index: usize },
    /// An arc, whose component ends at an index.
    Value { fault: Error, end: usize },
}

/// The error of a text, and a place: a byte of the wrong component, or where it ends.
#[inline(always)]
pub(crate) const fn fault_of(text: &[u8], wrong: Wrong) -> (Error, usize)
    requires { place_of wrong ≤ length text.now }
    ensures fault { result.0 ≡ error_of text.now wrong }
    ensures place { result.1 ≡ place_of wrong }
{
    match wrong {
        Wrong::Component { start, index } => (component_fault(text, start, index), index),
        Wrong::Value { fault, end } => (or_trailing_dot(fault, text, end), end),
    }
}

/// The index of the component at a place, before which are digits and dots alone: only dots are below the digits.
#[cold]
#[inline(never)]
pub(crate) fn component_at(text: &[u8], place: usize) -> usize
    requires { place ≤ length text.now }
    ensures { result ≡ component_at text.now place }
{
    count_below(&text[..place], b'0')
}

/// The error of a text, and the index of its component, which `Length` has not.
#[inline(always)]
pub(crate) fn fault_and_index(text: &[u8], wrong: Wrong) -> (Error, Option<usize>)
    requires { place_of wrong ≤ length text.now }
    ensures fault { result.0 ≡ error_of text.now wrong }
    ensures index { MatchOption result.1 (result.0 ≡ Error.Length)
        (λ index. (result.0 ≢ Error.Length) × (index ≡ component_at text.now (place_of wrong))) }
{
    let (fault, place) = fault_of(text, wrong);
    let index = match fault {
        Error::Length => None,
        _ => Some(component_at(text, place)),
    };
    (fault, index)
}

/// `parse_inlined`, but not inlined: it is compiled once for all calls. An error has no place.
#[inline(never)]
pub(crate) fn parse(text: &[u8], out: &mut [u8], capacity: usize) -> Result<usize>
    ensures { WritesEncoding capacity (text_answer root_rule text.now capacity) out.old out.new result }
{
    match parse_inlined(text, out, capacity) {
        Ok(len) => Ok(len),
        Err(wrong) => Err(fault_of(text, wrong).0),
    }
}

/// The most bytes of a text that is parsed on the stack, and the most octets that it takes.
pub(crate) const ONE_PASS_BYTES: usize = 64;

/// Writes the encoding of the identifier that a text of at most `ONE_PASS_BYTES` denotes to the start of a slice, if it
/// fits, and returns its length. On an error the slice is unchanged.
// One pass in place of two: the octets are made on the stack.
pub(crate) fn parse_in_one_pass(text: &[u8], out: &mut [u8]) -> Result<usize>
    requires { length text.now ≤ ONE_PASS_BYTES }
    ensures written { let capacity = length out.old in WritesEncoding capacity (text_answer root_rule text.now capacity) out.old out.new result }
    ensures kept { IfErr result (λ _. out.new ≡ out.old) }
{
    let mut octets = [0; ONE_PASS_BYTES];
    let len = parse(text, &mut octets, out.len().min(ONE_PASS_BYTES))?;
    out[..len].copy_from_slice(&octets[..len]);
    Ok(len)
}

/// Writes the encoding that a text denotes to the start of a slice, if it fits a capacity, and returns its length.
// erase: const
#[inline(always)]
pub(crate) fn parse_inlined(
    text: &[u8],
    out: &mut [u8],
    capacity: usize,
) -> result::Result<usize, Wrong>
    ensures answer { MatchResult result (IsEncodedIn capacity (text_answer root_rule text.now capacity) out.old out.new)
        (λ wrong. IsFaultAt capacity text.now (error_of text.now wrong) (place_of wrong) × NeedsNoStart text.now wrong) }
    ensures kept { length out.old < capacity → out.new ≡ out.old }
{
    let (number, end) = match read_root(text) {
        Ok(root) => root,
        Err(wrong) => return Err(wrong),
    };
    let used = match append_group(out, 0, number, capacity) {
        Ok(used) => used,
        Err(fault) => return Err(Wrong::Value { fault, end }),
    };
    parse_later(text, end, out, used, capacity)
}

/// Appends the octets of the components after the dot at `end`, if there is one, to the first `used` octets of a slice,
/// if they fit a capacity, and returns how many there are.
// erase: const
#[inline(always)]
pub(crate) fn parse_later(
    text: &[u8],
    mut end: usize,
    out: &mut [u8],
    mut used: usize,
    capacity: usize,
) -> result::Result<usize, Wrong>
    requires { end ≤ length text.now }
    ensures answer { (front old : List ℕ) (offset : ℕ) → IsWrittenTo capacity front offset text.now old out.old used end
        → MatchResult result (IsEncodedIn capacity (text_answer root_rule (front ++ text.now) capacity) old out.new)
        (λ wrong. IsFoundAfter capacity front offset text.now (error_of text.now wrong) (place_of wrong) × NeedsNoStart text.now wrong) }
    ensures kept { length out.old < capacity → out.new ≡ out.old }
    ensures grows { IfOk result (λ len. used ≤ len) }
{
    while end + 1 < text.len() {
        let start = end + 1;
        let (arc, after) = match read_component(text, start) {
            Ok(component) => component,
            Err(index) => return Err(Wrong::Component { start, index }),
        };
        used = match append_group(out, used, arc as u64, capacity) {
            Ok(used) => used,
            Err(fault) => return Err(Wrong::Value { fault, end: after }),
        };
        end = after;
    }
    // Nothing is left, or a dot.
    if end < text.len() {
        let fault = Error::TrailingDot;
        return Err(Wrong::Value { fault, end });
    }
    Ok(used)
}

/// The subidentifier of the first two arcs, and where the second component ends.
// erase: const
#[inline(always)]
fn read_root(text: &[u8]) -> result::Result<(u64, usize), Wrong>
    ensures { MatchResult result (λ root. IsRoot text.now root.0 root.1)
        (λ wrong. ((capacity : ℕ) → IsFoundAt capacity text.now (error_of text.now wrong) (place_of wrong)) × NeedsNoStart text.now wrong) }
{
    let (first, end) = match read_component(text, 0) {
        Ok(component) => component,
        Err(index) => return Err(Wrong::Component { start: 0, index }),
    };
    if let Err(fault) = check_first(first) {
        return Err(Wrong::Value { fault, end });
    }
    let start = end + 1;
    if start >= text.len() {
        // With a dot after it, `fault_of` makes it `TrailingDot`.
        let fault = Error::Empty;
        return Err(Wrong::Value { fault, end });
    }
    let (second, end) = match read_component(text, start) {
        Ok(component) => component,
        Err(index) => return Err(Wrong::Component { start, index }),
    };
    match join_root(first, second) {
        Ok(number) => Ok((number, end)),
        Err(fault) => Err(Wrong::Value { fault, end }),
    }
}

/// The number of the component that starts at an index, and where it ends: at a dot or at the end of the text. `Err` is
/// where it goes wrong.
// erase: const
#[tactic(auto, using(crate::proofs::Components::digits_read))]
#[inline(always)]
fn read_component(text: &[u8], start: usize) -> result::Result<(Arc, usize), usize>
    requires { start ≤ length text.now }
    ensures { MatchResult result (λ component. IsComponent text.now start component.0 component.1)
        (λ index. HasFault text.now start (stop_fault text.now start index) index) }
{
    if start >= text.len() {
        return Err(start);
    }
    // One subtraction and one comparison, of words of the machine. There are no calls here, since each costs the
    // compiler in a constant.
    let first = (text[start] as usize).wrapping_sub(b'0' as usize);
    if first > 9 {
        return Err(start);
    }
    let mut index = start + 1;
    // A component of one digit is the most frequent one.
    if index < text.len() && text[index] == b'.' {
        return Ok((first as Arc, index));
    }
    let mut number = first as u64;
    while index < text.len() {
        let digit = (text[index] as usize).wrapping_sub(b'0' as usize);
        if digit > 9 {
            if text[index] != b'.' {
                return Err(index);
            }
            break;
        }
        number = number * 10 + digit as u64;
        if number > Arc::MAX as u64 {
            return Err(index);
        }
        index += 1;
    }
    Ok((number as Arc, index))
}

/// The error of the component that starts at an index and goes wrong at another one.
#[cold]
#[inline(never)]
const fn component_fault(text: &[u8], start: usize, index: usize) -> Error
    ensures { result ≡ stop_fault text.now start index }
{
    if index >= text.len() {
        return if start == 0 {
            Error::Empty
        } else {
            Error::TrailingDot
        };
    }
    match text[index] {
        b'0'..=b'9' => Error::ArcTooBig,
        b'.' if start > 0 => Error::RepeatedDot,
        actual => Error::DigitExpected { actual },
    }
}

/// The error of an arc whose component ends at an index, or `TrailingDot` if an empty last component follows.
#[cold]
#[inline(never)]
const fn or_trailing_dot(fault: Error, text: &[u8], end: usize) -> Error
    requires { end ≤ length text.now }
    ensures { result ≡ or_trailing fault (drop end text.now) }
{
    if end + 1 == text.len() {
        Error::TrailingDot
    } else {
        fault
    }
}

/// The error of the text of valid octets, which do not fit a capacity, and another text after it: `Length`, or
/// `TrailingDot` if only the last arc does not fit, and an empty last component follows it.
// erase: const
#[cold]
#[inline(never)]
pub(crate) fn long_fault(octets: &[u8], text: &[u8], capacity: usize) -> Error
    requires valid { IsEncoding root_rule (arcs_of_octets octets.now) octets.now }
    requires long { capacity < length octets.now }
    requires follows { FollowsArc text.now }
    ensures { text_answer root_rule (text_of (arcs_of_octets octets.now) ++ text.now) capacity ≡ Err result }
{
    let parent = last_part(octets);
    if capacity < parent {
        Error::Length
    } else {
        or_trailing_dot(Error::Length, text, 0)
    }
}
