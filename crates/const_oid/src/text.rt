//! Arcs as text: their decimals joined by dots.
ghost use Rattle.std.specs.Prelude.{◌≡◌, ◌+◌, ◌*◌, ◌<◌, ◌≤◌, ◌++◌, length, take, drop, false, None, MatchOption, IfOk};
ghost use Rattle.std.specs.Result.{result_err};
ghost use Rattle.const_oid.specs.Contents.{cut, parts_fault, arcs_of_octets};
ghost use Rattle.const_oid.specs.Identifier.{root_rule};
ghost use Rattle.const_oid.specs.Output.{WritesAll};
ghost use Rattle.const_oid.specs.Text.{text_of};
ghost use Rattle.const_oid.specs.Private.Text.{arc_text, arcs_text};
ghost use Rattle.const_oid.specs.Typed.{dotted};

use crate::Arc;
use crate::arcs::Arcs;
use crate::base128::{checked_group, group_fault, read_group};
use crate::digits::{MAX_ARC_LEN, arc_len, write_arc};
use crate::error::{Error, Result};
use crate::root::{MAX_FIRST, split_root};

/// The length in bytes of the arcs' text, with a dot before them unless they are the first, or `None` if it is over a
/// limit.
#[tactic(auto, using(crate::proofs::Sets::texts_left))]
#[inline]
pub(crate) fn text_len(arcs: Arcs<'_>, are_first: bool, limit: usize) -> Option<usize>
    ensures { MatchOption result (limit < length (arcs_text are_first arcs.entry))
        (λ len. (len ≡ length (arcs_text are_first arcs.entry)) × (len ≤ limit)) }
{
    let mut left = limit;
    let mut is_first = are_first;
    for arc in arcs {
        let len = arc_len(arc, is_first);
        if left < len {
            return None;
        }
        left -= len;
        is_first = false;
    }
    Some(limit - left)
}

/// Writes a dot and the decimal of each arc at an index, and returns the index after them.
#[inline]
pub(crate) fn write_dotted(arcs: Arcs<'_>, out: &mut [u8], at: usize) -> usize
    requires { at + length (dotted arcs) ≤ length out.old }
    ensures end { result ≡ at + length (dotted arcs.entry) }
    ensures prefix { take result out.new ≡ take at out.old ++ dotted arcs.entry }
    ensures after { drop result out.new ≡ drop result out.old }
{
    let mut end = at;
    for arc in arcs {
        end = write_arc(arc, out, end);
    }
    end
}

/// Writes the text of the arcs of valid octets at the start, and returns its length.
// Not over `Arcs`, for less time: the workload `trace` of PERF.
#[inline]
pub(crate) fn write_text(octets: &[u8], out: &mut [u8]) -> usize
    requires valid { parts_fault root_rule (cut octets.now) ≡ None }
    requires room { length (text_of (arcs_of_octets octets.now)) ≤ length out.old }
    ensures { WritesAll (text_of (arcs_of_octets octets.now)) out.old out.new result }
{
    let (root, mut rest) = read_group(octets);
    let (first, mut arc) = split_root(root);
    out[0] = b'0' + first as u8;
    let mut at = 1;
    // An arc is written at one place, which takes the most code.
    loop {
        at = write_arc(arc, out, at);
        if rest.is_empty() {
            return at;
        }
        let (number, after) = read_group(rest);
        arc = number as Arc;
        rest = after;
    }
}

/// Checks octets and writes the text of their arcs at the start, in one pass, or returns their error. There is room for
/// four bytes an octet, and one arc more. On an error, some of the text may be written.
#[tactic(auto, using(crate::proofs::Printed::printed_pass, crate::proofs::Decimals::drop_more))]
#[inline(always)]
pub(crate) fn write_checked(octets: &[u8], out: &mut [u8]) -> Result<usize>
    requires { 4 * length octets.now + MAX_ARC_LEN ≤ length out.old }
    ensures fault { result_err result ≡ parts_fault root_rule (cut octets.now) }
    ensures written { IfOk result (WritesAll (text_of (arcs_of_octets octets.now)) out.old out.new) }
{
    if octets.is_empty() {
        return Err(Error::Empty);
    }
    let (root, mut rest) = match checked_group(octets, MAX_FIRST) {
        Some(group) => group,
        None => return Err(group_fault(octets, MAX_FIRST)),
    };
    let (first, second) = split_root(root);
    out[0] = b'0' + first as u8;
    let mut at = write_later(second, out, 1);
    while !rest.is_empty() {
        let (arc, after) = match checked_group(rest, Arc::MAX as u64) {
            Some(group) => group,
            None => return Err(group_fault(rest, Arc::MAX as u64)),
        };
        at = write_later(arc as Arc, out, at);
        rest = after;
    }
    Ok(at)
}

/// Writes an arc and the dot before it at an index, after which any arc has room, and returns the index after it.
#[inline(always)]
fn write_later(arc: Arc, out: &mut [u8], at: usize) -> usize
    requires { at + MAX_ARC_LEN ≤ length out.old }
    ensures end { result ≡ at + length (arc_text false arc) }
    ensures prefix { take result out.new ≡ take at out.old ++ arc_text false arc }
    ensures after { drop result out.new ≡ drop result out.old }
    ensures within { result ≤ length out.new }
{
    // The length of this slice is a literal, so rustc checks no index in it.
    // erase: another body
    at + write_arc(arc, &mut out[at..at + MAX_ARC_LEN], 0)
}
