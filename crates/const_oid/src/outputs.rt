//! Octets and identifiers in outputs of the caller.

ghost use Rattle.std.specs.Prelude.{◌≡◌, ◌≢◌, ◌*◌, ◌<◌, ◌≤◌, ℕ, List, drop, length, min, Err, IfErr, IfOk, IfSome, MatchOption, MatchResult, None, Ok, ◌++◌};
ghost use Rattle.std.specs.Result.{result_err};
ghost use Rattle.const_oid.specs.Contents.{arcs_of_octets, borrowed_capacity, octet_fault, size_answer};
ghost use Rattle.const_oid.specs.Identifier.{root_rule, default_capacity};
ghost use Rattle.const_oid.specs.Items.{item_answer};
ghost use Rattle.const_oid.specs.OidRef.{ref_arcs, ref_slice, ref_octets};
ghost use Rattle.const_oid.specs.Output.{IsEncodedIn, Writes, WritesAll, WritesEncoding, written_over};
ghost use Rattle.const_oid.specs.Private.Parser.{error_of, place_of, NeedsNoStart};
ghost use Rattle.const_oid.specs.Stop.{component_at, error_at, IsWrongAt, IsWrongBelow};
ghost use Rattle.const_oid.specs.Text.{text_answer, text_of, FollowsArc};
ghost use Rattle.const_oid.specs.Tree.{BeginsWith};
ghost use Rattle.const_oid.specs.Typed.{dotted};

use crate::Arc;
use crate::base128::{checked_group, group_fault};
use crate::buffer::DEFAULT_CAPACITY;
use crate::encoder::{ONE_PASS_ARCS, encode, encode_in_one_pass};
use crate::error::{Error, Result};
use crate::oid_ref::ObjectIdentifierRef;
use crate::parser::{
    ONE_PASS_BYTES, Wrong, component_at, fault_of, parse, parse_in_one_pass, parse_inlined,
    parse_later,
};
use crate::root::{MAX_FIRST, split_root};
use crate::text::{text_len, write_dotted};
use std::result;

/// Parses dotted text in ASCII, of any length, and writes its contents octets to the start of `out`. Returns how many
/// there are, which are no more than the bytes of the text.
///
/// # Errors
///
/// Those of [`new`](crate::ObjectIdentifier::new), with [`Error::Length`] if the arcs take more octets than `out`
/// has. It is then unchanged.
pub fn bytes_from_ascii(text: &[u8], out: &mut [u8]) -> Result<usize>
    ensures written { let capacity = length out.old in WritesEncoding capacity (text_answer root_rule text.now capacity) out.old out.new result }
    ensures kept { IfErr result (λ _. out.new ≡ out.old) }
    ensures enough { length text.now ≤ length out.old → result ≢ Err Error.Length }
{
    if text.len() <= ONE_PASS_BYTES {
        return parse_in_one_pass(text, out);
    }
    let capacity = out.len();
    // The octets are counted first, so that on an error none is written.
    parse(text, &mut [], capacity)?;
    parse(text, out, capacity)
}

/// Counts the contents octets of arcs, any number of them. They are at most five for each arc.
///
/// # Errors
///
/// Those of [`from_arcs`](crate::ObjectIdentifier::from_arcs), with [`Error::Length`] if the arcs take more octets
/// than `limit`.
pub fn bytes_len_from_arcs(arcs: &[Arc], limit: usize) -> Result<usize>
    ensures len { result ≡ size_answer (item_answer root_rule arcs.now limit) }
    ensures enough { 5 * length arcs.now ≤ limit → result ≢ Err Error.Length }
{
    encode(arcs, &mut [], limit)
}

/// Encodes arcs, any number of them, and writes the contents octets to the start of `out`. Returns how many there
/// are, which are at most five for each arc.
///
/// # Errors
///
/// Those of [`from_arcs`](crate::ObjectIdentifier::from_arcs), with [`Error::Length`] if the arcs take more octets
/// than `out` has. It is then unchanged.
pub fn bytes_from_arcs(arcs: &[Arc], out: &mut [u8]) -> Result<usize>
    ensures written { let capacity = length out.old in WritesEncoding capacity (item_answer root_rule arcs.now capacity) out.old out.new result }
    ensures kept { IfErr result (λ _. out.new ≡ out.old) }
    ensures enough { 5 * length arcs.now ≤ length out.old → result ≢ Err Error.Length }
{
    if arcs.len() <= ONE_PASS_ARCS {
        return encode_in_one_pass(arcs, out);
    }
    let capacity = out.len();
    encode(arcs, &mut [], capacity)?;
    encode(arcs, out, capacity)
}

/// The length in bytes of the text that [`text_below`] writes, or `usize::MAX` if it is greater than that. 0 if the
/// arcs do not begin with the prefix.
pub fn text_below_len(oid: &ObjectIdentifierRef<'_>, prefix: &ObjectIdentifierRef<'_>) -> usize
    ensures other { (BeginsWith (ref_arcs oid.now) (ref_arcs prefix.now) → ⊥) → result ≡ 0 }
    ensures len { BeginsWith (ref_arcs oid.now) (ref_arcs prefix.now)
        → result ≡ min (length (dotted (drop (length (ref_arcs prefix.now)) (ref_arcs oid.now)))) usize.MAX }
{
    match oid.strip_prefix(prefix) {
        Some(arcs) => text_len(arcs, false, usize::MAX).unwrap_or(usize::MAX),
        None => 0,
    }
}

/// Writes a dot and the decimal of each arc after those of a prefix to the start of `out`, and returns the length of
/// this text in bytes. Returns `None` if it is longer than `out`, or if the arcs do not begin with the prefix; `out` is
/// then unchanged.
pub fn text_below(
    oid: &ObjectIdentifierRef<'_>,
    prefix: &ObjectIdentifierRef<'_>,
    out: &mut [u8],
) -> Option<usize>
    ensures written { BeginsWith (ref_arcs oid.now) (ref_arcs prefix.now)
        → Writes (dotted (drop (length (ref_arcs prefix.now)) (ref_arcs oid.now))) out.old out.new result }
    ensures other { (BeginsWith (ref_arcs oid.now) (ref_arcs prefix.now) → ⊥) → result ≡ None }
    ensures kept { result ≡ None → out.new ≡ out.old }
{
    text_len(oid.strip_prefix(prefix)?, false, out.len())?;
    Some(write_dotted(oid.strip_prefix(prefix)?, out, 0))
}

/// Where the reading of a wrong text stops: with the error of an arc, at the end of its component, or, without one,
/// within a component.
#[derive(Copy, Clone)]
pub struct Stop(pub Option<Error>, pub usize);

/// Where the reading stops, by what is wrong.
#[inline(always)]
const fn stop_of(wrong: Wrong) -> Stop
    ensures place { result.1 ≡ place_of wrong }
    ensures fault { (text : List ℕ) → place_of wrong ≤ length text → NeedsNoStart text wrong → error_at text result ≡ error_of text wrong }
{
    match wrong {
        Wrong::Component { index, .. } => Stop(None, index),
        Wrong::Value { fault, end } => Stop(Some(fault), end),
    }
}

/// The error of a wrong text, and the index of the component where its reading stops.
#[inline(always)]
pub fn fault_at_stop(text: &[u8], stop: Stop) -> (Error, usize)
    ensures fault { result.0 ≡ error_at text.now stop }
    ensures index { result.1 ≡ component_at text.now stop.1 }
{
    let end = stop.1.min(text.len());
    let wrong = match stop.0 {
        Some(fault) => Wrong::Value { fault, end },
        None => Wrong::Component {
            start: end,
            index: end,
        },
    };
    (fault_of(text, wrong).0, component_at(text, end))
}

/// Parses dotted text in ASCII into 39 octets, the default capacity, in one pass, and borrows those of its
/// identifier. On `Err`, `out` may be changed.
///
/// # Errors
///
/// Those of [`new`](crate::ObjectIdentifier::new), which [`fault_at_stop`] tells, with the index of the first wrong
/// component.
#[tactic(auto, using(crate::proofs::Appended::taken, crate::proofs::Encodings::none_from_encoding))]
#[inline(always)]
pub fn from_ascii_in_39<'a>(
    text: &[u8],
    out: &'a mut [u8; DEFAULT_CAPACITY],
) -> result::Result<ObjectIdentifierRef<'a>, Stop>
    ensures answer { MatchResult result (λ oid. text_answer root_rule text.now default_capacity ≡ Ok (ref_arcs oid))
        (IsWrongAt default_capacity text.now) }
    ensures start { IfOk result (λ oid. (ref_slice oid).ref_ptr ≡ out.entry.ref_ptr) }
{
    match parse_inlined(text, out, DEFAULT_CAPACITY) {
        Ok(len) => Ok(ObjectIdentifierRef::from_checked(&out[..len])),
        Err(wrong) => Err(stop_of(wrong)),
    }
}

/// Parses dotted text in ASCII, and counts the contents octets of its identifier. If `out` has room for a capacity,
/// they are written to its start; on `Err`, such an `out` may be changed. A shorter one is unchanged.
///
/// # Errors
///
/// Those of [`from_ascii_in_39`], with [`Error::Length`] if there are more octets than the capacity.
#[inline(never)]
pub fn parse_or_stop(text: &[u8], out: &mut [u8], capacity: usize) -> result::Result<usize, Stop>
    ensures answer { MatchResult result (IsEncodedIn capacity (text_answer root_rule text.now capacity) out.old out.new)
        (IsWrongAt capacity text.now) }
    ensures kept { length out.old < capacity → out.new ≡ out.old }
{
    match parse_inlined(text, out, capacity) {
        Ok(len) => Ok(len),
        Err(wrong) => Err(stop_of(wrong)),
    }
}

/// Counts and writes the contents octets of the arcs of an identifier, and then of those of a text in ASCII, each after
/// a dot, as [`parse_or_stop`] does. The identifier's own octets fit the capacity.
///
/// # Errors
///
/// Those of [`parse_or_stop`]. The text's first component is the last arc of the identifier.
#[inline(never)]
pub fn parse_below_or_stop(
    above: ObjectIdentifierRef<'_>,
    text: &[u8],
    out: &mut [u8],
    capacity: usize,
) -> result::Result<usize, Stop>
    requires follows { FollowsArc text.now }
    requires fits { length (ref_octets above) ≤ capacity }
    ensures answer { MatchResult result
        (IsEncodedIn capacity (text_answer root_rule (text_of (ref_arcs above.entry) ++ text.now) capacity) out.old out.new)
        (IsWrongBelow capacity (ref_arcs above.entry) text.now) }
    ensures kept { length out.old < capacity → out.new ≡ out.old }
    ensures grows { IfOk result (λ len. length (ref_octets above.entry) ≤ len) }
{
    let octets = above.as_bytes();
    copy_if_room(octets, out, capacity);
    match parse_later(text, 0, out, octets.len(), capacity) {
        Ok(len) => Ok(len),
        Err(wrong) => Err(stop_of(wrong)),
    }
}

/// Copies octets to the start of an output that has room for a capacity.
fn copy_if_room(octets: &[u8], out: &mut [u8], capacity: usize)
    requires { length octets.now ≤ capacity }
    ensures copied { capacity ≤ length out.old → out.new ≡ written_over octets.now out.old }
    ensures kept { length out.old < capacity → out.new ≡ out.old }
{
    if out.len() >= capacity {
        out[..octets.len()].copy_from_slice(octets);
    }
}

/// Decodes contents octets as [`from_bytes`](crate::ObjectIdentifierRef::from_bytes) does, writes their arcs to the
/// start of `out` in the same pass, and returns how many there are.
///
/// Returns `None` if `out` has no more arcs than there are octets; it is then unchanged. On `Ok`, what lies after the
/// arcs is unchanged. On `Err`, `out` may be changed.
#[inline(always)]
pub fn arcs_from_bytes(ber: &[u8], out: &mut [Arc]) -> Option<Result<usize>>
    ensures room { MatchOption result (length out.old ≤ length ber.now) (λ _. length ber.now < length out.old) }
    ensures fault { IfSome result (λ written. result_err written ≡ octet_fault root_rule ber.now borrowed_capacity) }
    ensures written { IfSome result (λ written. IfOk written (WritesAll (arcs_of_octets ber.now) out.old out.new)) }
    ensures kept { result ≡ None → out.new ≡ out.old }
{
    if out.len() <= ber.len() {
        return None;
    }
    Some(write_arcs(ber, out))
}

/// Decodes contents octets, and writes their arcs to the start of `out`.
#[inline(always)]
fn write_arcs(ber: &[u8], out: &mut [Arc]) -> Result<usize>
    requires { length ber.now < length out.old }
    ensures fault { result_err result ≡ octet_fault root_rule ber.now borrowed_capacity }
    ensures written { IfOk result (WritesAll (arcs_of_octets ber.now) out.old out.new) }
{
    if ber.is_empty() {
        return Err(Error::Empty);
    }
    let Some((root, mut rest)) = checked_group(ber, MAX_FIRST) else {
        return Err(group_fault(ber, MAX_FIRST));
    };
    let (first, second) = split_root(root);
    out[0] = first;
    out[1] = second;
    let mut len = 2;
    while !rest.is_empty() {
        let Some((arc, after)) = checked_group(rest, Arc::MAX as u64) else {
            return Err(group_fault(rest, Arc::MAX as u64));
        };
        out[len] = arc as Arc;
        len += 1;
        rest = after;
    }
    Ok(len)
}
