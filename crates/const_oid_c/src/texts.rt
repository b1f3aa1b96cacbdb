//! Dotted text.
ghost use Rattle.std.specs.Prelude.{◌≡◌, ◌≢◌, ◌≤◌, [], false, true, length, Err, MatchResult, Some};
ghost use Rattle.std.specs.Str.{is_utf8, IsAscii};
ghost use Rattle.const_oid.specs.Text.{components_of, text_of, text_answer, wrong_index};
ghost use Rattle.const_oid.specs.Identifier.{root_rule, default_capacity};
ghost use Rattle.const_oid.specs.OidRef.{ref_arcs};
ghost use Rattle.const_oid.specs.Stop.{component_at, error_at, IsWrongAt};
ghost use Rattle.const_oid_c.specs.Status.{fault_at, max_len, output_status, output_after};
ghost use Rattle.const_oid_c.specs.Results.{octets_of_text, octets_of_bytes_below, octets_of_text_below, output_of, borrowed_answer};

use crate::order::MAX_OCTETS;
use crate::output::write_bytes;
use crate::status::{
    LENGTH, NOT_UTF8, OUTPUT_TOO_SHORT, Status, code_status, error_status, fault_at, len_status,
    too_short_status,
};
use const_oid::outputs::Stop;
use const_oid::{Error, ObjectIdentifierRef, Oid, outputs};
use std::str;

/// Writes the contents octets of the identifier that dotted text denotes.
#[unsafe(no_mangle)]
pub extern "C" fn const_oid_from_text(text: &[u8], out: &mut [u8]) -> Status
    ensures status { result ≡ output_status (length out.old) (octets_of_text text.now) }
    ensures written { out.new ≡ output_after out.old (octets_of_text text.now) }
    ensures enough { length text.now ≤ length out.old → result.code ≢ OUTPUT_TOO_SHORT }
    ensures no_length { result.code ≢ LENGTH }
{
    // An identifier of the default capacity is quicker to make.
    let mut octets = [0; Oid::MAX_SIZE];
    // An octet takes four bytes of text at most, but for leading zeros.
    let stop = if text.len() > 4 * Oid::MAX_SIZE {
        Stop(Some(Error::Length), 0)
    } else {
        match outputs::from_ascii_in_39(text, &mut octets) {
            Ok(oid) => return write_bytes(oid.as_bytes(), out),
            Err(stop) => stop,
        }
    };
    read_again(text, out, stop)
}

/// Writes the contents octets of the identifier that dotted text denotes, or reports its error, by where the reading
/// stops at the default capacity. Where that is `Length`, the octets may fit a greater one.
// All that is left is in one call, so that a short text takes fewer instructions.
// erase: extern "C"
#[cold]
#[inline(never)]
fn read_again(text: &[u8], out: &mut [u8], stop: Stop) -> Status
    requires { stop.0 ≢ Some Error.Length → IsWrongAt default_capacity text.now stop }
    ensures status { result ≡ output_status (length out.old) (octets_of_text text.now) }
    ensures written { out.new ≡ output_after out.old (octets_of_text text.now) }
{
    let mut stop = stop;
    if is_length(stop) {
        match read_long_text(text, out) {
            Ok(status) => return status,
            Err(other) => stop = other,
        }
    }
    // Only a wrong text can fail to be UTF-8: a valid one has ASCII digits and dots alone.
    if !is_utf8(text) {
        return code_status(NOT_UTF8);
    }
    let (fault, index) = outputs::fault_at_stop(text, stop);
    fault_at(index, fault)
}

/// Whether the reading stops at octets that do not fit.
#[inline(always)]
fn is_length(stop: Stop) -> bool
    ensures { result ≡ false → stop.0 ≢ Some Error.Length }
{
    matches!(stop.0, Some(Error::Length))
}

/// Writes the contents octets of the identifier that dotted text denotes, of any length, or counts those that do not
/// fit. Up to 255 octets are made on the stack.
#[inline(never)]
fn read_long_text(text: &[u8], out: &mut [u8]) -> Result<Status, Stop>
    ensures { MatchResult result
        (λ status. (status ≡ output_status (length out.old) (octets_of_text text.now)) × (out.new ≡ output_after out.old (octets_of_text text.now)))
        (λ stop. IsWrongAt max_len text.now stop × (out.new ≡ out.old)) }
{
    if text.len() <= 4 * MAX_OCTETS {
        let mut octets = [0; MAX_OCTETS];
        match outputs::parse_or_stop(text, &mut octets, MAX_OCTETS) {
            Ok(len) => return Ok(write_bytes(&octets[..len], out)),
            Err(stop) if is_length(stop) => (),
            Err(stop) => return Err(stop),
        }
    }
    let len = outputs::parse_or_stop(text, &mut [], usize::MAX)?;
    if len > out.len() {
        return Ok(too_short_status(len));
    }
    let _ = outputs::parse_or_stop(text, out, len);
    Ok(len_status(len))
}

/// Writes the contents octets of the identifier with the arcs of octets and then those of a text, each after a dot.
#[unsafe(no_mangle)]
pub extern "C" fn const_oid_from_text_below(octets: &[u8], text: &[u8], out: &mut [u8]) -> Status
    ensures status { result ≡ output_status (length out.old) (octets_of_text_below octets.now text.now) }
    ensures written { out.new ≡ output_after out.old (octets_of_text_below octets.now text.now) }
{
    let oid = match ObjectIdentifierRef::from_bytes(octets) {
        Ok(oid) => oid,
        Err(fault) => return error_status(fault),
    };
    match write_below(oid, text, out) {
        Ok(status) => status,
        Err((fault, index)) if is_utf8(text) => fault_at(index, fault),
        Err(_) => code_status(NOT_UTF8),
    }
}

/// Writes the contents octets of an identifier and then those of a text, or counts those that do not fit. An error has
/// the index of its component.
fn write_below(
    above: ObjectIdentifierRef<'_>,
    text: &[u8],
    out: &mut [u8],
) -> Result<Status, (Error, usize)>
    ensures { let octets = octets_of_bytes_below (ref_arcs above.entry) text.now in MatchResult result
        (λ status. (is_utf8 text.now ≡ true) × (status ≡ output_status (length out.old) octets) × (out.new ≡ output_after out.old octets))
        (λ wrong. (octets ≡ Err (fault_at wrong.1 wrong.0)) × (out.new ≡ out.old)) }
{
    match text.first() {
        Some(actual) if *actual != b'.' => return Err((
            Error::DigitExpected { actual: *actual },
            0,
        )),
        _ => (),
    }
    match outputs::parse_below_or_stop(above, text, &mut [], usize::MAX) {
        Ok(len) if len > out.len() => Ok(too_short_status(len)),
        Ok(len) => {
            let _ = outputs::parse_below_or_stop(above, text, out, len);
            Ok(len_status(len))
        }
        Err(stop) => Err(outputs::fault_at_stop(text, stop)),
    }
}

/// Whether a text is UTF-8: most wrong ones are ASCII, which is seen in fewer steps.
#[tactic(auto, using(crate::proofs::Writes::texts))]
fn is_utf8(text: &[u8]) -> bool
    ensures { result ≡ is_utf8 text.now }
{
    has_no_high_bit(text) || str::from_utf8(text).is_ok()
}

/// The high bit of each byte of a word. That of `const_oid`, in windows, is not public.
const HIGH: u64 = 0x8080_8080_8080_8080;

/// Whether a text is ASCII, by words of eight bytes. The last one may overlap the one before it.
fn has_no_high_bit(text: &[u8]) -> bool
    ensures { result ≡ true → IsAscii text.now }
{
    let Some(last) = text.last_chunk::<8>() else {
        return text.is_ascii();
    };
    let mut bits = u64::from_le_bytes(*last);
    let mut rest = text;
    while let Some((word, after)) = rest.split_first_chunk::<8>() {
        bits |= u64::from_le_bytes(*word);
        rest = after;
    }
    bits & HIGH == 0
}

/// The room for the text of 16 octets: four bytes for each octet, and eleven for one arc more.
const ROOM_FOR_16_OCTETS: usize = 4 * 16 + 11;

/// The room for the text of 255 octets.
const ROOM_FOR_255_OCTETS: usize = 4 * MAX_OCTETS + 11;

/// Writes the dotted text of contents octets of any length. No zero byte follows it.
///
/// The octets are checked as they are printed, so the text is made on the stack: on an error the output is unchanged.
/// Most identifiers have few octets, and the less room there is, the sooner it is set to zero.
#[tactic(auto, using(const_oid::proofs::Sets::bytes_put))]
#[unsafe(no_mangle)]
pub extern "C" fn const_oid_to_text(octets: &[u8], out: &mut [u8]) -> Status
    ensures status { result ≡ output_status (length out.old) (output_of text_of (borrowed_answer octets.now)) }
    ensures written { out.new ≡ output_after out.old (output_of text_of (borrowed_answer octets.now)) }
{
    let mut text = [0; ROOM_FOR_16_OCTETS];
    match ObjectIdentifierRef::text_from_bytes(octets, &mut text) {
        Some(Ok(len)) => write_bytes(&text[..len], out),
        Some(Err(fault)) => error_status(fault),
        None => print_past_16_octets(octets, out),
    }
}

/// Writes the dotted text of contents octets of any length, made on the stack if they are 255 or fewer.
// erase: extern "C"
#[tactic(auto, using(const_oid::proofs::Sets::bytes_put))]
#[inline(never)]
fn print_past_16_octets(octets: &[u8], out: &mut [u8]) -> Status
    ensures status { result ≡ output_status (length out.old) (output_of text_of (borrowed_answer octets.now)) }
    ensures written { out.new ≡ output_after out.old (output_of text_of (borrowed_answer octets.now)) }
{
    let mut text = [0; ROOM_FOR_255_OCTETS];
    match ObjectIdentifierRef::text_from_bytes(octets, &mut text) {
        Some(Ok(len)) => write_bytes(&text[..len], out),
        Some(Err(fault)) => error_status(fault),
        None => print_past_255_octets(octets, out),
    }
}

/// Writes the dotted text of contents octets of any length, and reads them twice.
// erase: extern "C"
#[inline(never)]
fn print_past_255_octets(octets: &[u8], out: &mut [u8]) -> Status
    ensures status { result ≡ output_status (length out.old) (output_of text_of (borrowed_answer octets.now)) }
    ensures written { out.new ≡ output_after out.old (output_of text_of (borrowed_answer octets.now)) }
{
    let oid = match ObjectIdentifierRef::from_bytes(octets) {
        Ok(oid) => oid,
        Err(fault) => return error_status(fault),
    };
    match oid.encode_text(out) {
        Some(len) => len_status(len),
        None => too_short_status(oid.text_len()),
    }
}
