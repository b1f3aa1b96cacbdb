//! Octets to arcs, and arcs to octets.
ghost use Rattle.std.specs.Prelude.{◌≡◌, ◌≢◌, ◌*◌, ◌≤◌, length, take, drop, min, slice_get};
ghost use Rattle.const_oid.specs.Identifier.{root_rule};
ghost use Rattle.const_oid.specs.Items.{item_answer};
ghost use Rattle.const_oid.specs.Oid.{oid_answer};
ghost use Rattle.const_oid.specs.Output.{WritesAll};
ghost use Rattle.const_oid_c.specs.Status.{max_len, output_status, output_after, len_status};
ghost use Rattle.const_oid_c.specs.Results.{octets_of_arcs, output_of, status_of, borrowed_answer, arc_status};

use crate::order::MAX_OCTETS;
use crate::output::write_octets;
use crate::status::{
    LENGTH, NONE, OUTPUT_TOO_SHORT, Status, code_status, error_status, len_status, number_status,
    too_short_status,
};
use const_oid::{Arcs, Error, ObjectIdentifier, ObjectIdentifierRef, Oid, Result, outputs};

/// Checks contents octets of any length.
#[unsafe(no_mangle)]
pub extern "C" fn const_oid_check(octets: &[u8]) -> Status
    ensures { result ≡ status_of (λ _. len_status 0) (borrowed_answer octets.now) }
{
    match ObjectIdentifierRef::from_bytes(octets) {
        Ok(_) => len_status(0),
        Err(fault) => error_status(fault),
    }
}

/// Counts the arcs of contents octets of any length.
#[unsafe(no_mangle)]
pub extern "C" fn const_oid_len(octets: &[u8]) -> Status
    ensures { result ≡ status_of (λ arcs. len_status (length arcs)) (borrowed_answer octets.now) }
{
    match ObjectIdentifierRef::from_bytes(octets) {
        Ok(oid) => len_status(oid.len()),
        Err(fault) => error_status(fault),
    }
}

/// Finds the arc at an index, counted from 0, in contents octets of any length.
#[unsafe(no_mangle)]
pub extern "C" fn const_oid_arc(octets: &[u8], index: usize) -> Status
    ensures { result ≡ status_of (λ arcs. arc_status (slice_get arcs index)) (borrowed_answer octets.now) }
{
    match ObjectIdentifierRef::from_bytes(octets) {
        Ok(oid) => match oid.arc(index) {
            Some(arc) => number_status(arc),
            None => code_status(NONE),
        },
        Err(fault) => error_status(fault),
    }
}

/// Writes the contents octets of arcs.
#[tactic(auto, using(crate::proofs::Capacities::same_arcs))]
#[unsafe(no_mangle)]
pub extern "C" fn const_oid_from_arcs(arcs: &[u32], out: &mut [u8]) -> Status
    ensures status { result ≡ output_status (length out.old) (octets_of_arcs (item_answer root_rule arcs.now max_len)) }
    ensures written { out.new ≡ output_after out.old (octets_of_arcs (item_answer root_rule arcs.now max_len)) }
    ensures enough { 5 * length arcs.now ≤ length out.old → result.code ≢ OUTPUT_TOO_SHORT }
    ensures no_length { result.code ≢ LENGTH }
{
    // An identifier of the default capacity is quicker to make.
    match encoded::<{ Oid::MAX_SIZE }>(arcs) {
        Err(Error::Length) => write_long_arcs(arcs, out),
        oid => write_octets(oid, out),
    }
}

/// Writes the contents octets of arcs, any number of them, or counts those that do not fit. An identifier of up to 255
/// octets is quicker to make.
// erase: extern "C"
#[tactic(auto, using(crate::proofs::Capacities::same_arcs))]
#[inline(never)]
fn write_long_arcs(arcs: &[u32], out: &mut [u8]) -> Status
    ensures status { result ≡ output_status (length out.old) (octets_of_arcs (item_answer root_rule arcs.now max_len)) }
    ensures written { out.new ≡ output_after out.old (octets_of_arcs (item_answer root_rule arcs.now max_len)) }
{
    match encoded::<MAX_OCTETS>(arcs) {
        Err(Error::Length) => match outputs::bytes_from_arcs(arcs, out) {
            Ok(len) => len_status(len),
            // At the greatest limit, the error of any other kind is the same.
            Err(_) => match outputs::bytes_len_from_arcs(arcs, usize::MAX) {
                Ok(len) => too_short_status(len),
                Err(fault) => error_status(fault),
            },
        },
        oid => write_octets(oid, out),
    }
}

/// The identifier that has these arcs.
pub(crate) fn encoded<const N: usize>(arcs: &[u32]) -> Result<ObjectIdentifier<N>>
    ensures { oid_answer result ≡ item_answer root_rule arcs.now (min N MAX_OCTETS) }
{
    ObjectIdentifier::<N>::from_arcs_sized(arcs.iter().copied())
}

/// Writes all arcs of contents octets of any length.
///
/// The octets are checked as they are read, so the arcs are made on the stack: on an error the output is unchanged.
#[unsafe(no_mangle)]
pub extern "C" fn const_oid_arcs(octets: &[u8], out: &mut [u32]) -> Status
    ensures status { result ≡ output_status (length out.old) (output_of (λ arcs. arcs) (borrowed_answer octets.now)) }
    ensures written { out.new ≡ output_after out.old (output_of (λ arcs. arcs) (borrowed_answer octets.now)) }
{
    if octets.len() > Oid::MAX_SIZE {
        return arcs_past_39_octets(octets, out);
    }
    write_arcs_by(octets, &mut [0; Oid::MAX_SIZE + 1], out)
}

/// Writes all arcs of contents octets of any length, made on the stack if the octets are 255 or fewer.
// erase: extern "C"
#[inline(never)]
fn arcs_past_39_octets(octets: &[u8], out: &mut [u32]) -> Status
    ensures status { result ≡ output_status (length out.old) (output_of (λ arcs. arcs) (borrowed_answer octets.now)) }
    ensures written { out.new ≡ output_after out.old (output_of (λ arcs. arcs) (borrowed_answer octets.now)) }
{
    write_arcs_by(octets, &mut [0; MAX_OCTETS + 1], out)
}

/// Writes all arcs of contents octets, made in `arcs` if it has more items than there are octets.
// erase: extern "C"
#[tactic(auto, using(const_oid::proofs::Sets::bytes_put))]
#[inline(never)]
fn write_arcs_by(octets: &[u8], arcs: &mut [u32], out: &mut [u32]) -> Status
    ensures status { result ≡ output_status (length out.old) (output_of (λ arcs. arcs) (borrowed_answer octets.now)) }
    ensures written { out.new ≡ output_after out.old (output_of (λ arcs. arcs) (borrowed_answer octets.now)) }
{
    match outputs::arcs_from_bytes(octets, arcs) {
        Some(Ok(len)) if len > out.len() => too_short_status(len),
        Some(Ok(len)) => {
            out[..len].copy_from_slice(&arcs[..len]);
            len_status(len)
        }
        Some(Err(fault)) => error_status(fault),
        None => arcs_past_255_octets(octets, out),
    }
}

/// Writes all arcs of contents octets of any length, and reads them twice.
// erase: extern "C"
#[inline(never)]
fn arcs_past_255_octets(octets: &[u8], out: &mut [u32]) -> Status
    ensures status { result ≡ output_status (length out.old) (output_of (λ arcs. arcs) (borrowed_answer octets.now)) }
    ensures written { out.new ≡ output_after out.old (output_of (λ arcs. arcs) (borrowed_answer octets.now)) }
{
    let oid = match ObjectIdentifierRef::from_bytes(octets) {
        Ok(oid) => oid,
        Err(fault) => return error_status(fault),
    };
    let len = oid.len();
    if len > out.len() {
        return too_short_status(len);
    }
    write_arcs(oid.arcs(), out);
    len_status(len)
}

/// Writes the arcs of contents octets of any length from an index on, as many as fit.
#[unsafe(no_mangle)]
pub extern "C" fn const_oid_arcs_from(octets: &[u8], first: usize, out: &mut [u32]) -> Status
    ensures status { result ≡ output_status (length out.old) (output_of (λ arcs. take (length out.old) (drop first arcs)) (borrowed_answer octets.now)) }
    ensures written { out.new ≡ output_after out.old (output_of (λ arcs. take (length out.old) (drop first arcs)) (borrowed_answer octets.now)) }
{
    match ObjectIdentifierRef::from_bytes(octets) {
        Ok(oid) => len_status(write_arcs(skip_arcs(oid.arcs(), first), out)),
        Err(fault) => error_status(fault),
    }
}

/// The arcs after the first `count`.
fn skip_arcs(arcs: Arcs<'_>, count: usize) -> Arcs<'_>
    ensures { result ≡ drop count arcs.entry }
{
    let mut left = arcs;
    if count > 0 {
        left.nth(count - 1);
    }
    left
}

/// Writes arcs at the start of a slice, as many as fit, and returns their number.
// erase: extern "C"
#[inline(never)]
fn write_arcs(arcs: Arcs<'_>, out: &mut [u32]) -> usize
    ensures { WritesAll (take (length out.old) arcs.entry) out.old out.new result }
{
    let mut index = 0;
    for arc in arcs {
        if index == out.len() {
            break;
        }
        out[index] = arc;
        index += 1;
    }
    index
}
