//! What people type.
ghost use Rattle.std.specs.Prelude.{◌≡◌, ◌≤◌, ◌-◌, drop, length, take, Ok};
ghost use Rattle.const_oid.specs.OidRef.{ref_arcs};
ghost use Rattle.const_oid.specs.Tree.{BeginsWith};
ghost use Rattle.const_oid.specs.Typed.{bare, dotted};
ghost use Rattle.const_oid_c.specs.Results.{borrowed_answer, text_below};
ghost use Rattle.const_oid_c.specs.Status.{len_status, output_after, output_status};

use crate::lists::Range;
use crate::order::read_both;
use crate::status::{NONE, Status, code_status, error_status, len_status, too_short_status};
use const_oid::typed::bare_range;
use const_oid::{ObjectIdentifierRef, outputs};

/// Finds what people type without blanks around it, and then without a prefix.
#[unsafe(no_mangle)]
pub extern "C" fn const_oid_bare_text(text: &[u8], range: &mut Range) -> Status
    ensures status { result ≡ len_status (length (bare text.now)) }
    ensures range { take (range.new.end - range.new.start) (drop range.new.start text.now) ≡ bare text.now }
    ensures order { range.new.start ≤ range.new.end }
    ensures within { range.new.end ≤ length text.now }
{
    let (start, end) = bare_range(text);
    *range = Range { start, end };
    len_status(end - start)
}

/// Writes a dot and the decimal of each arc of an identifier after those of a prefix.
#[unsafe(no_mangle)]
pub extern "C" fn const_oid_to_text_below(octets: &[u8], prefix: &[u8], out: &mut [u8]) -> Status
    ensures status { result ≡ output_status (length out.old) (text_below (borrowed_answer octets.now) (borrowed_answer prefix.now)) }
    ensures written { out.new ≡ output_after out.old (text_below (borrowed_answer octets.now) (borrowed_answer prefix.now)) }
{
    let (oid, prefix) = match read_both(octets, prefix) {
        Ok(oids) => oids,
        Err(fault) => return error_status(fault),
    };
    if !oid.starts_with(&prefix) {
        return code_status(NONE);
    }
    write_below(&oid, &prefix, out)
}

/// Writes a dot and the decimal of each arc after those of a prefix, or counts the bytes that do not fit.
// erase: extern "C"
#[tactic(auto, using(const_oid::proofs::Sets::bytes_put))]
fn write_below(
    oid: &ObjectIdentifierRef<'_>,
    prefix: &ObjectIdentifierRef<'_>,
    out: &mut [u8],
) -> Status
    requires { BeginsWith (ref_arcs oid.now) (ref_arcs prefix.now) }
    ensures status { result ≡ output_status (length out.old) (Ok (dotted (drop (length (ref_arcs prefix.now)) (ref_arcs oid.now)))) }
    ensures written { out.new ≡ output_after out.old (Ok (dotted (drop (length (ref_arcs prefix.now)) (ref_arcs oid.now)))) }
{
    match outputs::text_below(oid, prefix, out) {
        Some(len) => len_status(len),
        None => too_short_status(outputs::text_below_len(oid, prefix)),
    }
}
