//! Elements of identifiers in DER: tag, length and contents octets.
ghost use Rattle.std.specs.Prelude.{◌≡◌, ◌≢◌, ◌+◌, ◌≤◌, ◌++◌, ℕ, List, length};
ghost use Rattle.const_oid.specs.Element.{element};
ghost use Rattle.const_oid.specs.Slices.{address_at, end_address};
ghost use Rattle.const_oid_c.specs.Lists.{octets_at};
ghost use Rattle.const_oid_c.specs.Status.{code_status, len_status, output_status, output_after};
ghost use Rattle.const_oid_c.specs.Results.{borrowed_answer, output_of, status_of};

use crate::lists::Octets;
use crate::status::{
    NO_ELEMENT, OK, OUTPUT_TOO_SHORT, Status, code_status, error_status, len_status,
    too_short_status,
};
use const_oid::ObjectIdentifierRef;

/// Reads the element that bytes begin with: how many of them it has, and where its contents octets are.
#[unsafe(no_mangle)]
pub extern "C" fn const_oid_from_der<'a>(der: &'a [u8], contents: &mut Octets<'a>) -> Status
    ensures none { ((octets rest : List ℕ) → der.now ≢ element octets ++ rest) → result ≡ code_status NO_ELEMENT }
    ensures status { (octets rest : List ℕ) → der.now ≡ element octets ++ rest
        → result ≡ status_of (λ _. len_status (length (element octets))) (borrowed_answer octets) }
    ensures contents { (octets rest : List ℕ) → der.now ≡ element octets ++ rest → result.code ≡ OK
        → octets_at contents.new ≡ octets }
    ensures input { result.code ≡ OK → end_address contents.new.octets ≡ address_at der.entry result.len }
    ensures unchanged { result.code ≢ OK → contents.new ≡ contents.old }
{
    match ObjectIdentifierRef::read_element(der) {
        Some((Ok(oid), rest)) => {
            let octets = oid.as_bytes();
            *contents = Octets { octets };
            len_status(der.len() - rest.len())
        }
        Some((Err(fault), _)) => error_status(fault),
        None => code_status(NO_ELEMENT),
    }
}

/// Writes the element of contents octets of any length.
#[unsafe(no_mangle)]
pub extern "C" fn const_oid_to_der(octets: &[u8], out: &mut [u8]) -> Status
    ensures status { result ≡ output_status (length out.old) (output_of (λ _. element octets.now) (borrowed_answer octets.now)) }
    ensures written { out.new ≡ output_after out.old (output_of (λ _. element octets.now) (borrowed_answer octets.now)) }
    ensures enough { length octets.now + 10 ≤ length out.old → result.code ≢ OUTPUT_TOO_SHORT }
{
    match ObjectIdentifierRef::from_bytes(octets) {
        Ok(oid) => match oid.write_element(out) {
            Some(len) => len_status(len),
            None => too_short_status(oid.element_len()),
        },
        Err(fault) => error_status(fault),
    }
}
