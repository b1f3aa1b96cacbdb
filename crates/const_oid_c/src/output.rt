//! Results that are written to the caller's slice.
ghost use Rattle.std.specs.Prelude.{◌≡◌, ◌++◌, length, Ok};
ghost use Rattle.const_oid.specs.Oid.{oid_answer};
ghost use Rattle.const_oid_c.specs.Status.{output_status, output_after};
ghost use Rattle.const_oid_c.specs.Results.{octets_of_arcs};

use crate::status::{Status, error_status, len_status, too_short_status};
use const_oid::{ObjectIdentifier, Result};

/// Writes bytes at the start of a slice, if they fit.
pub(crate) fn write_bytes(bytes: &[u8], out: &mut [u8]) -> Status
    ensures status { result ≡ output_status (length out.old) (Ok bytes.now) }
    ensures written { out.new ≡ output_after out.old (Ok bytes.now) }
{
    let len = bytes.len();
    if len > out.len() {
        return too_short_status(len);
    }
    out[..len].copy_from_slice(bytes);
    len_status(len)
}

/// Writes two slices, one after the other, at the start of a slice, if they fit.
pub(crate) fn write_joined(first: &[u8], rest: &[u8], out: &mut [u8]) -> Status
    ensures status { result ≡ output_status (length out.old) (Ok (first.now ++ rest.now)) }
    ensures written { out.new ≡ output_after out.old (Ok (first.now ++ rest.now)) }
{
    let len = first.len() + rest.len();
    if out.len() < len {
        return too_short_status(len);
    }
    out[..first.len()].copy_from_slice(first);
    out[first.len()..len].copy_from_slice(rest);
    len_status(len)
}

/// Writes the octets of an identifier, or reports its error.
#[tactic(auto, using(const_oid::proofs::Identifiers::octets_again))]
pub(crate) fn write_octets<const N: usize>(
    oid: Result<ObjectIdentifier<N>>,
    out: &mut [u8],
) -> Status
    ensures status { result ≡ output_status (length out.old) (octets_of_arcs (oid_answer oid.entry)) }
    ensures written { out.new ≡ output_after out.old (octets_of_arcs (oid_answer oid.entry)) }
{
    match oid {
        Ok(oid) => write_bytes(oid.as_bytes(), out),
        Err(fault) => error_status(fault),
    }
}
