//! Parents and children.
ghost use Rattle.std.specs.Prelude.{◌≡◌, ◌∷◌, length, IfOk, IsOk};
ghost use Rattle.const_oid.specs.Base128.{group_of};
ghost use Rattle.const_oid.specs.Oid.{oid_octets};
ghost use Rattle.const_oid_c.specs.Status.{output_status, output_after};
ghost use Rattle.const_oid_c.specs.Results.{octets_of_parent, octets_of_child};

use crate::arcs::encoded;
use crate::output::{write_bytes, write_joined};
use crate::status::{NONE, Status, code_status, error_status};
use const_oid::{ObjectIdentifier, ObjectIdentifierRef, Result};

/// Writes the contents octets of all arcs except the last.
#[tactic(auto, using(const_oid::proofs::Identifiers::octets_again))]
#[unsafe(no_mangle)]
pub extern "C" fn const_oid_parent(octets: &[u8], out: &mut [u8]) -> Status
    ensures status { result ≡ output_status (length out.old) (octets_of_parent octets.now) }
    ensures written { out.new ≡ output_after out.old (octets_of_parent octets.now) }
{
    match ObjectIdentifierRef::from_bytes(octets) {
        Ok(oid) => match oid.parent() {
            Some(parent) => write_bytes(parent.as_bytes(), out),
            None => code_status(NONE),
        },
        Err(fault) => error_status(fault),
    }
}

/// Writes the contents octets of an identifier with one more arc: its octets, and those of the arc.
#[unsafe(no_mangle)]
pub extern "C" fn const_oid_push_arc(octets: &[u8], arc: u32, out: &mut [u8]) -> Status
    ensures status { result ≡ output_status (length out.old) (octets_of_child octets.now arc) }
    ensures written { out.new ≡ output_after out.old (octets_of_child octets.now arc) }
{
    match ObjectIdentifierRef::from_bytes(octets) {
        Ok(_) => match zero_child(arc) {
            Ok(child) => write_joined(octets, &child.as_bytes()[1..], out),
            Err(fault) => error_status(fault),
        },
        Err(fault) => error_status(fault),
    }
}

/// The identifier 0.0 with one more arc. Its octets are 0 and those of the arc, five at most.
fn zero_child(arc: u32) -> Result<ObjectIdentifier<6>>
    ensures octets { IfOk result (λ oid. oid_octets oid ≡ 0 ∷ group_of arc) }
    ensures ok { IsOk result }
{
    encoded::<6>(&[0, 0, arc])
}
