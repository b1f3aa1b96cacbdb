//! Identifiers from arrays, slices, vectors and iterators of arcs: `from_arcs` and `from_arcs_sized`.

ghost use Rattle.std.specs.Prelude.{◌≡◌};
ghost use Rattle.const_oid.specs.Identifier.{root_rule, default_capacity};
ghost use Rattle.const_oid.specs.Items.{item_answer};
ghost use Rattle.const_oid.specs.Oid.{oid_arcs, oid_answer};

use crate::vectors::{accepted_rows, read_borrowed};
use const_oid::{Arc, Arcs, Error, ObjectIdentifier, Oid};
use std::alloc::Global;
use std::test::Fail;

fn from_array(arcs: [Arc; 3]) -> Result<Oid, Error>
    ensures { oid_answer result ≡ item_answer root_rule arcs default_capacity }
{
    Oid::from_arcs(arcs)
}

fn from_slice(arcs: &[Arc]) -> Result<Oid, Error>
    ensures { oid_answer result ≡ item_answer root_rule arcs.now default_capacity }
{
    Oid::from_arcs(arcs.iter().copied())
}

fn from_vec(arcs: Vec<Arc>) -> Result<Oid, Error>
    ensures { oid_answer result ≡ item_answer root_rule arcs.items default_capacity }
{
    Oid::from_arcs(arcs)
}

fn from_rest(arcs: Arcs<'_>) -> Result<Oid, Error>
    ensures { oid_answer result ≡ item_answer root_rule arcs.entry default_capacity }
{
    Oid::from_arcs(arcs)
}

/// Encodes the arcs of an identifier again.
fn again(oid: &Oid) -> Result<Oid, Error>
    ensures { oid_answer result ≡ Ok (oid_arcs oid.now) }
{
    from_rest(oid.arcs())
}

/// Whether a slice, a list and an identifier of the arcs that octets have are accepted as the identifier of the octets.
fn are_accepted(alloc: Global, octets: &[u8]) -> Result<bool, Fail> {
    let oid = Oid::try_from_ref(read_borrowed(octets)?)?;
    let arcs: Vec<Arc> = oid.arcs().collect(alloc)?;
    Ok(from_slice(&arcs) == Ok(oid) && from_vec(arcs) == Ok(oid) && again(&oid) == Ok(oid))
}

#[test]
fn encodes_accepted_rows(rt: HostRuntime) -> Result<(), Fail> {
    for (text, octets) in accepted_rows() {
        assert!(rt; are_accepted(rt.alloc(), octets)?, "{text}");
    }
    let oid = from_array([2, 999, 3])?;
    assert!(rt; oid.as_bytes() == [0x88, 0x37, 0x03].as_slice());
    Ok(())
}

fn max_size() -> usize
    ensures { result ≡ 39 }
{
    Oid::MAX_SIZE
}

/// Subidentifiers of more than one octet, in just enough octets.
#[test]
fn arcs_of_seven_octets_fit(rt: HostRuntime) -> Result<(), Error> {
    assert!(rt; max_size() == 39);
    let arcs: &[Arc] = &[1, 2, 840, 10045, 2, 1];
    let oid = ObjectIdentifier::<7>::from_arcs_sized(arcs.iter().copied())?;
    assert!(rt; oid.as_bytes() == [0x2A, 0x86, 0x48, 0xCE, 0x3D, 0x02, 0x01].as_slice());
    Ok(())
}
