//! Rows of SNMP in the order of a walk (RFC 3416): `next_under` and `name` of `examples::walk`, and `ByArcs` as a
//! key.

ghost use Rattle.std.specs.Cmp.Lexicographic.{slice_cmp};
ghost use Rattle.std.specs.List.Sorted.{IsSortedByKey};
ghost use Rattle.std.specs.Ordering.{nat_cmp};
ghost use Rattle.const_oid.specs.OidRef.{key_arcs};

use crate::vectors::parse;
use const_oid::{ByArcs, Error, ObjectIdentifier, ObjectIdentifierRef};
use examples::walk::{MAX_NAME, name, next_under};
use std::alloc::Global;
use std::collections::BTreeMap;
use std::test::Fail;

/// sysDescr (RFC 3418), columns of interfaces by their number (RFC 2863), connections over IPv4 and
/// IPv6 by addresses and ports (RFC 4022), enterprises.
const ROWS: &[&str] = &[
    "1.3.6.1.2.1.1.1.0",
    "1.3.6.1.2.1.2.2.1.10.1",
    "1.3.6.1.2.1.2.2.1.10.127",
    "1.3.6.1.2.1.2.2.1.10.128",
    "1.3.6.1.2.1.2.2.1.10.255",
    "1.3.6.1.2.1.2.2.1.10.256",
    "1.3.6.1.2.1.2.2.1.10.16383",
    "1.3.6.1.2.1.2.2.1.10.16384",
    "1.3.6.1.2.1.2.2.1.10.2097151",
    "1.3.6.1.2.1.2.2.1.10.2097152",
    "1.3.6.1.2.1.2.2.1.11.1",
    "1.3.6.1.2.1.6.13.1.1.10.0.0.1.22.10.0.0.2.40000",
    "1.3.6.1.2.1.6.13.1.1.10.0.0.1.80.10.0.0.2.40000",
    "1.3.6.1.2.1.6.13.1.1.10.0.0.1.443.10.0.0.2.40000",
    "1.3.6.1.2.1.6.13.1.1.10.0.0.1.8080.10.0.0.2.40000",
    "1.3.6.1.2.1.6.13.1.1.10.0.0.1.65535.10.0.0.2.40000",
    "1.3.6.1.2.1.6.19.1.7.2.16.32.1.13.184.0.0.0.0.0.0.0.0.0.0.0.1.443.2.16.32.1.13.184.0.0.0.0.0.0.0.0.0.0.0.2.40000",
    "1.3.6.1.2.1.6.19.1.7.2.16.32.1.13.184.0.0.0.0.0.0.0.0.0.0.0.1.8080.2.16.32.1.13.184.0.0.0.0.0.0.0.0.0.0.0.2.40000",
    "1.3.6.1.4.1.255",
    "1.3.6.1.4.1.255.1",
    "1.3.6.1.4.1.256",
    "1.3.6.1.4.1.4294967295",
];

/// Roots, and how many rows are under them.
const COUNTS: &[(&str, usize)] = &[("1.3.6.1.2.1.2.2.1.10", 9), ("1.3.6.1.4.1.256", 0)];

/// The row at an index of a list that is in no order.
fn shuffled(index: usize) -> &'static str {
    ROWS[index % ROWS.len() * 5 % ROWS.len()]
}

/// How many keys a walk meets under a root.
fn count_under(sorted: &[ByArcs<'_>], root: &ObjectIdentifierRef<'_>) -> usize
    requires { IsSortedByKey key_arcs (slice_cmp nat_cmp) sorted.now }
{
    let start = *root;
    let mut next = next_under(sorted, root, &start);
    for count in 0..sorted.len() {
        match next {
            Some(key) => next = next_under(sorted, root, &key.0),
            None => return count,
        }
    }
    sorted.len()
}

/// The identifiers of the rows, in no order.
fn oids(alloc: Global) -> Result<Vec<ObjectIdentifier<255>>, Fail> {
    let mut oids = Vec::new(alloc);
    for index in 0..ROWS.len() {
        oids.push(ObjectIdentifier::new_sized(shuffled(index))?)?;
    }
    Ok(oids)
}

#[test]
fn a_map_has_the_rows_in_order(rt: HostRuntime) -> Result<(), Fail> {
    let (oids, mut rows) = (oids(rt.alloc())?, BTreeMap::new(rt.alloc()));
    for (index, oid) in oids.iter().enumerate() {
        rows.insert(ByArcs(oid.as_oid_ref()), shuffled(index))?;
    }
    assert!(rt; rows.len() == ROWS.len());
    for (row, wanted) in rows.values().zip(ROWS) {
        assert!(rt; row == wanted, "{wanted}");
    }
    Ok(())
}

#[test]
fn walks_the_rows_in_order(rt: HostRuntime) -> Result<(), Fail> {
    let (oids, mut keys) = (oids(rt.alloc())?, Vec::new(rt.alloc()));
    for oid in &oids {
        keys.push(ByArcs(oid.as_oid_ref()))?;
    }
    keys.sort()?;
    for (root, count) in COUNTS {
        let root = parse(root)?;
        assert!(rt; count_under(&keys, &root.as_oid_ref()) == *count, "{root}");
    }
    Ok(())
}

#[test]
fn names_the_arcs_of_a_cell(rt: HostRuntime) -> Result<(), Error> {
    let mut out = [0; MAX_NAME];
    let oid = name(&[1, 3, 6, 1, 300], &mut out)?;
    assert!(rt; oid.as_bytes() == [0x2B, 6, 1, 0x82, 0x2C].as_slice());
    Ok(())
}
