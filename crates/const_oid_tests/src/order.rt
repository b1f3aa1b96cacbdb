//! Equality, copies, hashes and the orders of both forms: `==`, `clone`, `hash`, `cmp` and `subtree`; `ByArcs`; and both
//! forms as keys of `HashMap`, `BTreeMap` and `BTreeSet`.

ghost use Rattle.std.specs.Prelude.{◌≡◌, ◌↔◌, IsTrue, IsOk, IfOk, Some, fold};
ghost use Rattle.std.specs.Hash as fed;
ghost use Rattle.std.specs.Hash.DefaultHasher as sip;
ghost use Rattle.std.specs.Ordering.{nat_cmp};
ghost use Rattle.std.specs.Cmp.Lexicographic.{slice_cmp};
ghost use Rattle.const_oid.specs.Buffer.{buffer_octets};
ghost use Rattle.const_oid.specs.Oid.{oid_octets, oid_arcs};
ghost use Rattle.const_oid.specs.OidRef.{key_arcs, ref_octets, ref_arcs};
ghost use Rattle.const_oid.specs.Orders.{shortlex_cmp};

use crate::vectors::{accepted_rows, parse, read_borrowed};
use const_oid::{Arc, Buffer, ByArcs, ObjectIdentifier, ObjectIdentifierRef, Oid};
use examples::theorems::parent_of_child;
use std::alloc::{AllocError, Global};
use std::cmp::Ordering;
use std::collections::{BTreeMap, BTreeSet, HashMap};
use std::hash::{DefaultHasher, Hash, Hasher};
use std::test::Fail;

fn has_same_arcs<const N: usize>(a: &ObjectIdentifier<N>, b: &ObjectIdentifier<N>) -> bool
    ensures { IsTrue result ↔ (oid_arcs a.now ≡ oid_arcs b.now) }
{
    *a == *b
}

fn order_of<const N: usize>(a: &ObjectIdentifier<N>, b: &ObjectIdentifier<N>) -> Ordering
    ensures { result ≡ shortlex_cmp (oid_octets a.now) (oid_octets b.now) }
{
    a.cmp(b)
}

fn partial_order_of<const N: usize>(
    a: &ObjectIdentifier<N>,
    b: &ObjectIdentifier<N>,
) -> Option<Ordering>
    ensures { result ≡ Some (shortlex_cmp (oid_octets a.now) (oid_octets b.now)) }
{
    a.partial_cmp(b)
}

fn clone_of<const N: usize>(oid: &ObjectIdentifier<N>) -> Result<ObjectIdentifier<N>, AllocError>
    ensures always { IsOk result }
    ensures equal { IfOk result (λ copy. copy ≡ oid.now) }
{
    oid.clone()
}

fn ref_has_same_arcs(a: &ObjectIdentifierRef<'_>, b: &ObjectIdentifierRef<'_>) -> bool
    ensures { IsTrue result ↔ (ref_arcs a.now ≡ ref_arcs b.now) }
{
    *a == *b
}

fn ref_order_of(a: &ObjectIdentifierRef<'_>, b: &ObjectIdentifierRef<'_>) -> Ordering
    ensures { result ≡ slice_cmp nat_cmp (ref_octets a.now) (ref_octets b.now) }
{
    a.cmp(b)
}

fn ref_clone_of<'a>(oid: &ObjectIdentifierRef<'a>) -> Result<ObjectIdentifierRef<'a>, AllocError>
    ensures always { IsOk result }
    ensures equal { IfOk result (λ copy. copy ≡ oid.now) }
{
    oid.clone()
}

fn key_clone_of<'a>(key: &ByArcs<'a>) -> Result<ByArcs<'a>, AllocError>
    ensures always { IsOk result }
    ensures same { IfOk result (λ copy. key_arcs copy ≡ key_arcs key.now) }
{
    key.clone()
}

/// A caller of `clone`, which is proved and not run: no public function returns a buffer.
fn buffer_clone_of<const N: usize>(buffer: &Buffer<N>) -> Result<Buffer<N>, AllocError>
    ensures always { IsOk result }
    ensures equal { IfOk result (λ copy. buffer_octets copy ≡ buffer_octets buffer.now) }
{
    buffer.clone()
}

/// What both orders and copies return is proved, and here it runs.
#[test]
fn compares_and_copies(rt: HostRuntime) -> Result<(), Fail> {
    let (a, b) = (Oid::new_unwrap("1.2.127"), Oid::new_unwrap("1.2.3.4"));
    assert!(rt; order_of(&a, &b) == Ordering::Less && !has_same_arcs(&a, &b));
    assert!(rt; partial_order_of(&a, &b) == Some(Ordering::Less));
    assert!(rt; has_same_arcs(&a, &clone_of(&a)?));
    let (a, b) = (a.as_oid_ref(), b.as_oid_ref());
    assert!(rt; ref_order_of(&a, &b) == Ordering::Greater && !ref_has_same_arcs(&a, &b));
    assert!(rt; ref_has_same_arcs(&a, &ref_clone_of(&a)?));
    assert!(rt; key_clone_of(&ByArcs(a))? == ByArcs(a));
    Ok(())
}

/// Identifiers in the borrowed order. Those at the indices 1 to 7 begin with 1.2.
const ASCENDING: &[&[u8]] = &[
    &[0],
    &[0x2A],
    &[0x2A, 3],
    &[0x2A, 3, 4],
    &[0x2A, 0x7F],
    &[0x2A, 0x81, 0],
    &[0x2A, 0x81, 0x80, 0],
    &[0x2A, 0xFF, 0x7F],
    &[0x55],
    &[0x77],
];

/// Lists, a prefix, and the range of those that begin with it.
const RANGES: &[(&[&[u8]], &[u8], (usize, usize))] = &[
    (ASCENDING, &[0x2A], (1, 8)),
    (ASCENDING, &[0x2A, 3], (2, 4)),
    (ASCENDING, &[0x2A, 4], (4, 4)),
    (ASCENDING, &[0x77], (9, 10)),
    (ASCENDING, &[0x88, 0x37], (10, 10)),
    (&[&[0x2A], &[0x2A]], &[0x2A], (0, 2)),
    (
        &[&[0x78], &[0x88, 0x37], &[0x88, 0x37, 3]],
        &[0x88, 0x37],
        (1, 3),
    ),
    (&[], &[0x2A], (0, 0)),
];

/// The range of those that begin with a prefix in a list, once it is sorted.
fn range_of(alloc: Global, list: &[&[u8]], prefix: &[u8]) -> Result<(usize, usize), Fail> {
    let mut oids = Vec::new(alloc);
    for octets in list {
        oids.push(read_borrowed(octets)?)?;
    }
    oids.sort()?;
    Ok(read_borrowed(prefix)?.subtree(&oids))
}

#[test]
fn finds_ranges(rt: HostRuntime) -> Result<(), Fail> {
    for (list, prefix, range) in RANGES {
        let found = range_of(rt.alloc(), list, prefix)?;
        assert!(rt; found == *range, "{prefix:?}: {range:?}");
    }
    Ok(())
}

/// Ten columns of a hundred rows, as a table of interfaces has them (RFC 2863), are sorted. One has its range.
#[test]
fn finds_a_column_of_a_thousand_cells(rt: HostRuntime) -> Result<(), Fail> {
    let (mut cells, mut oids) = (Vec::new(rt.alloc()), Vec::new(rt.alloc()));
    for index in 0..1000u32 {
        let (column, row) = (index * 37 % 1000 / 100 + 1, index * 37 % 100 + 1);
        cells.push(Oid::from_arcs([1, 3, 6, 1, 2, 1, 2, 2, 1, column, row])?)?;
    }
    for cell in &cells {
        oids.push(cell.as_oid_ref())?;
    }
    oids.sort()?;
    let column = Oid::new_unwrap("1.3.6.1.2.1.2.2.1.3");
    assert!(rt; column.as_oid_ref().subtree(&oids) == (200, 300));
    Ok(())
}

/// A sorted set, filled in reverse order, keeps subtrees together.
#[test]
fn a_set_has_the_borrowed_order(rt: HostRuntime) -> Result<(), Fail> {
    let mut oids = BTreeSet::new(rt.alloc());
    for octets in ASCENDING.iter().rev() {
        oids.insert(read_borrowed(octets)?)?;
    }
    assert!(rt; oids.len() == ASCENDING.len());
    for (index, (oid, octets)) in oids.iter().zip(ASCENDING).enumerate() {
        let is_under = oid.arc(0) == Some(1) && oid.arc(1) == Some(2);
        let is_placed = is_under == (1..8).contains(&index);
        assert!(rt; is_placed && oid.as_bytes() == *octets, "{oid}");
    }
    Ok(())
}

/// A hasher is fed the octets as a slice.
fn hash_of<const N: usize>(oid: &ObjectIdentifier<N>) -> u64
    ensures { result ≡ sip.finish (fold sip.write sip.initial (fed.slice fed.u8 (oid_octets oid.now))) }
{
    let mut state = DefaultHasher::new();
    oid.hash(&mut state);
    state.finish()
}

fn ref_hash_of(oid: &ObjectIdentifierRef<'_>) -> u64
    ensures { result ≡ sip.finish (fold sip.write sip.initial (fed.slice fed.u8 (ref_octets oid.now))) }
{
    let mut state = DefaultHasher::new();
    oid.hash(&mut state);
    state.finish()
}

/// Whether the parent hashes as the identifier of all arcs but the last one, and finds it.
fn parent_is_key(alloc: Global, oid: &Oid) -> Result<bool, Fail> {
    let arcs: Vec<Arc> = oid.arcs().collect(alloc)?;
    let (Some(parent), Some((_, shorter))) = (oid.parent(), arcs.split_last()) else {
        return Ok(arcs.len() == 2);
    };
    let shorter = Oid::from_arcs(shorter.iter().copied())?;
    let mut keys = HashMap::new(alloc);
    keys.insert(shorter, true)?;
    Ok(hash_of(&parent) == hash_of(&shorter) && keys.get(&parent).is_some())
}

/// Whether an identifier hashes as the parent of its child and as its borrowed form, and its parent finds it so.
fn hashes(alloc: Global, oid: Oid) -> Result<bool, Fail> {
    let parent = parent_of_child(oid, 128)?.ok_or("no parent")?;
    let (hash, borrowed) = (hash_of(&oid), ref_hash_of(&oid.as_oid_ref()));
    Ok(hash_of(&parent) == hash && borrowed == hash && parent_is_key(alloc, &oid)?)
}

/// The identifiers of the texts are the keys of their octets.
#[test]
fn finds_keys_by_text(rt: HostRuntime) -> Result<(), Fail> {
    let (mut hashed, mut sorted) = (HashMap::new(rt.alloc()), BTreeMap::new(rt.alloc()));
    for (index, (_, octets)) in accepted_rows().iter().enumerate() {
        let oid = Oid::try_from_ref(read_borrowed(octets)?)?;
        hashed.insert(oid, index)?;
        sorted.insert(oid, index)?;
    }
    for (index, (text, _)) in accepted_rows().iter().enumerate() {
        let oid = parse(text)?;
        let found = (hashed.get(&oid).copied(), sorted.get(&oid).copied());
        assert!(rt; found == (Some(index), Some(index)), "{text}");
        assert!(rt; hashes(rt.alloc(), oid)?, "{text}");
    }
    let absent = Oid::new_unwrap("1.2.5");
    assert!(rt; hashed.get(&absent).is_none() && sorted.get(&absent).is_none());
    Ok(())
}

/// Octets of two identifiers that stand at other addresses.
const TWICE: [u8; 4] = [0x2A, 0x03, 0x2A, 0x03];

#[test]
fn finds_borrowed_keys(rt: HostRuntime) -> Result<(), Fail> {
    let mut names = HashMap::new(rt.alloc());
    names.insert(read_borrowed(&TWICE[..2])?, "1.2.3")?;
    assert!(rt; names.get(&read_borrowed(&TWICE[2..])?).is_some());
    assert!(rt; names.get(&read_borrowed(&TWICE[..1])?).is_none());
    Ok(())
}
