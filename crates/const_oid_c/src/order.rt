//! Comparisons of two identifiers.
ghost use Rattle.std.specs.Prelude.{◌≡◌, ℕ, List, IfErr, IfOk};
ghost use Rattle.std.specs.Cmp.Lexicographic.{slice_cmp};
ghost use Rattle.std.specs.Ordering.{nat_cmp};
ghost use Rattle.const_oid.specs.Identifier.{root_rule, IsEncoding};
ghost use Rattle.const_oid.specs.OidRef.{ref_answer, ref_arcs, ref_octets};
ghost use Rattle.const_oid.specs.Orders.{parts_cmp, shortlex_cmp};
ghost use Rattle.const_oid.specs.Tree.{BeginsWith};
ghost use Rattle.const_oid_c.specs.Lists.{octets_at};
ghost use Rattle.const_oid_c.specs.Status.{IsFlagOf, error_status, order_number, order_status};
ghost use Rattle.const_oid_c.specs.Results.{IsStatusOfBoth, borrowed_answer, owned_answer};

use crate::lists::Octets;
use crate::status::{Status, error_status, flag_status, order_number, order_status};
use const_oid::search::{Contents, order_by_parts};
use const_oid::{Error, ObjectIdentifierRef, Result};
use std::cmp::Ordering;

/// The most octets that an owned identifier can have.
pub(crate) const MAX_OCTETS: usize = 255;

/// Whether two identifiers of any length are equal.
#[unsafe(no_mangle)]
pub extern "C" fn const_oid_eq(left: &[u8], right: &[u8]) -> Status
    ensures { IsStatusOfBoth (λ xs ys. IsFlagOf (xs ≡ ys))
        (borrowed_answer left.now) (borrowed_answer right.now) result }
{
    match read_both(left, right) {
        Ok((left, right)) => flag_status(left == right),
        Err(fault) => error_status(fault),
    }
}

/// Whether an identifier begins with all arcs of a prefix. Both may have any length.
#[unsafe(no_mangle)]
pub extern "C" fn const_oid_starts_with(octets: &[u8], prefix: &[u8]) -> Status
    ensures { IsStatusOfBoth (λ arcs prefix. IsFlagOf (BeginsWith arcs prefix))
        (borrowed_answer octets.now) (borrowed_answer prefix.now) result }
{
    match read_both(octets, prefix) {
        Ok((oid, prefix)) => flag_status(oid.starts_with(&prefix)),
        Err(fault) => error_status(fault),
    }
}

/// Compares two identifiers of any length by their octets, lexicographically. A prefix comes first.
#[unsafe(no_mangle)]
pub extern "C" fn const_oid_cmp(left: &[u8], right: &[u8]) -> Status
    ensures { IsStatusOfBoth (λ _ _ status. status ≡ order_status (slice_cmp nat_cmp left.now right.now))
        (borrowed_answer left.now) (borrowed_answer right.now) result }
{
    match read_both(left, right) {
        Ok((left, right)) => order_status(left.cmp(&right)),
        Err(fault) => error_status(fault),
    }
}

/// Compares two identifiers of any length by their arcs, lexicographically. A prefix comes first.
#[unsafe(no_mangle)]
pub extern "C" fn const_oid_cmp_arcs(left: &[u8], right: &[u8]) -> Status
    ensures { IsStatusOfBoth (λ xs ys status. status ≡ order_status (slice_cmp nat_cmp xs ys))
        (borrowed_answer left.now) (borrowed_answer right.now) result }
{
    match read_both(left, right) {
        Ok((left, right)) => order_status(left.cmp_arcs(&right)),
        Err(fault) => error_status(fault),
    }
}

/// Compares two identifiers of at most 255 octets by length, and then by their octets (shortlex).
#[unsafe(no_mangle)]
pub extern "C" fn const_oid_cmp_owned(left: &[u8], right: &[u8]) -> Status
    ensures { IsStatusOfBoth (λ _ _ status. status ≡ order_status (shortlex_cmp left.now right.now))
        (owned_answer left.now) (owned_answer right.now) result }
{
    let first = match read_owned(left) {
        Ok(first) => first,
        Err(fault) => return error_status(fault),
    };
    match read_owned(right) {
        Ok(second) => order_status(shortlex(first, second)),
        Err(fault) => error_status(fault),
    }
}

/// Compares two items of a list by their arcs, lexicographically, as `qsort` asks for: -1, 0 or 1. A prefix comes
/// first. Of octets that are not valid it is the order of their subidentifiers, so it is total over any items.
#[unsafe(no_mangle)]
pub extern "C" fn const_oid_by_arcs(left: &Octets<'_>, right: &Octets<'_>) -> i32
    ensures parts { result ≡ order_number (parts_cmp (octets_at left.now) (octets_at right.now)) }
    ensures arcs { (xs ys : List ℕ) → IsEncoding root_rule xs (octets_at left.now)
        → IsEncoding root_rule ys (octets_at right.now) → result ≡ order_number (slice_cmp nat_cmp xs ys) }
{
    order_number(order_by_parts(left.contents(), right.contents()))
}

/// Reads two identifiers of any length. The error is that of the first one that is not valid.
#[inline]
pub(crate) fn read_both<'a>(
    left: &'a [u8],
    right: &'a [u8],
) -> Result<(ObjectIdentifierRef<'a>, ObjectIdentifierRef<'a>)>
    ensures left { IfOk result (λ oids. ref_octets oids.0 ≡ left.now) }
    ensures right { IfOk result (λ oids. ref_octets oids.1 ≡ right.now) }
    ensures left_arcs { IfOk result (λ oids. borrowed_answer left.now ≡ Ok (ref_arcs oids.0)) }
    ensures right_arcs { IfOk result (λ oids. borrowed_answer right.now ≡ Ok (ref_arcs oids.1)) }
    ensures fault { IfErr result (λ fault. IsStatusOfBoth (λ _ _ _. ⊥)
        (borrowed_answer left.now) (borrowed_answer right.now) (error_status fault)) }
{
    let left = ObjectIdentifierRef::from_bytes(left)?;
    let right = ObjectIdentifierRef::from_bytes(right)?;
    Ok((left, right))
}

/// Reads at most `MAX_OCTETS` contents octets, without copying them.
fn read_owned<'a>(octets: &'a [u8]) -> Result<ObjectIdentifierRef<'a>>
    ensures answer { ref_answer result ≡ owned_answer octets.now }
    ensures octets { IfOk result (λ oid. ref_octets oid ≡ octets.now) }
{
    let oid = ObjectIdentifierRef::from_bytes(octets)?;
    if octets.len() > MAX_OCTETS {
        return Err(Error::Length);
    }
    Ok(oid)
}

/// Compares two identifiers by length, and then by their octets.
fn shortlex(left: ObjectIdentifierRef<'_>, right: ObjectIdentifierRef<'_>) -> Ordering
    ensures { result ≡ shortlex_cmp (ref_octets left.entry) (ref_octets right.entry) }
{
    match left.as_bytes().len().cmp(&right.as_bytes().len()) {
        Ordering::Equal => left.cmp(&right),
        other => other,
    }
}
