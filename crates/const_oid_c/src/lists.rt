//! Lists of identifiers in lexicographic order of arcs, and binary searches in them.
//!
//! No search checks the list: over a list that `const_oid_check_sorted` does not accept, what it finds is
//! unspecified, but is within the list.
ghost use Rattle.std.specs.Prelude.{◌≡◌, ◌≢◌, ◌<◌, ◌≤◌, ◌↔◌, ℕ, [], All, None, Some, length, true, false, count_by, slice_get, IfErr, IfOk, IfSome, IfNone};
ghost use Rattle.std.specs.Cmp.Lexicographic.{slice_cmp};
ghost use Rattle.std.specs.List.{position};
ghost use Rattle.std.specs.List.Sorted.{IsSortedByKey};
ghost use Rattle.std.specs.Ordering.{nat_cmp, is_lt};
ghost use Rattle.const_oid.specs.Contents.{arcs_of_octets};
ghost use Rattle.const_oid.specs.Identifier.{root_rule, IsEncoding};
ghost use Rattle.const_oid.specs.Names.{IsNearestBy};
ghost use Rattle.const_oid.specs.OidRef.{ref_arcs, ref_octets};
ghost use Rattle.const_oid.specs.Orders.{parts_cmp};
ghost use Rattle.const_oid.specs.SortedList.{IsSortedList, has_item_arcs, item_arcs};
ghost use Rattle.const_oid.specs.Tree.{BeginsWith};
ghost use Rattle.const_oid_c.specs.Results.{borrowed_answer};
ghost use Rattle.const_oid_c.specs.Lists.{IsIndexOrNone, arcs_before, index_status, fault_after, list_fault, list_status, none_of, octets_at, IsFirstUnsorted};
ghost use Rattle.const_oid_c.specs.Status.{fault_at, len_status};

use crate::status::{NONE, OK, Status, UNSORTED, code_status, fault_at, len_status};
use const_oid::ObjectIdentifierRef;
use const_oid::search::{Contents, end_of, first_of, nearest_of, subtree_of};

/// The contents octets of one identifier of a list.
#[repr(C)]
#[derive(Clone, Copy)]
pub struct Octets<'a> {
    pub octets: &'a [u8],
}

impl Contents for Octets<'_> {
    ghost octets_of = { λ item. item.octets.now };

    fn contents(&self) -> &[u8] {
        self.octets
    }
}

/// The indices of a list from `start` up to, but not including, `end`.
#[repr(C)]
#[derive(Clone, Copy)]
pub struct Range {
    pub start: usize,
    pub end: usize,
}

/// Checks that each item of a list is an identifier, and that none comes before the previous one: so in each list of
/// identifiers that `const_oid_by_arcs` has sorted.
#[unsafe(no_mangle)]
pub extern "C" fn const_oid_check_sorted(items: &[Octets<'_>]) -> Status
    ensures status { result ≡ list_status items.now }
    ensures sorted { result.code ≡ OK ↔ IsSortedList octets_at items.now }
    ensures first { result.code ≢ OK → IsFirstUnsorted items.now result.len }
    ensures by_arcs { All (λ item. IsEncoding root_rule (item_arcs octets_at item) (octets_at item)) items.now
        → IsSortedByKey octets_at parts_cmp items.now → result.code ≡ OK }
{
    match list_fault(items) {
        Some(status) => status,
        None => len_status(0),
    }
}

/// Finds the first item that is equal to an identifier.
#[unsafe(no_mangle)]
pub extern "C" fn const_oid_find(octets: &[u8], sorted: &[Octets<'_>]) -> Status
    ensures found { IsSortedList octets_at sorted.now → IfOk (borrowed_answer octets.now) (λ arcs.
        result ≡ index_status (length sorted.now) (position (has_item_arcs octets_at arcs) sorted.now)) }
    ensures within { IfOk (borrowed_answer octets.now) (λ _. IsIndexOrNone (length sorted.now) result) }
    ensures fault { IfErr (borrowed_answer octets.now) (λ fault. result ≡ fault_at (length sorted.now) fault) }
{
    match ObjectIdentifierRef::from_bytes(octets) {
        Ok(oid) => index_status(first_of(sorted, &oid), sorted.len()),
        Err(fault) => fault_at(sorted.len(), fault),
    }
}

/// Finds the first item that comes after an identifier, which need not be an item.
#[unsafe(no_mangle)]
pub extern "C" fn const_oid_next(octets: &[u8], sorted: &[Octets<'_>]) -> Status
    ensures found { IsSortedList octets_at sorted.now → IfOk (borrowed_answer octets.now) (λ arcs.
        result ≡ index_status (length sorted.now) (position (λ item. is_lt (slice_cmp nat_cmp arcs (item_arcs octets_at item))) sorted.now)) }
    ensures within { IfOk (borrowed_answer octets.now) (λ _. IsIndexOrNone (length sorted.now) result) }
    ensures fault { IfErr (borrowed_answer octets.now) (λ fault. result ≡ fault_at (length sorted.now) fault) }
{
    match ObjectIdentifierRef::from_bytes(octets) {
        Ok(oid) => index_status(next_of(sorted, &oid), sorted.len()),
        Err(fault) => fault_at(sorted.len(), fault),
    }
}

/// Finds the item with the longest prefix of an identifier, which may be all of it; of several, the first.
#[unsafe(no_mangle)]
pub extern "C" fn const_oid_nearest(octets: &[u8], sorted: &[Octets<'_>]) -> Status
    ensures found { IsSortedList octets_at sorted.now → result.code ≡ OK → IfSome (slice_get sorted.now result.len)
        (IsNearestBy (item_arcs octets_at) sorted.now (arcs_of_octets octets.now)) }
    ensures first { IsSortedList octets_at sorted.now → result.code ≡ OK → IfSome (slice_get sorted.now result.len) (λ item.
        position (has_item_arcs octets_at (item_arcs octets_at item)) sorted.now ≡ Some result.len) }
    ensures none { IsSortedList octets_at sorted.now → result ≡ none_of (length sorted.now)
        → All (λ item. BeginsWith (arcs_of_octets octets.now) (item_arcs octets_at item) → ⊥) sorted.now }
    ensures within { IfOk (borrowed_answer octets.now) (λ _. IsIndexOrNone (length sorted.now) result) }
    ensures fault { IfErr (borrowed_answer octets.now) (λ fault. result ≡ fault_at (length sorted.now) fault) }
{
    match ObjectIdentifierRef::from_bytes(octets) {
        Ok(oid) => index_status(nearest_of(sorted, &oid), sorted.len()),
        Err(fault) => fault_at(sorted.len(), fault),
    }
}

/// Finds the range of the items whose arcs begin with those of an identifier.
#[unsafe(no_mangle)]
pub extern "C" fn const_oid_subtree_range(
    octets: &[u8],
    sorted: &[Octets<'_>],
    range: &mut Range,
) -> Status
    ensures status { IfOk (borrowed_answer octets.now) (λ _. result ≡ len_status 0) }
    ensures fault { IfErr (borrowed_answer octets.now) (λ fault. result ≡ fault_at (length sorted.now) fault) }
    ensures within { result.code ≡ OK → (range.new.start ≤ range.new.end) × (range.new.end ≤ length sorted.now) }
    ensures start { IsSortedList octets_at sorted.now → result.code ≡ OK → range.new.start
        ≡ count_by (λ item. is_lt (slice_cmp nat_cmp (item_arcs octets_at item) (arcs_of_octets octets.now))) sorted.now }
    ensures inside { IsSortedList octets_at sorted.now → result.code ≡ OK → (k : ℕ) → IfSome (slice_get sorted.now k) (λ item.
        BeginsWith (item_arcs octets_at item) (arcs_of_octets octets.now) ↔ ((range.new.start ≤ k) × (k < range.new.end))) }
    ensures unchanged { result.code ≢ OK → range.new ≡ range.old }
{
    match ObjectIdentifierRef::from_bytes(octets) {
        Ok(oid) => {
            let (start, end) = subtree_of(sorted, &oid);
            *range = Range { start, end };
            len_status(0)
        }
        Err(fault) => fault_at(sorted.len(), fault),
    }
}

/// The index of the first item that comes after an identifier.
fn next_of(sorted: &[Octets<'_>], oid: &ObjectIdentifierRef<'_>) -> Option<usize>
    ensures found { IsSortedList octets_at sorted.now
        → result ≡ position (λ item. is_lt (slice_cmp nat_cmp (ref_arcs oid.now) (item_arcs octets_at item))) sorted.now }
    ensures within { IfSome result (λ index. index < length sorted.now) }
{
    let index = end_of(sorted, oid);
    (index < sorted.len()).then_some(index)
}

/// The status of an index, if there is one, or that none of `count` items is found.
fn index_status(index: Option<usize>, count: usize) -> Status
    ensures { result ≡ index_status count index }
{
    match index {
        Some(index) => len_status(index),
        None => Status {
            len: count,
            ..code_status(NONE)
        },
    }
}

/// The status of the first item that is not valid or comes before the previous one.
fn list_fault(items: &[Octets<'_>]) -> Option<Status>
    ensures status { result ≡ list_fault 0 [] items.now }
    ensures code { IfSome result (λ status. 0 < status.code) }
    ensures sorted { IfNone result (IsSortedList octets_at items.now) }
    ensures unsorted { IfSome result (λ _. IsSortedList octets_at items.now → ⊥) }
    ensures first { IfSome result (λ status. IsFirstUnsorted items.now status.len) }
{
    let mut before: Option<ObjectIdentifierRef<'_>> = None;
    for (index, item) in items.iter().enumerate() {
        match read_after(index, before, item.contents()) {
            Ok(oid) => before = Some(oid),
            Err(status) => return Some(status),
        }
    }
    None
}

/// The identifier at an index, after the previous one, or the status of what is wrong with it.
fn read_after<'a>(
    index: usize,
    before: Option<ObjectIdentifierRef<'_>>,
    octets: &'a [u8],
) -> Result<ObjectIdentifierRef<'a>, Status>
    ensures none { IfOk result (λ oid. fault_after index (arcs_before before.entry) octets.now ≡ None) }
    ensures octets { IfOk result (λ oid. ref_octets oid ≡ octets.now) }
    ensures encoding { IfOk result (λ oid. IsEncoding root_rule (ref_arcs oid) octets.now) }
    ensures sorted { IfOk result (λ oid. is_lt (slice_cmp nat_cmp (ref_arcs oid) (arcs_before before.entry)) ≡ false) }
    ensures status { IfErr result (λ status. fault_after index (arcs_before before.entry) octets.now ≡ Some status) }
    ensures code { IfErr result (λ status. 0 < status.code) }
    ensures index { IfErr result (λ status. status.len ≡ index) }
    ensures invalid { IfErr result (λ _. IsEncoding root_rule (arcs_of_octets octets.now) octets.now
        → is_lt (slice_cmp nat_cmp (arcs_of_octets octets.now) (arcs_before before.entry)) ≡ true) }
{
    match ObjectIdentifierRef::from_bytes(octets) {
        Ok(oid) if comes_before(oid, before) => Err(Status {
            len: index,
            ..code_status(UNSORTED)
        }),
        Ok(oid) => Ok(oid),
        Err(fault) => Err(fault_at(index, fault)),
    }
}

/// Whether an identifier comes before the previous one, if there is one.
fn comes_before(oid: ObjectIdentifierRef<'_>, before: Option<ObjectIdentifierRef<'_>>) -> bool
    ensures { result ≡ is_lt (slice_cmp nat_cmp (ref_arcs oid.entry) (arcs_before before.entry)) }
{
    match before {
        Some(before) => oid.cmp_arcs(&before).is_lt(),
        None => false,
    }
}
