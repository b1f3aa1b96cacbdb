//! Searches in a list of items with contents octets that is sorted by arcs.
//!
//! No search checks the list. Over a list that is not sorted, or with an item that is not valid, the result is
//! unspecified, but within the list.

ghost use Rattle.std.specs.Prelude.{◌≡◌, ◌<◌, ◌≤◌, ◌↔◌, ℕ, List, [], length, true, false, count_by, slice_get, All, IfNone, IfSome, IsFalse, IsTrue, Some};
ghost use Rattle.std.specs.Cmp.Lexicographic.{slice_cmp};
ghost use Rattle.std.specs.List.{HoldsAt, position};
ghost use Rattle.std.specs.List.Sorted.{IsPartitionPoint};
ghost use Rattle.std.specs.Ordering.{nat_cmp, is_lt};
ghost use Rattle.const_oid.specs.Names.{IsNearestBy};
ghost use Rattle.const_oid.specs.OidRef.{ref_arcs, ref_octets};
ghost use Rattle.const_oid.specs.Private.Prefixes.{IsCommonPrefix};
ghost use Rattle.const_oid.specs.SortedList.{IsSortedList, IsStart, has_item_arcs, item_arcs};
ghost use Rattle.const_oid.specs.Tree.{BeginsWith};

pub use crate::compare::order_by_parts;
use crate::compare::{begins_with, common_parts};
use crate::fast::comparison::are_equal;
use crate::fast::steps::gallop;
use crate::oid_ref::ObjectIdentifierRef;

/// An item that has contents octets, which need not be valid.
pub trait Contents {
    /// The contents octets of an item.
    ghost octets_of: { Self → List ℕ };

    /// The contents octets.
    fn contents(&self) -> &[u8]
        ensures { result.now ≡ octets_of self.now };
}

/// The index of the first item that does not come before an identifier, or the number of items if there is none.
pub fn start_of<T: Contents>(items: &[T], oid: &ObjectIdentifierRef<'_>) -> usize
    ensures within { result ≤ length items.now }
    ensures cut { IsSortedList T.octets_of items.now → IsStart T.octets_of items.now (ref_arcs oid.now) result }
{
    items.partition_point(|item| order_by_parts(item.contents(), oid.as_bytes()).is_lt())
}

/// The index of the first item that comes after an identifier, or the number of items if there is none.
pub fn end_of<T: Contents>(items: &[T], oid: &ObjectIdentifierRef<'_>) -> usize
    ensures within { result ≤ length items.now }
    ensures cut { IsSortedList T.octets_of items.now
        → IsPartitionPoint (λ item. is_lt (slice_cmp nat_cmp (ref_arcs oid.now) (item_arcs T.octets_of item)) ≡ false)
        (λ item. is_lt (slice_cmp nat_cmp (ref_arcs oid.now) (item_arcs T.octets_of item)) ≡ true) items.now result }
{
    items.partition_point(|item| order_by_parts(oid.as_bytes(), item.contents()).is_ge())
}

/// The index of the first item with the arcs of an identifier, or `None` if no item has them.
pub fn first_of<T: Contents>(items: &[T], oid: &ObjectIdentifierRef<'_>) -> Option<usize>
    ensures found { IsSortedList T.octets_of items.now → result ≡ position (has_item_arcs T.octets_of (ref_arcs oid.now)) items.now }
    ensures within { IfSome result (λ index. index < length items.now) }
{
    found_at(items, start_of(items, oid), oid)
}

/// The index at which an identifier would be inserted, if an item there has its octets.
fn found_at<T: Contents>(items: &[T], start: usize, oid: &ObjectIdentifierRef<'_>) -> Option<usize>
    ensures found { IsSortedList T.octets_of items.now → IsStart T.octets_of items.now (ref_arcs oid.now) start
        → result ≡ position (has_item_arcs T.octets_of (ref_arcs oid.now)) items.now }
    ensures within { IfSome result (λ index. index < length items.now) }
{
    if start < items.len() && are_equal(items[start].contents(), oid.as_bytes()) {
        Some(start)
    } else {
        None
    }
}

/// The range of the items whose arcs begin with those of an identifier: from the first index up to, but not including,
/// the second. If there are none, both are the index at which the identifier would be inserted.
pub fn subtree_of<T: Contents>(items: &[T], oid: &ObjectIdentifierRef<'_>) -> (usize, usize)
    ensures bounds { (result.0 ≤ result.1) × (result.1 ≤ length items.now) }
    ensures start { IsSortedList T.octets_of items.now → result.0
        ≡ count_by (λ item. is_lt (slice_cmp nat_cmp (item_arcs T.octets_of item) (ref_arcs oid.now))) items.now }
    ensures inside { IsSortedList T.octets_of items.now → (k : ℕ) → IfSome (slice_get items.now k) (λ item.
        BeginsWith (item_arcs T.octets_of item) (ref_arcs oid.now) ↔ ((result.0 ≤ k) × (k < result.1))) }
{
    let start = start_of(items, oid);
    let len = gallop(
        &items[start..],
        |item| begins_with(item.contents(), oid.as_bytes()),
    );
    (start, start + len)
}

/// The index of the first item with the longest prefix of an identifier, which may be the identifier itself, or `None`
/// if the list has no prefix.
pub fn nearest_of<T: Contents>(items: &[T], oid: &ObjectIdentifierRef<'_>) -> Option<usize>
    ensures found { IsSortedList T.octets_of items.now → IfSome result (λ index.
        IfSome (slice_get items.now index) (IsNearestBy (item_arcs T.octets_of) items.now (ref_arcs oid.now))) }
    ensures first { IsSortedList T.octets_of items.now → IfSome result (λ index.
        IfSome (slice_get items.now index) (λ item. position (has_item_arcs T.octets_of (item_arcs T.octets_of item)) items.now ≡ Some index)) }
    ensures none { IsSortedList T.octets_of items.now → IfNone result (All (λ item. BeginsWith (ref_arcs oid.now) (item_arcs T.octets_of item) → ⊥) items.now) }
    ensures within { IfSome result (λ index. index < length items.now) }
{
    let mut start = start_of(items, oid);
    if let Some(index) = found_at(items, start, oid) {
        return Some(index);
    }
    let mut above = *oid;
    loop {
        // A prefix of `above` that the list has is also one of the last item before it, so their common prefix is next.
        let last = start.checked_sub(1)?;
        above = common_prefix(above, items[last].contents())?;
        start = first_under(items, last, &above);
        // The item there begins with `above`.
        if items[start].contents().len() == above.as_bytes().len() {
            return Some(start);
        }
    }
}

/// The index of the first item that does not come before an identifier, if the item at `last` begins with it.
fn first_under<T: Contents>(items: &[T], last: usize, oid: &ObjectIdentifierRef<'_>) -> usize
    requires { last < length items.now }
    ensures within { result ≤ last }
    ensures cut { IsSortedList T.octets_of items.now
        → HoldsAt (λ item. BeginsWith (T.octets_of item) (ref_octets oid.now)) items.now last
        → IsStart T.octets_of items.now (ref_arcs oid.now) result }
{
    // Often it is the item at `last` itself, which saves a search.
    if last == 0 || !is_under(&items[last - 1], oid) {
        return last;
    }
    items[..last].partition_point(|item| is_outside(item, oid))
}

/// Whether an item does not begin with an identifier. The first octet of a short one is compared first.
#[inline(never)]
fn is_outside<T: Contents>(item: &T, oid: &ObjectIdentifierRef<'_>) -> bool
    ensures { IsFalse result ↔ BeginsWith (T.octets_of item.now) (ref_octets oid.now) }
{
    !begins_with(item.contents(), oid.as_bytes())
}

/// Whether an item begins with an identifier. The last octet is compared first, since neighbours mostly differ there.
#[tactic(auto, using(crate::proofs::BeginsWith::begins_iff))]
fn is_under<T: Contents>(item: &T, oid: &ObjectIdentifierRef<'_>) -> bool
    ensures { IsTrue result ↔ BeginsWith (T.octets_of item.now) (ref_octets oid.now) }
{
    let (octets, prefix) = (item.contents(), oid.as_bytes());
    octets.len() >= prefix.len() && are_equal(prefix, &octets[..prefix.len()])
}

/// The longest identifier that begins an identifier and other octets, or `None` if there is none.
fn common_prefix<'a>(oid: ObjectIdentifierRef<'a>, others: &[u8]) -> Option<ObjectIdentifierRef<'a>>
    ensures some { IfSome result (λ prefix. IsCommonPrefix (ref_octets oid.entry) others.now (ref_octets prefix)) }
    ensures none { IfNone result (IsCommonPrefix (ref_octets oid.entry) others.now []) }
{
    let prefix = common_parts(oid.as_bytes(), others);
    if prefix.is_empty() {
        return None;
    }
    Some(ObjectIdentifierRef::from_checked(prefix))
}
