//! Names of borrowed identifiers, by binary search in a table that is sorted by arcs.

ghost use Rattle.std.specs.Prelude.{◌≡◌, ◌↔◌, IfNone, IfSome, IsSome, find};
ghost use Rattle.std.specs.Cmp.Lexicographic.{slice_cmp};
ghost use Rattle.std.specs.List.{All};
ghost use Rattle.std.specs.List.Sorted.{IsSortedByKey};
ghost use Rattle.std.specs.Option.{option_copied};
ghost use Rattle.std.specs.Ordering.{nat_cmp, is_lt};
ghost use Rattle.std.proofs.Props.{props};
ghost use Rattle.const_oid.specs.OidRef.{ref_arcs, ref_octets};

use crate::compare::is_same_name;
use crate::oid_ref::ObjectIdentifierRef;
use crate::search::{Contents, end_of, first_of, nearest_of, subtree_of};

/// An identifier and its name.
pub(crate) type Entry<'a> = (ObjectIdentifierRef<'a>, &'a str);

/// A table of borrowed identifiers and their names, sorted by [`cmp_arcs`](ObjectIdentifierRef::cmp_arcs), so that a
/// lookup is a binary search. An identifier may have several names, and a name several identifiers.
///
/// # Examples
///
/// ```
/// use const_oid::{ObjectIdentifier, db::SortedDatabase};
///
/// const MIB_2: ObjectIdentifier = ObjectIdentifier::new_unwrap("1.3.6.1.2.1");
/// const SYSTEM: ObjectIdentifier = ObjectIdentifier::new_unwrap("1.3.6.1.2.1.1");
/// const ENTERPRISES: ObjectIdentifier = ObjectIdentifier::new_unwrap("1.3.6.1.4.1");
/// const NAMES: SortedDatabase<'static> = SortedDatabase::try_new(&[
///     (MIB_2.as_oid_ref(), "mib-2"),
///     (SYSTEM.as_oid_ref(), "system"),
///     (ENTERPRISES.as_oid_ref(), "enterprises"),
/// ])
/// .expect("in the order of arcs");
///
/// let oid = ENTERPRISES.push_arc(8072)?;
/// let (named, name) = NAMES.nearest(&oid).unwrap();
/// assert_eq!(*name, "enterprises");
/// assert!(oid.arcs().skip(named.len()).eq([8072]));
/// assert_eq!((NAMES.by_oid(&MIB_2), NAMES.by_name("MIB-2")), (Some("mib-2"), Some(MIB_2.as_oid_ref())));
/// assert_eq!(NAMES.subtree(&MIB_2), &NAMES.entries()[..2]);
/// assert_eq!(NAMES.next_after(&MIB_2), Some(&NAMES.entries()[1]));
/// assert_eq!(NAMES.next_after(&ENTERPRISES), None);
/// assert!(SortedDatabase::try_new(&[NAMES.entries()[1], NAMES.entries()[0]]).is_none());
/// # Ok::<(), const_oid::Error>(())
/// ```
#[derive(Copy, Clone)]
pub struct SortedDatabase<'a> {
    entries: &'a [Entry<'a>],
    ghost sorted: { IsSortedByKey (λ entry. ref_arcs entry.0) (slice_cmp nat_cmp) entries.now } by { Prim.hlevel props },
}

impl<'a> SortedDatabase<'a> {
    ghost use Rattle.const_oid.specs.Names.{IsNearest, IsSubtree, entry_arcs, first_name, first_oid, sorted_entries_of};
    ghost use Rattle.const_oid.specs.Tree.{BeginsWith};

    /// A database over entries in the order of arcs, that of `sort_by_key(|entry| ByArcs(entry.0))`, or `None`. In a
    /// constant, `.expect(..)` makes another order an error of the compiler. An identifier may have several entries.
    /// [`SortedDatabase`] has an example.
    // erase: const
    pub fn try_new(entries: &'a [Entry<'a>]) -> Option<Self>
        ensures sorted { IsSome result ↔ IsSortedByKey entry_arcs (slice_cmp nat_cmp) entries.now }
        ensures entries { IfSome result (λ database. sorted_entries_of database ≡ entries.now) }
    {
        let mut index = 1;
        while index < entries.len() {
            let previous = &entries[index - 1];
            let next = &entries[index];
            if next.0.cmp_arcs(&previous.0).is_lt() {
                return None;
            }
            index += 1;
        }
        Some(SortedDatabase { entries })
    }

    /// A database over entries in the order of arcs, which is not checked. In another order, as that of text or of
    /// `sort`, lookups miss entries, without an error: [`try_new`](Self::try_new) checks it.
    // In Rattle, this is `new`: the caller proves the order.
    pub const fn new(entries: &'a [Entry<'a>]) -> Self
        requires { IsSortedByKey entry_arcs (slice_cmp nat_cmp) entries.now }
        ensures { sorted_entries_of result ≡ entries.now }
    {
        SortedDatabase { entries }
    }

    /// The name in the first entry with this identifier, or `None` if there is no such entry. [`SortedDatabase`] has an
    /// example.
    pub fn by_oid(&self, oid: &ObjectIdentifierRef<'_>) -> Option<&'a str>
        ensures { result ≡ first_name ref_arcs (sorted_entries_of self.now) (ref_arcs oid.now) }
    {
        let index = first_of(self.entries, oid)?;
        Some(self.entries[index].1)
    }

    /// The identifier in the first entry with this name, ignoring ASCII case, or `None` if there is no such entry. All
    /// entries up to it are read. [`SortedDatabase`] has an example.
    pub fn by_name(&self, name: &str) -> Option<ObjectIdentifierRef<'a>>
        ensures { result ≡ first_oid (sorted_entries_of self.now) name.now }
    {
        let mut entries = self.entries.iter();
        let found = entries.find(|entry| is_same_name(entry.1.as_bytes(), name.as_bytes()))?;
        Some(found.0)
    }

    /// The first entry with the longest prefix of the identifier, which may be the identifier itself, or `None` if the
    /// table has no prefix. [`SortedDatabase`] has an example.
    pub fn nearest(&self, oid: ObjectIdentifierRef<'_>) -> Option<&'a Entry<'a>>
        ensures found { IfSome result (λ entry. IsNearest (sorted_entries_of self.now) (ref_arcs oid.entry) entry.now) }
        ensures none { IfNone result (All (λ entry. BeginsWith (ref_arcs oid.entry) (entry_arcs entry) → ⊥) (sorted_entries_of self.now)) }
    {
        let index = nearest_of(self.entries, &oid)?;
        Some(&self.entries[index])
    }

    /// The entries of the identifier and of its descendants, which are adjacent in the order of arcs.
    /// [`SortedDatabase`] has an example.
    pub fn subtree(&self, oid: &ObjectIdentifierRef<'_>) -> &'a [Entry<'a>]
        ensures { IsSubtree (sorted_entries_of self.now) (ref_arcs oid.now) result.now }
    {
        let (start, end) = subtree_of(self.entries, oid);
        &self.entries[start..end]
    }

    /// The first entry after the identifier, which need not be in the table, as GetNext of SNMP returns it (RFC 3416).
    /// [`SortedDatabase`] has an example.
    pub fn next_after(&self, oid: &ObjectIdentifierRef<'_>) -> Option<&'a Entry<'a>>
        ensures { option_copied result ≡ find (λ entry. is_lt (slice_cmp nat_cmp (ref_arcs oid.now) (entry_arcs entry))) (sorted_entries_of self.now) }
    {
        self.entries.get(end_of(self.entries, oid))
    }
}

/// The octets of an entry are those of its identifier.
impl Contents for (ObjectIdentifierRef<'_>, &str) {
    ghost octets_of = { λ entry. ref_octets entry.0 };

    fn contents(&self) -> &[u8] {
        self.0.as_bytes()
    }
}
