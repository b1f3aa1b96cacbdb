//! Names of identifiers, by a table that the caller holds.

ghost use Rattle.std.specs.Prelude.{◌≡◌, ◌↔◌, ◌^◌, ◌<◌, ◌≤◌, IfSome, IsTrue, length, nat_eq};
ghost use Rattle.std.specs.Cmp.Lexicographic.{pointwise};
ghost use Rattle.std.specs.Option.{option_map};
ghost use Rattle.std.specs.Iterator.{YieldsFirst, item_count};
ghost use Rattle.std.proofs.Props.{props};
ghost use Rattle.const_oid.specs.declared.links.Key.{Key};
ghost use Rattle.const_oid.specs.Oid.{oid_arcs, oid_octets};
ghost use Rattle.const_oid.specs.Private.Links.{AreLinks, IsInSlot, key_of};

use crate::compare::{CASE, is_same_name};
pub use crate::db_sorted::SortedDatabase;
use crate::error::Result;
use crate::links::{Entry, Key, first_candidate, links_in, next_candidate};
use crate::oid::Oid;

/// A table of identifiers and their names, in any order. An identifier may have several names, and a name several
/// identifiers.
///
/// Names are compared ignoring ASCII case.
///
/// # Examples
///
/// ```
/// use const_oid::{ObjectIdentifier, db::Database};
///
/// const CN: ObjectIdentifier = ObjectIdentifier::new_unwrap("2.5.4.3");
/// const NAMES: Database<'static> = Database::new(&[(&CN, "cn"), (&CN, "commonName")]);
/// const NAME: Option<&str> = NAMES.by_oid(&CN);
/// assert_eq!((NAME, NAMES.by_name("commonname")), (Some("cn"), Some(&CN)));
/// assert!(NAMES.find_names_for_oid(CN).eq(["cn", "commonName"]));
/// assert_eq!((NAMES.resolve("2.5.4.3"), NAMES.resolve("2.999")), (Ok("cn"), Ok("2.999")));
///
/// let mut memory = [0; 9];
/// let indexed = NAMES.indexed(&mut memory);
/// assert_eq!((indexed.is_indexed(), indexed.by_name("commonname")), (true, Some(&CN)));
/// ```
#[derive(Copy, Clone)]
pub struct Database<'a> {
    pub(crate) entries: &'a [Entry<'a>],
    // Links by identifier, and by name. With no links, such a lookup reads all entries.
    oid_links: &'a [u16],
    name_links: &'a [u16],
    ghost by_oid: { AreLinks (key_of Key.Oid) entries.now oid_links.now } by { Prim.hlevel props },
    ghost by_name: { AreLinks (key_of Key.Name) entries.now name_links.now } by { Prim.hlevel props },
}

impl<'a> Database<'a> {
    ghost use Rattle.const_oid.specs.Names.{lent_arcs, entries_of, first_name, name_of, resolve_answer, all_names, first_oid, names_left, IsIndexed};

    /// A database over these entries. [`Database`] has an example.
    pub const fn new(entries: &'a [Entry<'a>]) -> Self
        ensures entries { entries_of result ≡ entries.now }
        ensures scanned { ¬ (IsIndexed result) }
    {
        Database {
            entries,
            oid_links: &[],
            name_links: &[],
        }
    }

    /// The database with links of its entries. Only the cargo crate calls this: for `DB`.
    pub(crate) const fn linked(self, oid_links: &'a [u16], name_links: &'a [u16]) -> Self
        requires by_oid { AreLinks (key_of Key.Oid) (entries_of self) oid_links.now }
        requires by_name { AreLinks (key_of Key.Name) (entries_of self) name_links.now }
        ensures entries { entries_of result ≡ entries_of self.entry }
        ensures indexed { let count = length (entries_of self.entry) in
            count < length oid_links.now → count < length name_links.now → IsIndexed result }
    {
        Database {
            entries: self.entries,
            oid_links,
            name_links,
        }
    }

    /// The database with an index in lent memory: a lookup reads a few entries, and not all, and returns the same, for
    /// as long as the memory is lent.
    ///
    /// For n entries, from three on, 4n numbers are a good length, and 6n find names in a large table faster. With
    /// fewer than 3n + 3 there is no index by name, and with n or fewer none at all. Over 65,535 entries have no index:
    /// take [`SortedDatabase`] for identifiers. An index that the database has, as `DB` does, stays if it is no
    /// shorter. None is made in which some lookup would read over a quarter of the entries and two: a scan is faster.
    /// [`is_indexed`](Self::is_indexed) tells.
    ///
    /// [`Database`] has an example.
    pub fn indexed(self, memory: &'a mut [u16]) -> Self
        ensures entries { entries_of result ≡ entries_of self.entry }
        ensures kept { IsIndexed self.entry → IsIndexed result }
        ensures limit { 2 ^ 16 ≤ length (entries_of self.entry) → IsIndexed result → IsIndexed self.entry }
    {
        // An index with a slot for every two entries is fast. If half of the memory is too short for one, all is for
        // the index by identifier, which has more slots then.
        let len = if memory.len() / 3 > self.entries.len() {
            memory.len() / 2
        } else {
            memory.len()
        };
        let (by_oid, by_name) = memory.split_at_mut(len);
        Database {
            entries: self.entries,
            oid_links: links_in(self.entries, Key::Oid, self.oid_links, by_oid),
            name_links: links_in(self.entries, Key::Name, self.name_links, by_name),
        }
    }

    /// Whether lookups by identifier and by name both use an index, as those of `DB` do. [`Database`] has an example.
    pub const fn is_indexed(&self) -> bool
        ensures { IsTrue result ↔ IsIndexed self.now }
    {
        let count = self.entries.len();
        count < self.oid_links.len() && count < self.name_links.len()
    }

    /// The name in the first entry with this identifier, or `None`. If `oid` is borrowed: `by_oid(&oid.try_into()?)`.
    ///
    /// One of another capacity is borrowed first: `by_oid(&oid.as_oid_ref().try_into()?)`. `try_into` fails on what
    /// does not fit, which is not in the table.
    ///
    /// # Examples
    ///
    /// ```
    /// use const_oid::{ObjectIdentifierRef, db::{DB, rfc4519}};
    ///
    /// assert_eq!(DB.by_oid(&rfc4519::CN), Some("cn"));
    /// let oid = ObjectIdentifierRef::from_bytes(&[0x55, 4, 3])?;
    /// assert_eq!(DB.by_oid(&oid.try_into()?), Some("cn"));
    /// # Ok::<(), const_oid::Error>(())
    /// ```
    // erase: const
    pub fn by_oid(&self, oid: &Oid) -> Option<&'a str>
        ensures { result ≡ first_name lent_arcs (entries_of self.now) (oid_arcs oid.now) }
    {
        match self.entry_of(oid) {
            Some(entry) => Some(entry.1),
            None => None,
        }
    }

    /// The first entry with this identifier, or `None`.
    // erase: const
    pub(crate) fn entry_of(&self, oid: &Oid) -> Option<Entry<'a>>
        ensures name { option_map name_of result ≡ first_name lent_arcs (entries_of self.now) (oid_arcs oid.now) }
        ensures oid { IfSome result (λ entry. lent_arcs entry.0 ≡ oid_arcs oid.now) }
    {
        let count = self.entries.len();
        let mut index = first_candidate::<0>(self.oid_links, count, oid.as_bytes());
        while index < count {
            let entry = &self.entries[index];
            if has_oid(entry, oid) {
                return Some(*entry);
            }
            index = next_candidate(self.oid_links, count, index);
        }
        None
    }

    /// The identifier in the first entry with this name, ignoring ASCII case, or `None` if there is no such entry.
    /// [`Database`] has an example.
    // erase: const
    #[inline]
    pub fn by_name(&self, name: &str) -> Option<&'a Oid>
        ensures { result ≡ first_oid (entries_of self.now) name.now }
    {
        self.by_name_bytes(name.as_bytes())
    }

    /// The identifier in the first entry with a name of these bytes, ignoring ASCII case, or `None`.
    // erase: const
    pub(crate) fn by_name_bytes(&self, name: &[u8]) -> Option<&'a Oid>
        ensures { result ≡ first_oid (entries_of self.now) name.now }
    {
        let count = self.entries.len();
        let mut index = first_candidate::<CASE>(self.name_links, count, name);
        while index < count {
            let entry = &self.entries[index];
            if is_same_name(entry.1.as_bytes(), name) {
                return Some(entry.0);
            }
            index = next_candidate(self.name_links, count, index);
        }
        None
    }

    /// The names in all entries with this identifier, in the order of the table, one for each entry. [`Database`] has
    /// an example.
    // erase: const
    pub fn find_names_for_oid(&self, oid: Oid) -> Names<'a>
        ensures { names_left result ≡ all_names lent_arcs (entries_of self.now) (oid_arcs oid) }
    {
        Names {
            database: *self,
            index: first_candidate::<0>(self.oid_links, self.entries.len(), oid.as_bytes()),
            oid,
        }
    }

    /// Parses dotted text, and returns the name of its identifier as [`by_oid`](Self::by_oid) does, or the text
    /// itself, unchanged, if the table has no name for it. [`Database`] has an example.
    ///
    /// # Errors
    ///
    /// Those of `new` of an owned identifier.
    pub fn resolve<'b>(&self, oid: &'b str) -> Result<&'b str>
    where
        'a: 'b,
        ensures { result ≡ resolve_answer (entries_of self.now) oid.entry }
    {
        let name = self.by_oid(&Oid::new(oid)?);
        Ok(name.unwrap_or(oid))
    }
}

/// An iterator over the names of an identifier, in the order of the table. [`Database`] has an example.
#[derive(Drop)]
pub struct Names<'a> {
    database: Database<'a>,
    /// The index of the first entry that is left.
    index: usize,
    oid: Oid,
    ghost within: { index ≤ length database.entries.now },
    ghost in_slot: { IsInSlot (key_of Key.Oid) database.entries.now database.oid_links.now (oid_octets oid) index } by { Prim.hlevel props },
}

impl<'a> Iterator for Names<'a> {
    type Item = &'a str;

    ghost use Rattle.const_oid.specs.Names.{names_left};

    ghost next_gives = { YieldsFirst names_left };

    ghost remaining = { item_count names_left };

    /// The next name; after the last one `None`, each time.
    fn next(&mut self) -> Option<&'a str> {
        while self.index < self.database.entries.len() {
            let Database {
                oid_links,
                entries,
                ..
            } = self.database;
            let entry = &entries[self.index];
            self.index = next_candidate(oid_links, entries.len(), self.index);
            if has_oid(entry, &self.oid) {
                return Some(entry.1);
            }
        }
        None
    }
}

/// Whether an entry has this identifier.
// erase: const
fn has_oid(entry: &Entry<'_>, oid: &Oid) -> bool
    ensures { result ≡ pointwise nat_eq (oid_arcs entry.now.0.now) (oid_arcs oid.now) }
{
    entry.0.eq_last_first(oid)
}
