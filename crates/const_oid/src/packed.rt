//! Names of identifiers, by a table without pointers.

ghost use Rattle.std.specs.Prelude.{◌≡◌, ◌<◌, All, IfSome, length, nat_eq};
ghost use Rattle.std.specs.Cmp.Lexicographic.{pointwise};
ghost use Rattle.std.specs.Option.{option_map};
ghost use Rattle.std.proofs.Props.{props};
ghost use Rattle.const_oid.specs.Oid.{oid_arcs, oid_octets};
ghost use Rattle.const_oid.specs.Packed.{IsPacked, name_at, octets_at, packed_rows};
ghost use Rattle.const_oid.specs.Private.Links.{AreLinks};
ghost use Rattle.const_oid.specs.Private.Octets.{with_bits};

use crate::compare::{CASE, is_same_name};
use crate::links::{Entry, first_linked};
use crate::oid::Oid;
use std::str;

/// A row: where its name begins, its length, and the index of its identifier.
#[derive(Copy, Clone)]
pub(crate) struct PackedRow {
    pub(crate) start: u32,
    pub(crate) len: u16,
    pub(crate) oid: u16,
}

/// A table of identifiers and their names without pointers. It takes less room in a program than a
/// [`Database`](crate::db::Database) of the same rows, and [`Tables`](crate::db::Tables) ask both alike. Only this
/// crate makes one.
#[derive(Copy, Clone)]
pub struct PackedDatabase<'a> {
    // Each identifier once.
    oids: &'a [Oid],
    // The names of all rows, one after another.
    names: &'a [u8],
    pub(crate) rows: &'a [PackedRow],
    oid_links: &'a [u16],
    name_links: &'a [u16],
    ghost packed: { All (IsPacked oids.now names.now) rows.now } by { Prim.hlevel props },
    ghost by_oid: { AreLinks (octets_at oids.now) rows.now oid_links.now } by { Prim.hlevel props },
    ghost by_name: { AreLinks (λ row. with_bits 32 (name_at names.now row)) rows.now name_links.now } by { Prim.hlevel props },
    ghost linked: { (length rows.now < length oid_links.now) × (length rows.now < length name_links.now) },
}

impl<'a> PackedDatabase<'a> {
    ghost use Rattle.const_oid.specs.Names.{lent_arcs};
    ghost use Rattle.const_oid.specs.Rows.{led, named, packed_rows_of, row_arcs, row_name, row_octets, IsRow};

    /// A table of these slices. Only the cargo crate calls this.
    pub(crate) const fn new(
        oids: &'a [Oid],
        names: &'a [u8],
        rows: &'a [PackedRow],
        oid_links: &'a [u16],
        name_links: &'a [u16],
    ) -> Self
        requires packed { All (IsPacked oids.now names.now) rows.now }
        requires by_oid { AreLinks (octets_at oids.now) rows.now oid_links.now }
        requires by_name { AreLinks (λ row. with_bits 32 (name_at names.now row)) rows.now name_links.now }
        requires linked { (length rows.now < length oid_links.now) × (length rows.now < length name_links.now) }
        ensures { packed_rows_of result ≡ packed_rows oids.now names.now rows.now }
    {
        PackedDatabase {
            oids,
            names,
            rows,
            oid_links,
            name_links,
        }
    }

    /// The first row with an identifier, or `None`.
    // erase: const
    pub(crate) fn entry_of(&self, oid: &Oid) -> Option<Entry<'a>>
        ensures name { option_map (λ entry. entry.1.now) result ≡ named (packed_rows_of self.now) (oid_arcs oid.now) }
        ensures oid { IfSome result (λ entry. oid_arcs entry.0.now ≡ oid_arcs oid.now) }
    {
        let count = self.rows.len();
        let mut index = first_linked::<0>(self.oid_links, count, oid.as_bytes());
        while index < count {
            let row = &self.rows[index];
            if self.has_oid(row, oid) {
                return Some((self.oid_at(row), self.text_at(row)));
            }
            index = self.oid_links[index] as usize;
        }
        None
    }

    /// The identifier in the first row with a name of these bytes, ignoring ASCII case, or `None`.
    // erase: const
    pub(crate) fn by_name_bytes(&self, name: &[u8]) -> Option<&'a Oid>
        ensures { option_map lent_arcs result ≡ led (packed_rows_of self.now) name.now }
    {
        let count = self.rows.len();
        let mut index = first_linked::<CASE>(self.name_links, count, name);
        while index < count {
            let row = &self.rows[index];
            if is_same_name(self.name_at(row), name) {
                return Some(self.oid_at(row));
            }
            index = self.name_links[index] as usize;
        }
        None
    }

    /// Whether a row has this identifier.
    // erase: const
    #[inline(always)]
    fn has_oid(&self, row: &PackedRow, oid: &Oid) -> bool
        requires { IsRow self.now row.now }
        ensures { result ≡ pointwise nat_eq (row_arcs self.now row.now) (oid_arcs oid.now) }
    {
        self.oid_at(row).eq_last_first(oid)
    }

    /// The identifier of a row.
    // erase: const
    #[inline(always)]
    fn oid_at(&self, row: &PackedRow) -> &'a Oid
        requires { IsRow self.now row.now }
        ensures { oid_octets result.now ≡ row_octets self.now row.now }
    {
        &self.oids[row.oid as usize]
    }

    /// The bytes of the name of a row.
    // erase: const
    #[inline(always)]
    pub(crate) fn name_at(&self, row: &PackedRow) -> &'a [u8]
        requires { IsRow self.now row.now }
        ensures { result.now ≡ row_name self.now row.now }
    {
        let (_, later) = self.names.split_at(row.start as usize);
        later.split_at(row.len as usize).0
    }

    /// The name of a row.
    // erase: const
    #[inline(always)]
    fn text_at(&self, row: &PackedRow) -> &'a str
        requires { IsRow self.now row.now }
        ensures { result.now ≡ row_name self.now row.now }
    {
        // SAFETY: the name of each row is UTF-8.
        unsafe { str::from_utf8_unchecked(self.name_at(row)) }
    }
}
