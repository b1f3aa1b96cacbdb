//! Tables whose names are read as they are displayed.

ghost use Rattle.std.specs.Prelude.{◌≡◌, ◌<◌, ◌↔◌, All, IsTrue, length};
ghost use Rattle.const_oid.specs.Names.{name_of};
ghost use Rattle.const_oid.specs.Rows.{packed_rows_of, rows_in, rows_of};
ghost use Rattle.const_oid.specs.Typed.{ArePlain, AreReadable, HasNoFront, IsPlain, IsReadable, is_front};

use crate::compare::is_same_name;
use crate::links::Entry;
use crate::named::MAX_NAME_BYTES;
use crate::packed::PackedDatabase;
use crate::tables::{Table, Tables};
use crate::typed::{bare, begins_with_digit};

impl Tables<'_> {
    /// Whether each name is parsed as itself, alone and before arcs: then what these tables display of an identifier is
    /// parsed as this identifier. [`Tables`] has an example.
    ///
    /// A name that is not has a blank at an end or a prefix, begins with a digit, is empty, is `OID` in any case, is
    /// longer than 255 bytes, or begins with another name, a dot and a digit.
    pub fn is_readable(&self) -> bool
        ensures plain { let rows = rows_in self.now in IsTrue result ↔ ArePlain rows rows }
        ensures readable { IsTrue result → AreReadable (rows_in self.now) }
    {
        for table in self.0 {
            if !self.are_plain(table) {
                return false;
            }
        }
        true
    }

    /// Whether the names of a table are plain.
    fn are_plain(&self, table: &Table<'_>) -> bool
        ensures { IsTrue result ↔ ArePlain (rows_in self.now) (rows_of table.now) }
    {
        match table {
            Table::Listed(table) => self.are_listed_plain(table.entries),
            Table::Packed(table) => self.are_packed_plain(table),
        }
    }

    /// Whether the names of entries are plain.
    fn are_listed_plain(&self, entries: &[Entry<'_>]) -> bool
        ensures { IsTrue result ↔ All (λ entry. IsPlain (rows_in self.now) (name_of entry).now) entries.now }
    {
        entries
            .iter()
            .all(|entry| self.is_plain(entry.1.as_bytes()))
    }

    /// Whether the names of a table without pointers are plain.
    fn are_packed_plain(&self, table: &PackedDatabase<'_>) -> bool
        ensures { IsTrue result ↔ ArePlain (rows_in self.now) (packed_rows_of table.now) }
    {
        for row in table.rows {
            if !self.is_plain(table.name_at(row)) {
                return false;
            }
        }
        true
    }

    /// Whether a name is readable, and does not begin with a name and arcs.
    fn is_plain(&self, name: &[u8]) -> bool
        ensures { IsTrue result ↔ IsPlain (rows_in self.now) name.now }
    {
        is_readable_name(name) && self.has_no_front(name)
    }

    /// Whether a name does not begin with a name and arcs.
    fn has_no_front(&self, name: &[u8]) -> bool
        ensures { IsTrue result ↔ HasNoFront (rows_in self.now) name.now }
    {
        for end in 0..name.len() {
            if self.is_front(name, end) {
                return false;
            }
        }
        true
    }

    /// Whether a name begins with a name that ends at an index, a dot and a digit.
    fn is_front(&self, name: &[u8], end: usize) -> bool
        requires { end < length name.now }
        ensures { result ≡ is_front (rows_in self.now) name.now end }
    {
        let (front, rest) = name.split_at(end);
        matches!(rest, [b'.', b'0'..=b'9', ..]) && self.by_name_bytes(front).is_some()
    }
}

/// Whether a name is read as itself, alone and before arcs.
fn is_readable_name(name: &[u8]) -> bool
    ensures { IsTrue result ↔ IsReadable name.now }
{
    bare(name) == name
        && !begins_with_digit(name)
        && !name.is_empty()
        && !is_same_name(name, b"OID")
        && name.len() <= MAX_NAME_BYTES
}
