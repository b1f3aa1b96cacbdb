//! Identifiers as people type and read them, by tables of names.

ghost use Rattle.std.specs.Prelude.{◌≡◌, ◌++◌, drop, length, map, min, All, IfNone, IfSome, None, MatchOption, Some};
ghost use Rattle.std.specs.Fmt.{WritesStyledOnOk};
ghost use Rattle.std.specs.Option.{option_copied, option_map};
ghost use Rattle.const_oid.specs.Base128.{value_of};
ghost use Rattle.const_oid.specs.Contents.{cut, later_fault};
ghost use Rattle.const_oid.specs.Names.{IsNearest, entry_arcs, lent_arcs, sorted_entries_in};
ghost use Rattle.const_oid.specs.Oid.{oid_arcs};
ghost use Rattle.const_oid.specs.OidRef.{ref_arcs, ref_octets};
ghost use Rattle.const_oid.specs.Output.{Writes};
ghost use Rattle.const_oid.specs.Private.Nearest.{IsNearer};
ghost use Rattle.const_oid.specs.Text.{text_of};
ghost use Rattle.const_oid.specs.Tree.{BeginsWith};

use crate::arcs::Arcs;
use crate::db::{Database, SortedDatabase};
use crate::db_sorted::Entry;
use crate::digits::{MAX_ARC_LEN, utf8, write_arc, write_bytes};
use crate::fast::slices::octets_from;
use crate::links::Entry as Lent;
use crate::oid::Oid;
use crate::oid_ref::ObjectIdentifierRef;
use crate::packed::PackedDatabase;
use crate::text::{text_len, write_dotted};
use std::fmt;

/// A table of names, with pointers or without. [`Tables`] has an example.
#[derive(Copy, Clone)]
pub enum Table<'a> {
    Listed(Database<'a>),
    Packed(PackedDatabase<'a>),
}

impl<'a> Table<'a> {
    ghost use Rattle.const_oid.specs.Rows.{led, named, rows_of};

    /// The identifier in the first row with a name of these bytes, ignoring ASCII case, or `None`.
    // erase: const
    fn by_name_bytes(&self, name: &[u8]) -> Option<&'a Oid>
        ensures { option_map lent_arcs result ≡ led (rows_of self.now) name.now }
    {
        match self {
            Table::Listed(table) => table.by_name_bytes(name),
            Table::Packed(table) => table.by_name_bytes(name),
        }
    }

    /// The first row with an identifier, or `None`.
    // erase: const
    fn entry_of(&self, oid: &Oid) -> Option<Lent<'a>>
        ensures name { option_map (λ entry. entry.1.now) result ≡ named (rows_of self.now) (oid_arcs oid.now) }
        ensures oid { IfSome result (λ entry. oid_arcs entry.0.now ≡ oid_arcs oid.now) }
    {
        match self {
            Table::Listed(table) => table.entry_of(oid),
            Table::Packed(table) => table.entry_of(oid),
        }
    }
}

/// Tables of names, which are asked in their order.
///
/// # Examples
///
/// ```
/// use const_oid::{ObjectIdentifier, db::{Database, PACKED_COMMON, PACKED_DB, Table, Tables}};
///
/// const LAMP: ObjectIdentifier = ObjectIdentifier::new_unwrap("1.3.6.1.4.1.32473.1");
/// const OURS: Database<'static> = Database::new(&[(&LAMP, "lamp")]);
/// const NAMES: Tables<'static> = Tables(&[Table::Listed(OURS), Table::Packed(PACKED_DB), Table::Packed(PACKED_COMMON)]);
///
/// let oid = LAMP.push_arc(3)?;
/// let shown = NAMES.display(&oid);
/// assert_eq!((shown.to_string().as_str(), shown.text_len()), ("lamp.3", 6));
/// assert_eq!((NAMES.by_name("Lamp"), NAMES.by_oid(&LAMP)), (Some(&LAMP), Some("lamp")));
/// assert_eq!(NAMES.nearest(&oid).map(|(prefix, name)| (prefix.arcs().count(), name)), Some((8, "lamp")));
/// assert_eq!(shown.encode_text(&mut [0; 5]), None);
/// assert!(NAMES.is_readable());
/// # Ok::<(), const_oid::Error>(())
/// ```
#[derive(Copy, Clone)]
pub struct Tables<'a>(pub &'a [Table<'a>]);

impl<'a> Tables<'a> {
    ghost use Rattle.const_oid.specs.Rows.{led, named, rows_in, IsNearestRow};
    ghost use Rattle.const_oid.specs.Typed.{displayed, displayed_by, dotted, shown};

    /// The identifier that a name has in the first table that has it, ignoring ASCII case, or `None`. [`Tables`] has an
    /// example.
    // erase: const
    #[inline]
    pub fn by_name(&self, name: &str) -> Option<&'a Oid>
        ensures { option_map lent_arcs result ≡ led (rows_in self.now) name.now }
    {
        self.by_name_bytes(name.as_bytes())
    }

    /// The identifier that a name of these bytes has in the first table that has it, ignoring ASCII case, or `None`.
    // erase: const
    pub(crate) fn by_name_bytes(&self, name: &[u8]) -> Option<&'a Oid>
        ensures { option_map lent_arcs result ≡ led (rows_in self.now) name.now }
    {
        let mut left = self.0;
        while let [table, rest @ ..] = left {
            if let Some(oid) = table.by_name_bytes(name) {
                return Some(oid);
            }
            left = rest;
        }
        None
    }

    /// The first name of an identifier in the first table that has one, or `None`. [`Tables`] has an example.
    // erase: const
    pub fn by_oid(&self, oid: &Oid) -> Option<&'a str>
        ensures { option_copied result ≡ named (rows_in self.now) (oid_arcs oid.now) }
    {
        match self.entry_of(oid) {
            Some(entry) => Some(entry.1),
            None => None,
        }
    }

    /// The first row with an identifier in the first table that has one, or `None`.
    // erase: const
    fn entry_of(&self, oid: &Oid) -> Option<Lent<'a>>
        ensures name { option_map (λ entry. entry.1.now) result ≡ named (rows_in self.now) (oid_arcs oid.now) }
        ensures oid { IfSome result (λ entry. oid_arcs entry.0.now ≡ oid_arcs oid.now) }
    {
        let mut left = self.0;
        while let [table, rest @ ..] = left {
            if let Some(entry) = table.entry_of(oid) {
                return Some(entry);
            }
            left = rest;
        }
        None
    }

    /// The identifier and the name of the first row with the longest prefix of an identifier, which may be the
    /// identifier itself, or `None` if no table has a prefix. [`Tables`] has an example.
    pub fn nearest(&self, oid: ObjectIdentifierRef<'_>) -> Option<Entry<'a>>
        ensures found { IfSome result (λ entry. IsNearestRow (rows_in self.now) (ref_arcs oid.entry) (ref_arcs entry.0) entry.1.now) }
        ensures none { IfNone result (All (λ row. BeginsWith (ref_arcs oid.entry) (oid_arcs row.0) → ⊥) (rows_in self.now)) }
    {
        let mut above = oid;
        loop {
            if let Some(entry) = self.lent_entry_of(above) {
                return Some(entry);
            }
            above = above.parent()?;
        }
    }

    /// The first row with a borrowed identifier, or `None`.
    fn lent_entry_of(&self, oid: ObjectIdentifierRef<'_>) -> Option<Entry<'a>>
        ensures name { option_map (λ entry. entry.1.now) result ≡ named (rows_in self.now) (ref_arcs oid.entry) }
        ensures oid { IfSome result (λ entry. ref_arcs entry.0 ≡ ref_arcs oid.entry) }
    {
        let (oid, name) = self.entry_of(&Oid::try_from_ref(oid).ok()?)?;
        Some((oid.as_oid_ref(), name))
    }

    /// The name that is shown for an identifier of any length: its first one, if it leads back, or `None`.
    pub(crate) fn shown(&self, oid: ObjectIdentifierRef<'_>) -> Option<&'a str>
        ensures { option_copied result ≡ shown (rows_in self.now) (ref_arcs oid.entry) }
    {
        let oid = Oid::try_from_ref(oid).ok()?;
        let name = self.by_oid(&oid)?;
        let other = self.by_name(name)?;
        if other.eq_last_first(&oid) {
            Some(name)
        } else {
            None
        }
    }

    /// The text of an identifier: the name that is shown for its longest prefix of three arcs or more with one, and a
    /// dot and a decimal for each arc after it, or else dotted text. [`Tables`] has an example.
    pub fn display(&self, oid: ObjectIdentifierRef<'a>) -> Display<'a>
        ensures { displayed_by result ≡ displayed (rows_in self.now) (ref_arcs oid.entry) }
    {
        match self.shown_above(oid) {
            Some((name, prefix)) => Display {
                oid,
                name: Some(name),
                below: octets_after(oid, prefix),
            },
            None => Display {
                oid,
                name: None,
                below: &[],
            },
        }
    }

    /// The name that is shown for the longest prefix of an identifier that has one, and this prefix. `None` if it has
    /// two arcs, which have no parent: such a name says too little of the arcs after it.
    fn shown_above(
        &self,
        oid: ObjectIdentifierRef<'a>,
    ) -> Option<(&'a str, ObjectIdentifierRef<'a>)>
        ensures { MatchOption result
            (displayed (rows_in self.now) (ref_arcs oid.entry) ≡ text_of (ref_arcs oid.entry))
            (λ found. BeginsWith (ref_octets oid.entry) (ref_octets found.1)
            × (displayed (rows_in self.now) (ref_arcs oid.entry) ≡ found.0.now ++ dotted (drop (length (ref_arcs found.1)) (ref_arcs oid.entry)))) }
    {
        let mut prefix = oid;
        while let Some(above) = prefix.parent() {
            if let Some(name) = self.shown(prefix) {
                return Some((name, prefix));
            }
            prefix = above;
        }
        None
    }
}

/// The octets of an identifier after those of a prefix.
fn octets_after<'a>(oid: ObjectIdentifierRef<'a>, prefix: ObjectIdentifierRef<'_>) -> &'a [u8]
    requires { BeginsWith (ref_octets oid) (ref_octets prefix) }
    ensures valid { later_fault (cut result.now) ≡ None }
    ensures arcs { map value_of (cut result.now) ≡ drop (length (ref_arcs prefix.entry)) (ref_arcs oid.entry) }
{
    octets_from(oid.as_bytes(), prefix.as_bytes().len())
}

/// The text of an identifier by tables of names, as [`Tables::display`] returns it.
#[derive(Copy, Clone)]
pub struct Display<'a> {
    oid: ObjectIdentifierRef<'a>,
    // The name of a prefix, if it is shown, and the octets after those of the prefix.
    name: Option<&'a str>,
    below: &'a [u8],
    ghost valid: { later_fault (cut below.now) ≡ None },
}

impl Display<'_> {
    ghost use Rattle.const_oid.specs.Typed.{displayed_by, dotted};

    /// The length in bytes of the text that `{}` writes, or `usize::MAX` if it is greater than that. [`Tables`] has an
    /// example.
    pub fn text_len(&self) -> usize
        ensures { result ≡ min (length (displayed_by self.now)) usize.MAX }
    {
        let Some(name) = self.name else {
            return self.oid.text_len();
        };
        let below = text_len(Arcs::later(self.below), false, usize::MAX);
        name.len().saturating_add(below.unwrap_or(usize::MAX))
    }

    /// Writes the text that `{}` writes to the start of `out`, and returns its length in bytes. Returns `None` if it is
    /// longer than `out`, which is then unchanged. [`Tables`] has an example.
    pub fn encode_text(&self, out: &mut [u8]) -> Option<usize>
        ensures written { Writes (displayed_by self.now) out.old out.new result }
        ensures kept { result ≡ None → out.new ≡ out.old }
    {
        let Some(name) = self.name else {
            return self.oid.encode_text(out);
        };
        let room = out.len().checked_sub(name.len())?;
        text_len(Arcs::later(self.below), false, room)?;
        let at = write_bytes(name.as_bytes(), out, 0);
        Some(write_dotted(Arcs::later(self.below), out, at))
    }

    /// Writes a dot and the decimal of each arc after the name.
    fn write_below<W: fmt::Write>(&self, f: &mut fmt::Formatter<W>) -> fmt::Result
        ensures { WritesStyledOnOk W.write_str_gives f.old result (dotted (map value_of (cut self.now.below.now))) f.new }
    {
        for arc in Arcs::later(self.below) {
            let mut text = [0; MAX_ARC_LEN];
            let end = write_arc(arc, &mut text, 0);
            f.write_str(utf8(&text, end))?;
        }
        Ok(())
    }
}

/// Width, fill, sign and precision are ignored, as by that of the identifier.
impl fmt::Display for Display<'_> {
    ghost use Rattle.const_oid.specs.Typed.{displayed_by};

    ghost output = { λ display. Some (displayed_by display) };

    ghost styled_output = { λ display _. Some (displayed_by display) };

    fn fmt<W: fmt::Write>(&self, f: &mut fmt::Formatter<W>) -> fmt::Result {
        let Some(name) = self.name else {
            return fmt::Display::fmt(&self.oid, f);
        };
        f.write_str(name)?;
        self.write_below(f)
    }
}

/// The entry with the longest prefix of an identifier in sorted tables, the first one in the first table that has it,
/// or `None` if no table has a prefix.
pub fn nearest_in<'a>(
    tables: &[SortedDatabase<'a>],
    oid: ObjectIdentifierRef<'_>,
) -> Option<&'a Entry<'a>>
    ensures found { IfSome result (λ entry. IsNearest (sorted_entries_in tables.now) (ref_arcs oid.entry) entry.now) }
    ensures none { IfNone result (All (λ entry. BeginsWith (ref_arcs oid.entry) (entry_arcs entry) → ⊥) (sorted_entries_in tables.now)) }
{
    let mut nearest = None;
    for table in tables {
        nearest = nearer(nearest, table.nearest(oid));
    }
    nearest
}

/// The one of two entries with the longer identifier, which is the nearest in the entries of both.
fn nearer<'a>(first: Option<&'a Entry<'a>>, later: Option<&'a Entry<'a>>) -> Option<&'a Entry<'a>>
    ensures { IsNearer first.entry later.entry result }
{
    let Some(entry) = first else {
        return later;
    };
    let Some(other) = later else {
        return first;
    };
    if entry.0.as_bytes().len() < other.0.as_bytes().len() {
        later
    } else {
        first
    }
}
