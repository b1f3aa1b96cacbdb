//! Identifiers that people type, by tables of names.

ghost use Rattle.std.specs.Prelude.{◌≡◌, ◌<◌, ◌≤◌, ◌++◌, drop, length, get_or, min, Some, None, IfSome, MatchOption};
ghost use Rattle.std.specs.Option.{option_map};
ghost use Rattle.const_oid.specs.Names.{lent_arcs};
ghost use Rattle.const_oid.specs.Oid.{oid_answer};
ghost use Rattle.const_oid.specs.Rows.{rows_in};
ghost use Rattle.const_oid.specs.Text.{dot, text_of};
ghost use Rattle.const_oid.specs.Typed.{spelt_at, spelt_up_to, typed_answer};

use crate::compare::lesser;
use crate::error::Result;
use crate::oid::{ObjectIdentifier, Oid};
use crate::tables::Tables;
use crate::typed::{bare, begins_with_digit};

impl Tables<'_> {
    /// Parses what people type and paste: dotted text, a name, or a name and arcs. [`display`](Self::display) is the
    /// way back.
    ///
    /// - Around all of it there may be ASCII whitespace: blanks, tabs, line feeds, form feeds and carriage returns.
    /// - Then one prefix may come: `OID.` or `urn:oid:`, in any case, a dot, as `snmpwalk -On` prints, or a module and
    ///   `::`, as in `IF-MIB::ifDescr.3`. A module is a letter, and then letters, digits and hyphens. It is not looked
    ///   up.
    /// - What begins with a digit is dotted text.
    /// - Else it begins with a name, by [`by_name`](Self::by_name). A name may have dots: all of the text is tried, and
    ///   then what is before each dot, from the last one on, up to 255 bytes. After the first name that is found come
    ///   arcs, as in `ANSI X9.62.1`.
    ///
    /// # Errors
    ///
    /// Those of [`new_sized`](ObjectIdentifier::new_sized), of the text after the prefix, with the arcs of a name in
    /// its place: `sysUpTime.` is [`Error::TrailingDot`](crate::Error::TrailingDot). A name that no table has is
    /// [`Error::DigitExpected`](crate::Error::DigitExpected), as in dotted text.
    // erase: const
    pub fn parse<const MAX_SIZE: usize>(&self, text: &str) -> Result<ObjectIdentifier<MAX_SIZE>>
        ensures { oid_answer result ≡ typed_answer (rows_in self.now) text.now (min MAX_SIZE 255) }
    {
        let text = bare(text.as_bytes());
        if begins_with_digit(text) {
            return ObjectIdentifier::from_ascii(text);
        }
        match longest_name(self, text) {
            Some((oid, end)) => ObjectIdentifier::parse_below(oid, text.split_at(end).1),
            None => ObjectIdentifier::from_ascii(text),
        }
    }
}

/// The most bytes of a name that arcs may follow.
pub(crate) const MAX_NAME_BYTES: usize = 255;

/// The identifier of the longest name that a text begins with, and where the name ends.
// erase: const
pub(crate) fn longest_name<'a>(tables: &Tables<'a>, text: &[u8]) -> Option<(&'a Oid, usize)>
    ensures spelt { let rows = rows_in tables.now in MatchOption result (spelt_up_to rows text.now (length text.now) ≡ None)
        (λ found. spelt_up_to rows text.now (length text.now) ≡ Some (text_of (lent_arcs found.0) ++ drop found.1 text.now)) }
    ensures end { IfSome result (λ found. (found.1 ≤ length text.now) × (found.1 < length text.now → get_or text.now found.1 0 ≡ dot)) }
{
    let mut end = lesser(text.len(), MAX_NAME_BYTES);
    loop {
        if let Some(oid) = name_at(tables, text, end) {
            return Some((oid, end));
        }
        if end == 0 {
            return None;
        }
        end -= 1;
    }
}

/// The identifier of the name that a text begins with, if it ends at an index: with the text, or before a dot.
// erase: const
fn name_at<'a>(tables: &Tables<'a>, text: &[u8], end: usize) -> Option<&'a Oid>
    requires { end ≤ min (length text.now) MAX_NAME_BYTES }
    ensures spelt { spelt_at (rows_in tables.now) text.now end ≡ option_map (λ oid. text_of (lent_arcs oid) ++ drop end text.now) result }
    ensures end { IfSome result (λ _. end < length text.now → get_or text.now end 0 ≡ dot) }
{
    if end < text.len() && text[end] != b'.' {
        return None;
    }
    tables.by_name_bytes(text.split_at(end).0)
}
