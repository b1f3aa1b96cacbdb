//! Identifiers by the nearest name, as tools of SNMP print them: `enterprises.8072.3.2`.

ghost use Rattle.std.specs.Prelude.{IfNone, IfOk, IfSome};
ghost use Rattle.std.specs.List.{All};
ghost use Rattle.std.specs.Cmp.Lexicographic.{slice_cmp};
ghost use Rattle.std.specs.List.Sorted.{IsPermutation, IsStableByKey};
ghost use Rattle.std.specs.Ordering.{nat_cmp};
ghost use Rattle.std.specs.String.{string_bytes};
ghost use Rattle.const_oid.specs.Names.{entry_arcs, sorted_entries_of};
ghost use Rattle.const_oid.specs.OidRef.{ref_arcs};
ghost use Rattle.const_oid.specs.Tree.{BeginsWith};
ghost use Rattle.examples.specs.Label.{IsLabel};

use const_oid::db::SortedDatabase;
use const_oid::{ByArcs, ObjectIdentifierRef};
use std::alloc::{AllocError, Global};
use std::fmt::Write;

/// The name of the longest prefix of an identifier in a table, and the arcs after it, or `None` if the table has no
/// prefix.
pub fn label(
    alloc: Global,
    names: &SortedDatabase<'_>,
    oid: ObjectIdentifierRef<'_>,
) -> Result<Option<String>, AllocError>
    ensures named { IfOk result (λ label. IfSome label (λ text.
        IsLabel (sorted_entries_of names.now) (ref_arcs oid.entry) (string_bytes text))) }
    ensures none { IfOk result (λ label. IfNone label (All (λ entry.
        BeginsWith (ref_arcs oid.entry) (entry_arcs entry) → ⊥) (sorted_entries_of names.now))) }
{
    let Some(entry) = names.nearest(oid) else {
        return Ok(None);
    };
    let mut text = format!(in alloc; "{}", entry.1)?;
    let mut arcs = oid.arcs();
    for _ in 0..entry.0.len() {
        arcs.next();
    }
    for arc in arcs {
        write!(text, ".{arc}")?;
    }
    Ok(Some(text))
}

/// Sorts entries by arcs, in place, and makes a table of them. If an identifier has several entries, they keep their
/// order.
pub fn sorted<'t, 'a: 't>(
    entries: &'t mut Vec<(ObjectIdentifierRef<'a>, &'a str)>,
) -> Result<SortedDatabase<'t>, AllocError>
    ensures moved { IfOk result (λ names. IsPermutation entries.old.items (sorted_entries_of names)) }
    ensures stable { IfOk result (λ names.
        IsStableByKey entry_arcs (slice_cmp nat_cmp) entries.old.items (sorted_entries_of names)) }
{
    entries.sort_by_key(|entry| ByArcs(entry.0))?;
    Ok(SortedDatabase::new(entries))
}
