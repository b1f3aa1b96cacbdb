//! Tables sorted by arcs, as `sorted` of `examples::label` makes them: the functions of `SortedDatabase`, searches,
//! and the labels of SNMP that `label` prints.

ghost use Rattle.std.specs.Prelude.{◌≡◌, IsOk, IfOk};
ghost use Rattle.const_oid.specs.Names.{sorted_entries_of};

use crate::vectors::{parse, read_borrowed};
use const_oid::ObjectIdentifierRef;
use const_oid::db::SortedDatabase;
use const_oid::search::{end_of, first_of, nearest_of, start_of, subtree_of};
use examples::label::{label, sorted};
use std::alloc::{AllocError, Global};
use std::test::Fail;

fn clone_of<'a>(names: &SortedDatabase<'a>) -> Result<SortedDatabase<'a>, AllocError>
    ensures always { IsOk result }
    ensures same { IfOk result (λ copy. sorted_entries_of copy ≡ sorted_entries_of names.now) }
{
    names.clone()
}

/// An identifier and its name.
type Entry = (ObjectIdentifierRef<'static>, &'static str);

/// The entries of rows.
fn entries(alloc: Global, rows: &[(&'static [u8], &'static str)]) -> Result<Vec<Entry>, Fail> {
    let mut entries = Vec::new(alloc);
    for (octets, name) in rows {
        entries.push((read_borrowed(octets)?, *name))?;
    }
    Ok(entries)
}

/// Octets and names (RFC 1155, 2863, 3418), in descending order by arcs, and not by octets: 16384 is before 256. The
/// two entries of one identifier keep their order.
const TABLE: &[(&[u8], &str)] = &[
    (&[0x2B, 6, 1, 4, 1], "enterprises"),
    (&[0x2B, 6, 1, 2, 1, 2, 2, 1, 10], "ifInOctets"),
    (&[0x2B, 6, 1, 2, 1, 2, 2, 1, 10], "ifInOctets again"),
    (
        &[0x2B, 6, 1, 2, 1, 2, 2, 1, 2, 0x81, 0x80, 0],
        "ifDescr.16384",
    ),
    (&[0x2B, 6, 1, 2, 1, 2, 2, 1, 2, 0x82, 0], "ifDescr.256"),
    (&[0x2B, 6, 1, 2, 1, 2], "interfaces"),
    (&[0x2B, 6, 1, 2, 1, 1, 1], "sysDescr"),
    (&[0x2B, 6, 1, 2, 1, 1], "system"),
    (&[0x2B, 6, 1, 2, 1], "mib-2"),
];

/// Names, and the octets of the first entry with each.
const NAMED: &[(&str, Option<&[u8]>)] = &[
    ("SYSTEM", Some(&[0x2B, 6, 1, 2, 1, 1])),
    ("ifinoctets", Some(&[0x2B, 6, 1, 2, 1, 2, 2, 1, 10])),
    ("if", None),
];

/// Identifiers, and how they are printed, if a name is near.
const LABELS: &[(&str, Option<&str>)] = &[
    ("1.3.6.1.2.1", Some("mib-2")),
    ("1.3.6.1.2.1.1.1.0", Some("sysDescr.0")),
    ("1.3.6.1.2.1.1.3.0", Some("system.3.0")),
    ("1.3.6.1.2.1.2.2.1.2.256", Some("ifDescr.256")),
    ("1.3.6.1.2.1.2.2.1.10.70000", Some("ifInOctets.70000")),
    ("1.3.6.1.2.1.2.2.1.11.3", Some("interfaces.2.1.11.3")),
    ("1.3.6.1.4.1.8072.3.2", Some("enterprises.8072.3.2")),
    ("1.3.6.1.4", None),
];

/// Whether a table finds what searches of its entries find.
fn is_found(names: &SortedDatabase<'_>, entries: &[Entry], oid: ObjectIdentifierRef<'_>) -> bool {
    let name_at = |index: usize| entries.get(index).map(|entry| entry.1);
    let (start, end) = subtree_of(entries, &oid);
    names.by_oid(&oid) == first_of(entries, &oid).and_then(name_at)
        && names.next_after(&oid).map(|entry| entry.1) == name_at(end_of(entries, &oid))
        && names.nearest(oid).map(|entry| entry.1) == nearest_of(entries, &oid).and_then(name_at)
        && names.subtree(&oid).len() == end.saturating_sub(start)
        && start_of(entries, &oid) == start
}

#[test]
fn sorted_rows_have_names_and_labels(rt: HostRuntime) -> Result<(), Fail> {
    let mut entries = entries(rt.alloc(), TABLE)?;
    assert!(rt; SortedDatabase::try_new(&entries).is_none());
    let names = clone_of(&sorted(&mut entries)?)?;
    for (name, octets) in NAMED {
        let found = names.by_name(name).map(|oid| oid.as_bytes());
        assert!(rt; found == *octets, "{name}");
    }
    for (text, wanted) in LABELS {
        let printed = label(rt.alloc(), &names, parse(text)?.as_oid_ref())?;
        assert!(rt; printed.as_deref() == *wanted, "{text}");
    }
    let names = SortedDatabase::try_new(&entries).ok_or("not sorted")?;
    for (text, _) in LABELS {
        assert!(rt;
            is_found(&names, &entries, parse(text)?.as_oid_ref()),
            "{text}"
        );
    }
    Ok(())
}

/// The entry before 0.1.1.1.. is the same but for its last arc. A search that tried each prefix in turn would take
/// longer than a test may.
#[test]
fn finds_the_nearest_of_a_long_identifier(rt: HostRuntime) -> Result<(), Fail> {
    let octets = vec![in rt.alloc(); 1; 4_000_000]?;
    let mut before = octets.clone()?;
    before.pop();
    before.push(0)?;
    let oid = read_borrowed(&octets)?;
    let first = [1, 1];
    let last = (read_borrowed(&before)?, "last");
    let entries = [(read_borrowed(&first)?, "first"), last];
    assert!(rt; nearest_of(&[last], &oid).is_none() && nearest_of(&entries, &oid) == Some(0));
    let found = SortedDatabase::try_new(&entries).and_then(|names| names.nearest(oid));
    assert!(rt; found.map(|entry| entry.1) == Some("first"));
    Ok(())
}
