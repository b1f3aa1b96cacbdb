//! An SNMP collector sorts a MIB in the order of arcs, and asks it for each variable.

use crate::digest::Digest;
use crate::fail::Fail;
use crate::inputs::Bytes;
use crate::random::Random;
use const_oid::db::SortedDatabase;
use const_oid::{ByArcs, ObjectIdentifierRef};
use std::alloc::Global;

/// The rows of a small table.
const ROWS: usize = 20_000;

/// Names of rows.
static NAMES: [&str; 8] = [
    "ifIndex",
    "ifDescr",
    "ifInOctets",
    "ipCidrRouteDest",
    "ipCidrRouteIfIndex",
    "cpmCPUTotal5min",
    "sysUpTime",
    "snmpInPkts",
];

type Entry<'a> = (ObjectIdentifierRef<'a>, &'a str);

/// A table of many rows, and small ones.
pub fn run(
    alloc: Global,
    random: &mut Random,
    turns: u32,
    digest: &mut Digest,
) -> Result<(), Fail> {
    let turns = turns as usize % 1_000;
    let first = random.next() % (1 << 20);
    collect(alloc, first, turns * 4 * ROWS, true, digest)?;
    for turn in 0..turns {
        let first = first.wrapping_add((turn as u64 + 4) << 20);
        collect(alloc, first, ROWS, false, digest)?;
    }
    Ok(())
}

/// Octets of identifiers, one after another, and where each ends.
#[derive(Drop)]
struct Octets {
    all: Vec<u8>,
    ends: Vec<usize>,
}

/// The rows of a table from a number on, in an order that is far from sorted, and the objects that they belong to.
fn octets_of(alloc: Global, first: u64, rows: usize) -> Result<Octets, Fail> {
    let mut octets = Bytes::new();
    let mut all = Vec::new(alloc);
    let mut ends = Vec::new(alloc);
    for row in 0..rows as u64 {
        // The step is a prime number, so each row comes once.
        let number = row.wrapping_mul(7_368_787) % (rows as u64).max(1);
        octets.put_variable(first.wrapping_add(number), false);
        all.extend_from_slice(octets.as_slice())?;
        ends.push(all.len())?;
    }
    for object in 0..64 {
        octets.put_variable(object, true);
        all.extend_from_slice(octets.as_slice())?;
        ends.push(all.len())?;
    }
    Ok(Octets { all, ends })
}

/// The entry of a row.
fn entry_of<'a>(octets: &'a Octets, row: usize) -> Result<Entry<'a>, Fail> {
    let start = match row {
        0 => 0,
        row => octets.ends.get(row - 1).copied().unwrap_or(0),
    };
    let end = octets.ends.get(row).copied().unwrap_or(0);
    let oid = octets.all.get(start..end).unwrap_or(&[]);
    match ObjectIdentifierRef::from_bytes(oid) {
        Ok(oid) => Ok((oid, NAMES[row % 8])),
        Err(_) => Err(Fail::Rejected),
    }
}

fn entries_of<'a>(alloc: Global, octets: &'a Octets) -> Result<Vec<Entry<'a>>, Fail> {
    let mut entries = Vec::new(alloc);
    for row in 0..octets.ends.len() {
        entries.push(entry_of(octets, row)?)?;
    }
    Ok(entries)
}

/// Sorts a table, and searches it: for each row, or for one in four if it is large.
fn collect(
    alloc: Global,
    first: u64,
    rows: usize,
    is_large: bool,
    digest: &mut Digest,
) -> Result<(), Fail> {
    let octets = octets_of(alloc, first, rows)?;
    let mut entries = entries_of(alloc, &octets)?;
    digest.add(u64::from(SortedDatabase::try_new(&entries).is_some()));
    let asked = entries.clone()?;
    entries.sort_by_key(|entry| ByArcs(entry.0))?;
    if let Some(database) = SortedDatabase::try_new(&entries) {
        let step = if is_large { 8 } else { 2 };
        for (row, entry) in asked.iter().enumerate() {
            if row % step < 2 {
                find_row(&database, &entry.0, digest);
            }
            if row % step < 1 {
                find_others(&database, &entry.0, first.wrapping_add(row as u64), digest)?;
            }
        }
    }
    Ok(())
}

/// Searches of a row of the table.
fn find_row(database: &SortedDatabase<'_>, oid: &ObjectIdentifierRef<'_>, digest: &mut Digest) {
    digest.add_bytes(database.by_oid(oid).unwrap_or("").as_bytes());
    add_entry(database.next_after(oid), digest);
    digest.add(database.subtree(oid).len() as u64);
}

/// Searches of identifiers that are not in the table: a child of a row, and an instance that its object lacks.
fn find_others(
    database: &SortedDatabase<'_>,
    oid: &ObjectIdentifierRef<'_>,
    number: u64,
    digest: &mut Digest,
) -> Result<(), Fail> {
    let mut octets = Bytes::new();
    octets.push_all(oid.as_bytes());
    octets.push(0);
    find_other(database, octets.as_slice(), digest)?;
    if let Some(object) = oid.parent() {
        octets.clear();
        octets.push_all(object.as_bytes());
        octets.push(0x84);
        octets.push(128 + ((number >> 14) % 128) as u8);
        octets.push(128 + ((number >> 7) % 128) as u8);
        octets.push((number % 128) as u8);
        find_other(database, octets.as_slice(), digest)?;
    }
    Ok(())
}

fn find_other(
    database: &SortedDatabase<'_>,
    octets: &[u8],
    digest: &mut Digest,
) -> Result<(), Fail> {
    let oid = ObjectIdentifierRef::from_bytes(octets)?;
    digest.add_bytes(database.by_oid(&oid).unwrap_or("").as_bytes());
    add_entry(database.next_after(&oid), digest);
    add_entry(database.nearest(oid), digest);
    digest.add(database.subtree(&oid).len() as u64);
    Ok(())
}

fn add_entry(entry: Option<&Entry<'_>>, digest: &mut Digest) {
    match entry {
        Some(entry) => {
            digest.add_bytes(entry.0.as_bytes());
            digest.add_bytes(entry.1.as_bytes());
        }
        None => digest.add(1),
    }
}
