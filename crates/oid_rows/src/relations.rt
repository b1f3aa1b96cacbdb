//! Parents, children, prefixes and orders, of two identifiers and of lists, and tables.

use crate::identifiers::{self, digits};
use anyhow::{Context, Result, anyhow, bail, ensure};
use const_oid::db::{Database, SortedDatabase};
use const_oid::search::{end_of, first_of, nearest_of, subtree_of};
use const_oid::{Arc, ObjectIdentifier, ObjectIdentifierRef, Oid};
use std::alloc::Global;
use std::cmp::Ordering;
use std::fmt::Write;

/// The octets of the parent, or `none`.
pub fn parent(alloc: Global, octets: &[u8]) -> Result<String> {
    match ObjectIdentifierRef::from_bytes(octets)?.parent() {
        Some(parent) => digits(alloc, parent),
        None => Ok(String::from_str(alloc, "none")?),
    }
}

/// The octets with one more arc, of any length.
pub fn child(alloc: Global, octets: &[u8], arc: Arc) -> Result<String> {
    let oid = ObjectIdentifierRef::from_bytes(octets)?;
    let mut arcs: Vec<Arc> = oid.arcs().collect(alloc)?;
    arcs.push(arc)?;
    identifiers::arcs(alloc, &arcs)
}

fn owned(octets: &[u8]) -> Result<ObjectIdentifier<255>> {
    Ok(ObjectIdentifier::from_bytes_sized(octets)?)
}

/// How two identifiers compare, in a word.
pub fn pair(call: &str, left: &[u8], right: &[u8]) -> Result<&'static str> {
    if call == "owned" {
        return Ok(word(owned(left)?.cmp(&owned(right)?)));
    }
    let a = ObjectIdentifierRef::from_bytes(left)?;
    let b = ObjectIdentifierRef::from_bytes(right)?;
    match call {
        "borrowed" => Ok(word(a.cmp(&b))),
        "by_arcs" => Ok(word(a.cmp_arcs(&b))),
        "equal" => Ok(if a == b { "yes" } else { "no" }),
        "begins" => begins(a, b),
        _ => bail!("no call {call}"),
    }
}

/// Whether an identifier begins with another, and the arcs after it are left.
fn begins(oid: ObjectIdentifierRef<'_>, start: ObjectIdentifierRef<'_>) -> Result<&'static str> {
    let is = oid.starts_with(&start);
    let left = is.then_some(oid.len().saturating_sub(start.len()));
    ensure!(oid.strip_prefix(&start).map(|arcs| arcs.count()) == left);
    Ok(if is { "yes" } else { "no" })
}

fn word(order: Ordering) -> &'static str {
    match order {
        Ordering::Less => "less",
        Ordering::Equal => "equal",
        Ordering::Greater => "greater",
    }
}

/// Whether each item is equal to itself, less than those after it and greater than those before.
pub fn in_order(call: &str, items: &[Vec<u8>]) -> Result<&'static str> {
    for (place, item) in items.iter().enumerate() {
        for (other, another) in items.iter().enumerate() {
            let is = pair(call, item, another)? == word(place.cmp(&other));
            ensure!(is, "{place} and {other}");
        }
    }
    Ok("in order")
}

/// An identifier of a list, without a name.
type Entry<'a> = (ObjectIdentifierRef<'a>, &'a str);

/// Whether a list is sorted, or the first item that is invalid or comes before the previous one.
pub fn sorted(alloc: Global, items: &[Vec<u8>]) -> Result<String> {
    let mut entries: Vec<Entry<'_>> = Vec::new(alloc);
    for (index, octets) in items.iter().enumerate() {
        let oid = ObjectIdentifierRef::from_bytes(octets);
        entries.push((oid.map_err(|error| anyhow!("{error} at {index}"))?, ""))?;
        if SortedDatabase::try_new(&entries).is_none() {
            return Ok(format!(in alloc; "unsorted at {index}")?);
        }
    }
    Ok(String::from_str(alloc, "sorted")?)
}

/// The index that a search found, if there is one in a list of this length.
fn index(alloc: Global, found: Option<usize>, len: usize) -> Result<String> {
    match found {
        Some(index) if index < len => Ok(format!(in alloc; "{index}")?),
        _ => Ok(format!(in alloc; "none of {len}")?),
    }
}

/// What each search in a sorted list finds for an identifier.
pub fn list(alloc: Global, octets: &[u8], items: &[Vec<u8>]) -> Result<String> {
    let oid = ObjectIdentifierRef::from_bytes(octets)?;
    let mut entries: Vec<Entry<'_>> = Vec::new(alloc);
    for octets in items {
        entries.push((ObjectIdentifierRef::from_bytes(octets)?, ""))?;
    }
    let find = index(alloc, first_of(&entries, &oid), entries.len())?;
    let next = index(alloc, Some(end_of(&entries, &oid)), entries.len())?;
    let nearest = index(alloc, nearest_of(&entries, &oid), entries.len())?;
    let (start, end) = subtree_of(&entries, &oid);
    Ok(format!(in alloc; "find {find}, next {next}, nearest {nearest}, range {start} {end}")?)
}

/// The identifiers and names of rows `octets=name`.
fn table(alloc: Global, rows: &[&str]) -> Result<Vec<(Oid, String)>> {
    let mut table = Vec::new(alloc);
    for row in rows {
        let (digits, name) = row.split_once('=').context("no row")?;
        let oid = Oid::from_bytes(&hex::decode(alloc, digits.as_bytes())?)?;
        table.push((oid, String::from_str(alloc, name)?))?;
    }
    Ok(table)
}

/// The identifier of a name, and the names of an identifier, in a table of rows.
pub fn names(alloc: Global, octets: &[u8], words: &[&str]) -> Result<String> {
    let (name, rows) = words.split_first().context("no name")?;
    let (oid, rows) = (Oid::from_bytes(octets)?, table(alloc, rows)?);
    let mut entries = Vec::new(alloc);
    for (oid, name) in &rows {
        entries.push((oid, name.as_str()))?;
    }
    let table = Database::new(&entries);
    let mut said = match table.by_name(name) {
        Some(oid) => digits(alloc, oid.as_oid_ref())?,
        None => String::from_str(alloc, "none")?,
    };
    for name in table.find_names_for_oid(oid) {
        write!(said, " {name}")?;
    }
    Ok(said)
}
