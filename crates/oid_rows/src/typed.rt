//! What people type, and what is displayed, by two tables of names.

use crate::identifiers::digits;
use anyhow::{Context, Result, bail, ensure};
use const_oid::db::{Database, SortedDatabase};
use const_oid::tables::{Table, Tables, nearest_in};
use const_oid::{ObjectIdentifierRef, Oid};
use std::alloc::Global;
use std::str;

/// The entry of a row `entry TABLE OCTETS NAME`, if it is in this table.
fn entry(alloc: Global, row: &str, table: &str) -> Result<Option<(Oid, String)>> {
    let (question, _) = row.split_once(" = ").unwrap_or((row, ""));
    let Some(entry) = question.strip_prefix(table) else {
        return Ok(None);
    };
    let (octets, name) = entry.split_once(' ').context("no name")?;
    let oid = Oid::from_bytes(&hex::decode(alloc, octets.as_bytes())?)?;
    Ok(Some((oid, String::from_str(alloc, name)?)))
}

/// The entries of rows that begin so.
pub fn entries(alloc: Global, rows: &[String], table: &str) -> Result<Vec<(Oid, String)>> {
    let mut entries = Vec::new(alloc);
    for row in rows {
        if let Some(entry) = entry(alloc, row, table)? {
            entries.push(entry)?;
        }
    }
    Ok(entries)
}

/// Entries as a table takes them.
pub fn lent(alloc: Global, entries: &[(Oid, String)]) -> Result<Vec<(&Oid, &str)>> {
    let mut lent = Vec::new(alloc);
    for (oid, name) in entries {
        lent.push((oid, name.as_str()))?;
    }
    Ok(lent)
}

/// Tables of entries, each with an index in a vector that grows for it.
pub fn indexed<'a>(
    alloc: Global,
    first: &'a [(&'a Oid, &'a str)],
    second: &'a [(&'a Oid, &'a str)],
    memory: &'a mut Vec<u16>,
) -> Result<Vec<Table<'a>>> {
    let len = first.len().saturating_mul(6);
    memory.resize(len.saturating_add(second.len().saturating_mul(6)), 0)?;
    let (first_links, second_links) = memory.split_at_mut(len);
    let mut tables = Vec::new(alloc);
    tables.push(Table::Listed(Database::new(first).indexed(first_links)))?;
    tables.push(Table::Listed(Database::new(second).indexed(second_links)))?;
    Ok(tables)
}

/// Entries in the order of arcs, those of an identifier as they come.
pub fn in_order<'a>(
    alloc: Global,
    entries: &[(&'a Oid, &'a str)],
) -> Result<Vec<(ObjectIdentifierRef<'a>, &'a str)>> {
    let mut in_order: Vec<(ObjectIdentifierRef<'a>, &'a str)> = Vec::new(alloc);
    for (oid, name) in entries {
        in_order.push((oid.as_oid_ref(), *name))?;
    }
    in_order.sort_by(|left, right| left.0.cmp_arcs(&right.0))?;
    Ok(in_order)
}

/// Tables of entries in the order of arcs.
pub fn sorted<'a>(
    alloc: Global,
    first: &'a [(ObjectIdentifierRef<'a>, &'a str)],
    second: &'a [(ObjectIdentifierRef<'a>, &'a str)],
) -> Result<Vec<SortedDatabase<'a>>> {
    let mut tables = Vec::new(alloc);
    tables.push(SortedDatabase::try_new(first).context("not in order")?)?;
    tables.push(SortedDatabase::try_new(second).context("not in order")?)?;
    Ok(tables)
}

/// The octets that a name has in the first table that has it, and the name of octets.
pub fn names(alloc: Global, tables: Tables<'_>, octets: &str, name: &str) -> Result<String> {
    let oid = Oid::from_bytes(&hex::decode(alloc, octets.as_bytes())?)?;
    let found = tables.by_name(name).context("no such name")?;
    let shown = tables.by_oid(&oid).context("no such octets")?;
    Ok(format!(in alloc; "{} {shown}", digits(alloc, found.as_oid_ref())?)?)
}

/// The octets of a text at one of these capacities.
pub fn parse(alloc: Global, tables: Tables<'_>, capacity: usize, text: &str) -> Result<String> {
    match capacity {
        0 => digits(alloc, tables.parse::<0>(text)?.as_oid_ref()),
        1 => digits(alloc, tables.parse::<1>(text)?.as_oid_ref()),
        5 => digits(alloc, tables.parse::<5>(text)?.as_oid_ref()),
        8 => digits(alloc, tables.parse::<8>(text)?.as_oid_ref()),
        39 => digits(alloc, tables.parse::<39>(text)?.as_oid_ref()),
        255 => digits(alloc, tables.parse::<255>(text)?.as_oid_ref()),
        300 => digits(alloc, tables.parse::<300>(text)?.as_oid_ref()),
        _ => bail!("no capacity {capacity}"),
    }
}

/// The octets of a text in hexadecimal digits.
pub fn parse_bytes(
    alloc: Global,
    tables: Tables<'_>,
    capacity: usize,
    text: &str,
) -> Result<String> {
    match str::from_utf8(&hex::decode(alloc, text.as_bytes())?) {
        Ok(text) => parse(alloc, tables, capacity, text),
        Err(_) => Ok(String::from_str(alloc, "no text")?),
    }
}

/// What is displayed of octets, by each of the calls that write it.
pub fn display(alloc: Global, tables: Tables<'_>, octets: &[u8]) -> Result<String> {
    let shown = tables.display(ObjectIdentifierRef::from_bytes(octets)?);
    let text = format!(in alloc; "{shown}")?;
    let mut out = vec![in alloc; 0; shown.text_len()]?;
    ensure!(shown.encode_text(&mut out) == Some(text.len()) && text.as_bytes() == out.as_slice());
    Ok(text)
}

/// The octets and the name of the entry with the longest prefix of octets in sorted tables, or `none`.
pub fn nearest(alloc: Global, tables: &[SortedDatabase<'_>], octets: &[u8]) -> Result<String> {
    match nearest_in(tables, ObjectIdentifierRef::from_bytes(octets)?) {
        Some((oid, name)) => Ok(format!(in alloc; "{} {name}", digits(alloc, *oid)?)?),
        None => Ok(String::from_str(alloc, "none")?),
    }
}
