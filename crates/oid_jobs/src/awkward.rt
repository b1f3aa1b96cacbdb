//! Inputs that are rarer: long arcs, rows that differ in their last arc alone, texts that are wrong at the end, octets of
//! some kilobytes, and tables in which nothing is found.

use crate::digest::Digest;
use crate::fail::Fail;
use crate::inputs::Bytes;
use crate::random::Random;
use const_oid::db::{Database, SortedDatabase};
use const_oid::{ByArcs, ObjectIdentifierRef, Oid};
use std::alloc::Global;

/// How many long identifiers there are in a turn.
const LONG: u64 = 30_000;

/// The rows of a table that differ in their last arc alone.
const ROWS: u64 = 10_000;

/// The rows of a table in any order, of which none is found.
const UNFOUND: u64 = 1_000;

/// How many arcs a borrowed identifier has, of up to five octets.
const ARCS: usize = 2_000;

/// The most octets that these arcs have, and the most bytes of their text.
const OCTETS: usize = 10_001;

const TEXT_ROOM: usize = 40_004;

pub fn run(
    alloc: Global,
    random: &mut Random,
    turns: u32,
    digest: &mut Digest,
) -> Result<(), Fail> {
    for _ in 0..turns {
        long_arcs(random, digest)?;
        last_arcs(alloc, random, digest)?;
        unfound(alloc, random, digest)?;
        for _ in 0..40 {
            many_octets(alloc, random, digest)?;
        }
    }
    Ok(())
}

/// Identifiers of 36 octets are read from octets and from texts, some of which are wrong in the last byte, and printed.
fn long_arcs(random: &mut Random, digest: &mut Digest) -> Result<(), Fail> {
    let mut bytes = Bytes::new();
    for number in 0..LONG {
        bytes.put_long_octets(random);
        let oid = Oid::from_bytes(bytes.as_slice())?;
        let mut out = [0; 160];
        digest.add_bytes(oid.encode_str(&mut out).unwrap_or("").as_bytes());
        let parent = oid.parent().unwrap_or(oid);
        digest.add(u64::from(oid == parent) * 2 + u64::from(oid.starts_with(parent)));
        bytes.put_long_text(random);
        if number % 2 == 0 {
            bytes.spoil(0, b'x');
        }
        digest.add_oid(&Oid::from_ascii(bytes.as_slice()));
    }
    Ok(())
}

/// A table whose rows have the same first fifteen octets, and searches in it of each row and beside it.
fn last_arcs(alloc: Global, random: &mut Random, digest: &mut Digest) -> Result<(), Fail> {
    let shared = random.next();
    let mut octets = Vec::new(alloc);
    let mut beside = Vec::new(alloc);
    for row in 0..ROWS {
        let row = row.wrapping_mul(7_919) % ROWS * 2;
        octets.push(row_octets(shared, row))?;
        beside.push(row_octets(shared, row + 1))?;
    }
    let mut entries = Vec::new(alloc);
    for row in &octets {
        entries.push((ObjectIdentifierRef::from_bytes(row)?, "row"))?;
    }
    entries.sort_by_key(|entry| ByArcs(entry.0))?;
    if let Some(database) = SortedDatabase::try_new(&entries) {
        for row in &octets {
            let oid = ObjectIdentifierRef::from_bytes(row)?;
            digest.add_bytes(database.by_oid(&oid).unwrap_or("").as_bytes());
            digest.add(database.subtree(&oid).len() as u64);
        }
        for row in &beside {
            let oid = ObjectIdentifierRef::from_bytes(row)?;
            digest.add_bytes(database.by_oid(&oid).unwrap_or("").as_bytes());
            digest.add(
                database
                    .nearest(oid)
                    .map_or(0, |entry| entry.1.len() as u64),
            );
            digest.add(
                database
                    .next_after(&oid)
                    .map_or(0, |entry| entry.0.len() as u64),
            );
        }
    }
    Ok(())
}

/// Eighteen octets: fifteen that all rows share, and a last arc of three octets.
fn row_octets(shared: u64, row: u64) -> [u8; 18] {
    let mut octets = [0x2B, 6, 1, 4, 1, 9, 9, 1, 1, 1, 1, 1, 1, 1, 1, 0x81, 0, 0];
    for (place, octet) in octets.iter_mut().skip(7).take(8).zip(&shared.to_le_bytes()) {
        *place = *octet % 128;
    }
    octets[15] = 129 + ((row >> 14) % 16) as u8;
    octets[16] = 128 + ((row >> 7) % 128) as u8;
    octets[17] = (row % 128) as u8;
    octets
}

/// A table in any order, of identifiers of one length with the same first and last octets, and others that it lacks.
fn unfound(alloc: Global, random: &mut Random, digest: &mut Digest) -> Result<(), Fail> {
    let mut bytes = Bytes::new();
    let mut oids = Vec::new(alloc);
    for _ in 0..2 * UNFOUND {
        bytes.put_long_octets(random);
        bytes.spoil(0, 5);
        oids.push(Oid::from_bytes(bytes.as_slice())?)?;
    }
    let mut rows = Vec::new(alloc);
    for oid in oids.iter().take(UNFOUND as usize) {
        rows.push((oid, "name"))?;
    }
    let database = Database::new(&rows);
    for oid in oids.iter().skip(UNFOUND as usize) {
        digest.add(u64::from(database.by_oid(oid).is_some()));
    }
    Ok(())
}

/// Octets of some kilobytes, of arcs of each length.
fn octets_of_many(alloc: Global, random: &mut Random) -> Result<Vec<u8>, Fail> {
    let mut octets = Vec::new(alloc);
    octets.push(0x2B)?;
    for _ in 0..ARCS {
        let bits = random.next();
        // One octet for most arcs.
        for long in 0..((bits >> 56) as usize % 8).saturating_sub(3) {
            octets.push(129 + ((bits >> (long % 32)) % 15) as u8)?;
        }
        octets.push(((bits >> 32) % 128) as u8)?;
    }
    Ok(octets)
}

fn many_octets(alloc: Global, random: &mut Random, digest: &mut Digest) -> Result<(), Fail> {
    let octets = octets_of_many(alloc, random)?;
    let oid = ObjectIdentifierRef::from_bytes(&octets)?;
    let len = oid.len();
    digest.add(len as u64);
    digest.add(oid.arc(len - 1).unwrap_or(0) as u64);
    for arc in oid.arcs() {
        digest.add(arc as u64);
    }
    let mut text = vec![in alloc; 0; TEXT_ROOM]?;
    let len = oid.encode_text(&mut text).unwrap_or(0);
    let text = text.get(..len).unwrap_or(&[]);
    digest.add_bytes(text);
    read_many(alloc, &oid, text, digest)
}

/// Reads the text of an identifier, and compares both.
fn read_many(
    alloc: Global,
    oid: &ObjectIdentifierRef<'_>,
    text: &[u8],
    digest: &mut Digest,
) -> Result<(), Fail> {
    let mut out = vec![in alloc; 0; OCTETS]?;
    let read = ObjectIdentifierRef::from_ascii_in(text, &mut out)?;
    digest.add(u64::from(read == *oid) << 1 | u64::from(read.starts_with(oid)));
    digest.add(u64::from(read.cmp_arcs(oid).is_eq()));
    Ok(())
}
