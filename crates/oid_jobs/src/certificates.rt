//! A reader of certificates checks contents octets, compares identifiers with those that it knows, and names them by a
//! table in any order.

use crate::digest::Digest;
use crate::fail::Fail;
use crate::inputs::{Bytes, input_of};
use crate::random::Random;
use const_oid::db::Database;
use const_oid::{ObjectIdentifierRef, Oid};
use std::alloc::Global;

/// How many identifiers are read in a turn. In one of 32 an octet is 128, which makes about half of them wrong.
const READ: u64 = 80_000;

/// The rows of the table of a turn.
const ROWS: usize = 1_500;

/// What is looked up in it besides its rows.
const MISSES: u64 = 500;

/// How many rows are looked up by their names, and how many for all of their names.
const NAMED: usize = 250;

/// Words that names begin with.
static WORDS: [&str; 8] = [
    "sha256WithRSAEncryption",
    "id-ce-keyUsage",
    "cn",
    "id-ecPublicKey",
    "organizationalUnitName",
    "aes128-CBC",
    "ifInOctets",
    "id-at-x500UniqueIdentifier",
];

pub fn run(
    alloc: Global,
    random: &mut Random,
    turns: u32,
    digest: &mut Digest,
) -> Result<(), Fail> {
    let key = random.next();
    let known = known()?;
    let mut octets = Bytes::new();
    for turn in 0..turns as u64 {
        for number in 0..READ {
            octets.put_octets(input_of(turn.wrapping_mul(READ).wrapping_add(number), key));
            let spoiled = random.next();
            if spoiled % 32 == 0 {
                octets.spoil(((spoiled >> 8) % 16) as usize, 128);
            }
            read(octets.as_slice(), &known, digest);
        }
        let first = turn.wrapping_mul(ROWS as u64 + MISSES) | 1 << 23;
        name(alloc, first, key, digest)?;
    }
    Ok(())
}

/// Signature algorithms, an extension and an attribute.
fn known() -> Result<[Oid; 4], Fail> {
    Ok([
        Oid::new("1.2.840.113549.1.1.11")?,
        Oid::new("1.2.840.10045.4.3.2")?,
        Oid::new("2.5.29.15")?,
        Oid::new("2.5.4.3")?,
    ])
}

/// Reads an identifier in both forms, and compares them with those that are known and with each other.
fn read(octets: &[u8], known: &[Oid; 4], digest: &mut Digest) {
    let borrowed = ObjectIdentifierRef::from_bytes(octets);
    let owned = Oid::from_bytes(octets);
    digest.add_oid(&owned);
    let mut equal = 0;
    for other in known {
        let same = u64::from(borrowed.is_ok_and(|oid| oid.eq_oid(other)));
        equal = (equal << 2) | same << 1 | u64::from(owned.is_ok_and(|oid| oid == *other));
    }
    if let (Ok(borrowed), Ok(owned)) = (borrowed, owned) {
        equal |= u64::from(borrowed.eq_oid(&owned)) << 10;
        equal |= u64::from(borrowed == owned.as_oid_ref()) << 11;
    }
    digest.add(equal);
}

/// Makes a table, and looks up each of its rows and others.
fn name(alloc: Global, first: u64, key: u64, digest: &mut Digest) -> Result<(), Fail> {
    let mut octets = Bytes::new();
    let mut oids = Vec::new(alloc);
    let mut names = Vec::new(alloc);
    for row in 0..ROWS as u64 {
        let number = first.wrapping_add(row);
        octets.put_octets(input_of(number, key));
        oids.push(Oid::from_bytes(octets.as_slice())?)?;
        let word = WORDS[(number.wrapping_mul(key | 1) >> 20) as usize % 8];
        names.push(format!(in alloc; "{word}{row:x}")?)?;
    }
    let mut rows = Vec::new(alloc);
    for (oid, name) in oids.iter().zip(names.iter()) {
        rows.push((oid, name.as_str()))?;
    }
    let database = Database::new(&rows);
    for row in 0..ROWS {
        if let Some(oid) = oids.get(row * 601 % ROWS) {
            add_name(database.by_oid(oid), digest);
        }
    }
    for miss in 0..MISSES {
        octets.put_octets(input_of(first.wrapping_add(ROWS as u64).wrapping_add(miss), key));
        add_name(
            database.by_oid(&Oid::from_bytes(octets.as_slice())?),
            digest,
        );
    }
    for row in 0..NAMED {
        if let (Some(oid), Some(name)) = (oids.get(row * 6), names.get(row * 6 + 1)) {
            for other in database.find_names_for_oid(*oid) {
                digest.add_bytes(other.as_bytes());
            }
            if let Some(oid) = database.by_name(name.as_str()) {
                digest.add_bytes(oid.as_bytes());
            }
        }
    }
    Ok(())
}

fn add_name(name: Option<&str>, digest: &mut Digest) {
    digest.add_bytes(name.unwrap_or("").as_bytes());
}
