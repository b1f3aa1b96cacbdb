//! Tables of names are handed in at run time, and indexed in lent memory: `bench/run` times and counts it apart.
//!
//! `oid_lookups SEED TURNS` prints a digest of all results. A turn has a table of 1,500 rows, and one of 20,000.
#![tactic(auto)]

use anyhow::{Context, Result};
use const_oid::Oid;
use const_oid::db::Database;
use std::alloc::Global;
use std::env;
use std::hash::{FoldHasher, Hasher};

/// Words that names begin with.
static WORDS: [&str; 8] = [
    "sha256WithRSAEncryption",
    "id-ce-keyUsage",
    "cn",
    "id-ecPublicKey",
    "organizationalUnitName",
    "aes128-CBC",
    "ifInOctets",
    "id-at-x500UniqueIdentifier",
];

/// The octets that identifiers of a group begin with, and bits 8 and 7 of the four octets that follow.
static GROUPS: [(&[u8], [u8; 4]); 8] = [
    (b"\x55\x04", [0xC0, 0, 0xC0, 0]),
    (b"\x55\x1D", [0, 0xC0, 0xC0, 0]),
    (b"\x2A\x86\x48\x86\xF7\x0D\x01", [0, 0, 0xC0, 0]),
    (b"\x60\x86\x48\x01\x65\x03\x04", [0, 0, 0xC0, 0]),
    (b"\x2B\x06\x01\x04\x01", [0xC0, 0xC0, 0, 0]),
    (b"\x2B\x06\x01\x04\x01", [0xC0, 0, 0, 0]),
    (b"\x2B\x06\x01\x02\x01\x02\x02\x01", [0, 0xC0, 0xC0, 0]),
    (b"\x2B\x06\x01\x02\x01\x04\x18\x04\x01\x01\x0A", [0; 4]),
];

/// A number that looks random, by SplitMix64.
fn key_of(seed: u64) -> u64 {
    let mut mixed = seed.wrapping_add(0x9E37_79B9_7F4A_7C15);
    mixed = (mixed ^ (mixed >> 30)).wrapping_mul(0xBF58_476D_1CE4_E5B9);
    mixed = (mixed ^ (mixed >> 27)).wrapping_mul(0x94D0_49BB_1331_11EB);
    mixed ^ (mixed >> 31)
}

/// The identifier of a number below 2^24, another one for each. A key mixes the numbers.
fn oid_of(alloc: Global, number: u64, key: u64) -> Result<Oid> {
    let mut own = number.wrapping_mul(key | 1) % (1 << 24);
    let (start, bits) = GROUPS[(own.wrapping_mul(0x9E37_79B9_7F4A_7C15) >> 61) as usize % 8];
    let mut octets = Vec::from_slice(alloc, start)?;
    for more in bits {
        octets.push((own % 64) as u8 | more)?;
        own /= 64;
    }
    Ok(Oid::from_bytes(&octets)?)
}

/// Identifiers, and a name of each.
fn rows_of(alloc: Global, first: u64, count: u64, key: u64) -> Result<Vec<(Oid, String)>> {
    let mut rows = Vec::new(alloc);
    for row in 0..count {
        let mut name = String::from_str(alloc, WORDS[(row % 8) as usize])?;
        for place in [12, 8, 4, 0] {
            name.push((b'a' + ((row >> place) % 16) as u8) as char)?;
        }
        rows.push((oid_of(alloc, first.wrapping_add(row), key)?, name))?;
    }
    Ok(rows)
}

/// Makes a table, and asks it for its rows and as many others. Each eighth row is another name of the one before it.
fn look_up(alloc: Global, first: u64, rows: u16, key: u64, digest: &mut FoldHasher) -> Result<()> {
    let all = rows_of(alloc, first, 2 * rows as u64, key)?;
    let mut entries = Vec::new(alloc);
    for (row, (_, name)) in all.iter().enumerate().take(rows as usize) {
        if let Some((oid, _)) = all.get(row - usize::from(row % 8 == 7)) {
            entries.push((oid, name.as_str()))?;
        }
    }
    let mut place = vec![in alloc; 0_u16; 4 * rows as usize]?;
    let database = Database::new(&entries).indexed(&mut place);
    for number in 0..2 * rows as usize {
        // The step is a prime number, so each comes once.
        let asked = number * 7_919 % (2 * rows as usize);
        if let Some((oid, name)) = all.get(asked) {
            ask(&database, oid, name.as_str(), digest)?;
        }
    }
    Ok(())
}

/// Asks for a name, an identifier and its text.
fn ask(database: &Database<'_>, oid: &Oid, name: &str, digest: &mut FoldHasher) -> Result<()> {
    digest.write(database.by_name(name).map_or(&[], |oid| oid.as_bytes()));
    digest.write(database.by_oid(oid).unwrap_or("").as_bytes());
    for other in database.find_names_for_oid(*oid) {
        digest.write(other.as_bytes());
    }
    let mut out = [0; 64];
    let text = oid.encode_str(&mut out).unwrap_or("");
    digest.write(database.resolve(text)?.as_bytes());
    Ok(())
}

fn main(rt: HostRuntime) -> Result<()> {
    let mut words = env::args(&rt)?.skip(1);
    let seed = words.next().context("no seed")?;
    let turns = words.next().context("no turns")?;
    let key = key_of(seed.as_str().parse()?);
    let turns = turns.as_str().parse::<u32>()?;
    let mut digest = FoldHasher::default();
    for turn in 0..turns as u64 {
        let first = turn.wrapping_mul(43_000);
        for (skipped, rows) in [(0, 1_500), (3_000, 20_000)] {
            let first = first.wrapping_add(skipped);
            look_up(rt.alloc(), first, rows, key, &mut digest)?;
        }
    }
    println!(rt; "names {:016x}", digest.finish())?;
    Ok(())
}
