//! Tables of names, with what they find: `by_oid`, `by_name`, `find_names_for_oid` and `resolve`, and `indexed`
//! and `is_indexed`.

ghost use Rattle.std.specs.Prelude.{◌≡◌, IsOk, IfOk};
ghost use Rattle.const_oid.specs.Names.{entries_of};

use crate::vectors::parse;
use const_oid::db::Database;
use const_oid::{Error, Oid};
use std::alloc::{AllocError, Global};
use std::test::Fail;

fn clone_of<'a>(database: &Database<'a>) -> Result<Database<'a>, AllocError>
    ensures always { IsOk result }
    ensures same { IfOk result (λ copy. entries_of copy ≡ entries_of database.now) }
{
    database.clone()
}

/// What a table is asked, and its answer.
#[derive(Debug)]
enum Query {
    /// The text of an identifier, and its names in table order. It is resolved to the first one, or else to itself.
    Names(&'static str, &'static [&'static str]),
    /// A name, and the text of its identifier, if it has one.
    Name(&'static str, Option<&'static str>),
}

/// An entry as a text and a name.
type Entry = (&'static str, &'static str);

/// Attribute types (RFC 4519) and an algorithm (RFC 8017), in which one identifier has two names.
const FOUR: &[Entry] = &[
    ("2.5.4.3", "cn"),
    ("2.5.4.6", "c"),
    ("2.5.4.3", "commonName"),
    ("1.2.840.113549.1.1.1", "rsaEncryption"),
];

const SAME: &[Entry] = &[("2.5.4.3", "cn"), ("2.5.4.3", "cn")];

const BOTH_CASES: &[Entry] = &[("2.5.4.6", "C"), ("2.5.4.3", "c")];

const ACCENTED: &[Entry] = &[("1.2.3", "É")];

const UNNAMED: &[Entry] = &[("1.2.3", "")];

/// The first of two equal names is found, and only the case of ASCII letters is ignored.
const ROWS: &[(&[Entry], Query)] = &[
    (FOUR, Query::Names("2.5.4.3", &["cn", "commonName"])),
    (FOUR, Query::Names("2.5.4.6", &["c"])),
    (FOUR, Query::Names("0.1.2.3.4.5.6.7.8.9", &[])),
    (FOUR, Query::Names("2.05.4.3", &["cn", "commonName"])),
    (FOUR, Query::Names("1.02.3", &[])),
    (FOUR, Query::Names("2.999", &[])),
    (FOUR, Query::Name("CN", Some("2.5.4.3"))),
    (FOUR, Query::Name("COMMONNAME", Some("2.5.4.3"))),
    (FOUR, Query::Name("common", None)),
    (FOUR, Query::Name("purplePeopleEater", None)),
    (&[], Query::Names("01.2", &[])),
    (&[], Query::Name("C", None)),
    (SAME, Query::Names("2.5.4.3", &["cn", "cn"])),
    (SAME, Query::Name("CN", Some("2.5.4.3"))),
    (BOTH_CASES, Query::Names("2.5.4.3", &["c"])),
    (BOTH_CASES, Query::Name("c", Some("2.5.4.6"))),
    (ACCENTED, Query::Names("1.2", &[])),
    (ACCENTED, Query::Name("é", None)),
    (ACCENTED, Query::Names("1.2.3", &["É"])),
    (ACCENTED, Query::Name("É", Some("1.2.3"))),
    (UNNAMED, Query::Names("1.2.3", &[""])),
    (UNNAMED, Query::Name("", Some("1.2.3"))),
];

/// Whether a table answers so, its iterator stays at its end, and it resolves no wrong text.
fn is_answer(database: &Database<'_>, query: &Query) -> Result<bool, Error> {
    let is = match query {
        Query::Names(text, names) => {
            let (oid, first) = (Oid::new(text)?, names.first().copied());
            let mut left = database.find_names_for_oid(oid);
            database.by_oid(&oid) == first
                && database.resolve(text) == Ok(first.unwrap_or(text))
                && left.by_ref().eq(names.iter().copied())
                && left.next().is_none()
        }
        Query::Name(name, wanted) => {
            database.by_name(name).copied() == wanted.map(|text| Oid::new(text)).transpose()?
        }
    };
    Ok(is && database.resolve("1.") == Err(Error::TrailingDot))
}

/// Whether a table of these identifiers and names answers so, without an index, and with memory of each length lent for
/// one, also if it is indexed again.
fn is_answered<'a>(named: &'a [(&'a Oid, &'a str)], query: &Query) -> Result<bool, Fail> {
    let database = clone_of(&Database::new(named))?;
    let mut same = is_answer(&database, query) == Ok(true);
    for len in 0..=24 {
        let mut memory = [0xEEEE; 24];
        let indexed = Database::new(named).indexed(&mut memory[..len]);
        same = same && is_answer(&indexed, query) == Ok(true);
        let mut other = [0; 10];
        same = same && is_answer(&indexed.indexed(&mut other), query) == Ok(true);
    }
    Ok(same)
}

/// Whether a table of these entries answers so.
fn answers(alloc: Global, entries: &[Entry], query: &Query) -> Result<bool, Fail> {
    let mut oids = Vec::new(alloc);
    for (text, _) in entries {
        oids.push(parse(text)?)?;
    }
    let mut named = Vec::new(alloc);
    for (oid, (_, name)) in oids.iter().zip(entries) {
        named.push((oid, *name))?;
    }
    is_answered(&named, query)
}

#[test]
fn answers_each_row(rt: HostRuntime) -> Result<(), Fail> {
    for (entries, query) in ROWS {
        let is = answers(rt.alloc(), entries, query)?;
        assert!(rt; is, "{query:?} in {entries:?}");
    }
    Ok(())
}

/// A table is indexed from 3n + 3 numbers of memory on, and stays so.
#[test]
fn tells_whether_it_is_indexed(rt: HostRuntime) -> Result<(), Fail> {
    let (cn, c) = (parse("2.5.4.3")?, parse("2.5.4.6")?);
    let named = [
        (&cn, "cn"),
        (&c, "c"),
        (&cn, "commonName"),
        (&c, "countryName"),
    ];
    let (mut short, mut memory) = ([0; 14], [0; 15]);
    assert!(rt; !Database::new(&named).is_indexed());
    assert!(rt; !Database::new(&named).indexed(&mut short).is_indexed());
    let indexed = Database::new(&named).indexed(&mut memory);
    assert!(rt; indexed.is_indexed() && indexed.indexed(&mut []).is_indexed());
    Ok(())
}
