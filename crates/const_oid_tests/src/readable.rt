//! Tables of names that are read as they are displayed, and others: `is_readable`.

use crate::vectors::parse;
use const_oid::Oid;
use const_oid::db::Database;
use const_oid::tables::{Table, Tables};
use std::alloc::{AllocError, Global};
use std::test::Fail;

/// The names in two tables, and whether they are readable.
const ROWS: &[(&[&str], &[&str], bool)] = &[
    (&[], &[], true),
    (
        &["cn", "a b", "a b::c", "id.cn", "x.509"],
        &["cn.x", "oids", "CN"],
        true,
    ),
    (&["cn"], &[" cn"], false),
    (&["cn\t"], &[], false),
    (&[".cn"], &[], false),
    (&["oid.cn"], &[], false),
    (&["URN:oid:cn"], &[], false),
    (&["X-520::cn"], &[], false),
    (&["3com"], &[], false),
    (&["cn", ""], &[], false),
    (&["Oid"], &[], false),
    (&["x.509"], &["X"], false),
];

/// The names with an identifier.
fn named<'a>(
    alloc: Global,
    oid: &'a Oid,
    names: &[&'a str],
) -> Result<Vec<(&'a Oid, &'a str)>, AllocError> {
    names.iter().map(|name| (oid, *name)).collect(alloc)
}

#[test]
fn tells_each_row(rt: HostRuntime) -> Result<(), Fail> {
    let oid = parse("2.999")?;
    for (first, second, wanted) in ROWS {
        let first = named(rt.alloc(), &oid, first)?;
        let second = named(rt.alloc(), &oid, second)?;
        let tables = [
            Table::Listed(Database::new(&first)),
            Table::Listed(Database::new(&second)),
        ];
        assert!(rt;
            Tables(&tables).is_readable() == *wanted,
            "{first:?} {second:?}"
        );
    }
    Ok(())
}
