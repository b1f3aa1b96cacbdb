//! Tables of names: of constants, the attribute types of a directory (RFC 4519), and of rows read at run time.

ghost use Rattle.std.specs.Prelude.{◌≡◌, ◌↔◌, IfOk, IsTrue};
ghost use Rattle.std.specs.List.{Any};
ghost use Rattle.const_oid.specs.Names.{entries_of};
ghost use Rattle.const_oid.specs.OidRef.{ref_arcs};
ghost use Rattle.examples.specs.AttributeTypes.{attribute_types};

use const_oid::db::{Database, SortedDatabase};
use const_oid::{ObjectIdentifierRef, Oid};
use std::alloc::AllocError;

/// An identifier, as octets, and its name.
macro_rules! row {
    ($octets:expr, $name:expr) => {
        (ObjectIdentifierRef { ber: &$octets }, $name)
    };
}

/// Identifiers and their names, sorted by arcs. The checker reads the octets.
pub const ATTRIBUTE_TYPES: [(ObjectIdentifierRef<'static>, &str); 5] = [
    row!([9, 0x92, 0x26, 0x89, 0x93, 0xF2, 0x2C, 0x64, 1, 0x19], "dc"),
    row!([0x55, 4, 3], "cn"),
    row!([0x55, 4, 4], "sn"),
    row!([0x55, 4, 6], "c"),
    row!([0x55, 4, 10], "o"),
];

/// Whether the table has an attribute type.
pub fn is_attribute_type(oid: &ObjectIdentifierRef<'_>) -> bool
    ensures { IsTrue result ↔ Any (λ row. row.0 ≡ ref_arcs oid.now) attribute_types }
{
    SortedDatabase::new(&ATTRIBUTE_TYPES).by_oid(oid).is_some()
}

/// A table of these rows, with an index in a vector that grows for it.
pub fn indexed<'a>(
    rows: &'a [(&'a Oid, &'a str)],
    memory: &'a mut Vec<u16>,
) -> Result<Database<'a>, AllocError>
    ensures { IfOk result (λ names. entries_of names ≡ rows.now) }
{
    memory.resize(rows.len().saturating_mul(4), 0)?;
    Ok(Database::new(rows).indexed(memory))
}
