//! Names of algorithms (RFC 5280) by the contents octets of their identifiers.

ghost use Rattle.std.specs.Prelude.{◌≡◌, Ok, Err, MatchResult};
ghost use Rattle.const_oid.specs.Contents.{octet_answer};
ghost use Rattle.const_oid.specs.Identifier.{root_rule, default_capacity};
ghost use Rattle.const_oid.specs.Names.{entries_of, first_name, lent_arcs};

use const_oid::db::Database;
use const_oid::{Error, Oid};

/// The first name of the algorithm with these octets, `None` if the table has none, or the error of `from_bytes`.
pub fn name_of<'a>(database: &Database<'a>, octets: &[u8]) -> Result<Option<&'a str>, Error>
    ensures { MatchResult (octet_answer root_rule octets.now default_capacity)
        (λ arcs. result ≡ Ok (first_name lent_arcs (entries_of database.now) arcs))
        (λ fault. result ≡ Err fault) }
{
    let oid = Oid::from_bytes(octets)?;
    Ok(database.by_oid(&oid))
}
