//! Attribute types of a directory (RFC 4519), by their names or their identifiers.

ghost use Rattle.std.specs.Prelude.{◌≡◌, ◌↔◌, [], ◌∷◌, IsTrue, IfSome, IfNone, Ok};
ghost use Rattle.const_oid.specs.Identifier.{root_rule, default_capacity};
ghost use Rattle.const_oid.specs.Names.{entries_of, first_oid};
ghost use Rattle.const_oid.specs.Oid.{oid_arcs, oid_answer};
ghost use Rattle.const_oid.specs.Text.{text_answer};

use const_oid::db::Database;
use const_oid::{AssociatedOid, DynAssociatedOid, Error, Oid};

/// cn, commonName.
pub struct CommonName;

impl AssociatedOid for CommonName {
    ghost type_arcs = { 2 ∷ 5 ∷ 4 ∷ 3 ∷ [] };

    fn associated_oid() -> Oid {
        Oid::new_unwrap("2.5.4.3")
    }
}

/// c, countryName.
pub struct Country;

impl AssociatedOid for Country {
    ghost type_arcs = { 2 ∷ 5 ∷ 4 ∷ 6 ∷ [] };

    fn associated_oid() -> Oid {
        Oid::new_unwrap("2.5.4.6")
    }
}

/// An attribute of an entry, of any type.
#[derive(Drop)]
pub struct Attribute {
    pub kind: Oid,
}

impl DynAssociatedOid for Attribute {
    ghost value_arcs = { λ attribute. oid_arcs attribute.kind };

    fn oid(&self) -> Oid {
        self.kind
    }
}

/// Whether an attribute is of a type.
pub fn has_type<T: AssociatedOid>(attribute: &Attribute) -> bool
    ensures { IsTrue result ↔ (oid_arcs attribute.now.kind ≡ T.type_arcs) }
{
    attribute.oid() == T::associated_oid()
}

/// The identifier that a user means: by a name, ignoring ASCII case, or else by its dotted text.
pub fn find(database: &Database<'_>, input: &str) -> Result<Oid, Error>
    ensures named { IfSome (first_oid (entries_of database.now) input.now) (λ oid. result ≡ Ok oid.now) }
    ensures dotted { IfNone (first_oid (entries_of database.now) input.now)
        (oid_answer result ≡ text_answer root_rule input.now default_capacity) }
{
    match database.by_name(input) {
        Some(oid) => Ok(*oid),
        None => input.parse(),
    }
}
