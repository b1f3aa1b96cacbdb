//! Identifiers of types and of values: `AssociatedOid`, `DynAssociatedOid` and `position_of`.

ghost use Rattle.std.specs.Prelude.{◌≡◌, [], ◌∷◌};
ghost use Rattle.const_oid.specs.Oid.{oid_arcs};

use crate::vectors::parse;
use const_oid::traits::position_of;
use const_oid::{AssociatedOid, DynAssociatedOid, Oid};
use std::alloc::Global;
use std::test::Fail;

/// A type with the identifier 1.2.3.
#[derive(Drop)]
struct Unit;

impl AssociatedOid for Unit {
    ghost type_arcs = { 1 ∷ 2 ∷ 3 ∷ [] };

    fn associated_oid() -> Oid {
        Oid::new_unwrap("1.2.3")
    }
}

/// A value with the identifier that it holds.
#[derive(Drop)]
struct Held {
    oid: Oid,
}

impl DynAssociatedOid for Held {
    ghost value_arcs = { λ held. oid_arcs held.oid };

    fn oid(&self) -> Oid {
        self.oid
    }
}

/// Every value of a type with an identifier has the identifier of its type.
fn oid_of<T: AssociatedOid>(value: &T) -> Oid
    ensures { oid_arcs result ≡ T.type_arcs }
{
    value.oid()
}

#[test]
fn a_value_has_the_identifier_of_its_type(rt: HostRuntime) {
    let oid = Unit::associated_oid();
    assert!(rt; oid.as_bytes() == [0x2A, 0x03].as_slice() && oid_of(&Unit) == oid);
}

/// The index of a text's identifier among values that hold those of texts, or, for no text, have that of their type.
fn index_among(alloc: Global, held: &[&str], text: &str) -> Result<Option<usize>, Fail> {
    let mut values: Vec<Box<dyn DynAssociatedOid + Drop>> = Vec::new(alloc);
    for text in held {
        if text.is_empty() {
            values.push(Box::new(alloc, Unit)?)?;
        } else {
            let oid = parse(text)?;
            values.push(Box::new(alloc, Held { oid })?)?;
        }
    }
    Ok(position_of(&values, &parse(text)?))
}

/// The texts of identifiers that values hold, a text, and the first index of its identifier, if there is one.
const INDICES: &[(&[&str], &str, Option<usize>)] = &[
    (&["1.2.3", "2.5.4.3", "1.2.3"], "1.2.3", Some(0)),
    (&["1.2.3", "2.5.4.3", "1.2.3"], "2.5.4.3", Some(1)),
    (&["1.2.3", "2.5.4.3", "1.2.3"], "1.2", None),
    (&[], "1.2.3", None),
    (&["", "1.2.3"], "1.2.3", Some(0)),
    (&["1.2.3", ""], "1.2.3", Some(0)),
    (&["1.2.4", ""], "1.2.3", Some(1)),
];

#[test]
fn finds_the_first_index(rt: HostRuntime) -> Result<(), Fail> {
    for (held, text, index) in INDICES {
        let found = index_among(rt.alloc(), held, text)?;
        assert!(rt; found == *index, "{text} in {held:?}");
    }
    Ok(())
}
