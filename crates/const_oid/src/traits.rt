//! Identifiers of types and of values.

ghost use Rattle.std.specs.Prelude.{◌≡◌, ◌≢◌, ◌<◌, ℕ, List, length, All, IfSome, IfNone};
ghost use Rattle.std.specs.List.{HoldsAt, AllWithin};
ghost use Rattle.const_oid.specs.Oid.{oid_arcs};

use crate::oid::Oid;

/// A type that has an identifier, always the same.
pub trait AssociatedOid {
    /// The arcs of the type's identifier.
    ghost type_arcs: { List ℕ };

    /// The identifier of the type.
    fn associated_oid() -> Oid
        ensures { oid_arcs result ≡ type_arcs };
}

/// A value that has an identifier, by what it holds. Every value of a type with an identifier has the identifier of its
/// type.
pub trait DynAssociatedOid {
    /// The arcs of a value's identifier.
    ghost value_arcs: { Self → List ℕ };

    /// The identifier of the value.
    fn oid(&self) -> Oid
        ensures { oid_arcs result ≡ value_arcs self.now };
}

impl<T: AssociatedOid> DynAssociatedOid for T {
    ghost value_arcs = { λ _. T.type_arcs };

    fn oid(&self) -> Oid {
        T::associated_oid()
    }
}

/// The first index, counted from 0, whose value has this identifier, or `None` if no value has it.
pub fn position_of(values: &[Box<dyn DynAssociatedOid + Drop>], oid: &Oid) -> Option<usize>
    ensures within { IfSome result (λ index. index < length values.now) }
    ensures found { IfSome result (λ index.
        HoldsAt (λ value. value_arcs value ≡ oid_arcs oid.now) values.now index) }
    ensures first { IfSome result (λ index.
        AllWithin (λ value. value_arcs value ≢ oid_arcs oid.now) values.now 0 index) }
    ensures none { IfNone result (All (λ value. value_arcs value ≢ oid_arcs oid.now) values.now) }
{
    for (index, value) in values.iter().enumerate() {
        if value.oid() == *oid {
            return Some(index);
        }
    }
    None
}
