//! What callers want to know of identifiers, as contracts of small functions.

ghost use Rattle.std.specs.Prelude.{◌≡◌, ◌<◌, ◌≤◌, ◌↔◌, ◌++◌, ℕ, List, [], ◌∷◌, drop, length, Some, IsTrue, IsSome};
ghost use Rattle.std.specs.Prelude.{IfErr, IfOk, IfSome, IsOk, IsOkAnd, IsSomeAnd};
ghost use Rattle.const_oid.specs.Element.{element};
ghost use Rattle.const_oid.specs.Identifier.{size, default_capacity};
ghost use Rattle.const_oid.specs.Oid.{oid_arcs};
ghost use Rattle.const_oid.specs.OidRef.{ref_arcs, ref_octets};
ghost use Rattle.const_oid.specs.Tree.{BeginsWith, child_of, parent_of};

use const_oid::{Arc, Error, ObjectIdentifier, ObjectIdentifierRef, Oid};
use std::alloc::{AllocError, Global};

/// rsaEncryption (RFC 8017), as text.
const RSA_ENCRYPTION: &str = "1.2.840.113549.1.1.1";

/// The identifier of a text that is a constant: the checker reads it as it reads a literal.
pub fn rsa_encryption() -> Oid
    ensures { oid_arcs result ≡ 1 ∷ 2 ∷ 840 ∷ 113549 ∷ 1 ∷ 1 ∷ 1 ∷ [] }
{
    Oid::new_unwrap(RSA_ENCRYPTION)
}

/// Whether contents octets are those of rsaEncryption.
pub fn is_rsa_encryption(octets: &[u8]) -> bool
    ensures { IsTrue result ↔ (octets.now ≡ 42 ∷ 134 ∷ 72 ∷ 134 ∷ 247 ∷ 13 ∷ 1 ∷ 1 ∷ 1 ∷ []) }
{
    octets == Oid::new_unwrap("1.2.840.113549.1.1.1").as_bytes()
}

/// Whether an identifier is in the subtree of the enterprises, 1.3.6.1.4.1.
pub fn is_enterprise(oid: &Oid) -> bool
    ensures { IsTrue result ↔ BeginsWith (oid_arcs oid.now) (1 ∷ 3 ∷ 6 ∷ 1 ∷ 4 ∷ 1 ∷ []) }
{
    oid.starts_with(Oid::new_unwrap("1.3.6.1.4.1"))
}

/// Whether an identifier is a child of the enterprises, such as 1.3.6.1.4.1.8072.
pub fn is_enterprise_number(oid: &ObjectIdentifierRef<'_>) -> bool
    ensures { IsTrue result ↔ (parent_of (ref_arcs oid.now) ≡ Some (1 ∷ 3 ∷ 6 ∷ 1 ∷ 4 ∷ 1 ∷ [])) }
{
    match oid.parent() {
        Some(parent) => parent.eq_oid(&Oid::new_unwrap("1.3.6.1.4.1")),
        None => false,
    }
}

/// The parent of a child is the identifier that it was made of.
pub fn parent_of_child(oid: Oid, arc: Arc) -> Result<Option<Oid>, Error>
    ensures fits { IsOk result ↔ (size (child_of (oid_arcs oid) arc) ≤ default_capacity) }
    ensures error { IfErr result (λ error. error ≡ Error.Length) }
    ensures same { IfOk result (λ parent. IsSomeAnd parent (λ parent. oid_arcs parent ≡ oid_arcs oid)) }
{
    Ok(oid.push_arc(arc)?.parent())
}

/// The parent's child with the last arc of an identifier fits, and is that identifier.
pub fn child_of_parent(oid: Oid) -> Option<Result<Oid, Error>>
    ensures found { IsSome result ↔ (2 < length (oid_arcs oid)) }
    ensures again { IfSome result (λ child. IsOkAnd child (λ again. oid_arcs again ≡ oid_arcs oid)) }
{
    let parent = oid.parent()?;
    let last = oid.arc(parent.len())?;
    Some(parent.push_arc(last))
}

/// What is printed is read as the same identifier.
#[tactic(auto, using(const_oid::proofs::Identifiers::printed_back))]
pub fn through_text<const SIZE: usize>(
    alloc: Global,
    oid: ObjectIdentifier<SIZE>,
) -> Result<Result<ObjectIdentifier<SIZE>, Error>, AllocError>
    ensures { IfOk result (λ read. IsOkAnd read (λ read. oid_arcs read ≡ oid_arcs oid.entry)) }
{
    let text = oid.to_string(alloc)?;
    Ok(ObjectIdentifier::new_sized(text.as_str()))
}

/// What is read of octets as an element: the identifier or the error, and the octets after it.
type Element<'a> = (Result<ObjectIdentifierRef<'a>, Error>, &'a [u8]);

/// An element that fits is written and read as the same identifier, and the octets after it as the rest.
pub fn through_element<'a>(
    oid: ObjectIdentifierRef<'_>,
    out: &'a mut [u8],
) -> Option<Option<Element<'a>>>
    ensures fits { IsSome result ↔ (length (element (ref_octets oid.entry)) ≤ length out.old) }
    ensures again { IfSome result (λ read. IsSomeAnd read (λ read.
        IsOkAnd read.0 (λ again. ref_octets again ≡ ref_octets oid.entry)
        × (read.1.now ≡ drop (length (element (ref_octets oid.entry))) out.old))) }
{
    oid.write_element(out)?;
    Some(ObjectIdentifierRef::read_element(out))
}

/// Whether octets begin with a whole element, whatever its contents octets are.
pub fn begins_with_element(der: &[u8]) -> bool
    ensures { IsTrue result ↔ ((contents : List ℕ) × (rest : List ℕ) × (der.now ≡ element contents ++ rest)) }
{
    ObjectIdentifierRef::read_element(der).is_some()
}
