//! Identifiers that begin with one of a list.

ghost use Rattle.std.specs.Prelude.{◌↔◌, IsTrue};
ghost use Rattle.std.specs.List.{Any};
ghost use Rattle.const_oid.specs.OidRef.{ref_arcs};
ghost use Rattle.const_oid.specs.Tree.{BeginsWith};

use const_oid::ObjectIdentifierRef;

/// Whether an identifier is in one of the subtrees of a list.
pub fn is_under_any(oid: &ObjectIdentifierRef<'_>, roots: &[ObjectIdentifierRef<'_>]) -> bool
    ensures { IsTrue result ↔ Any (λ root. BeginsWith (ref_arcs oid.now) (ref_arcs root)) roots.now }
{
    for root in roots {
        if oid.starts_with(root) {
            return true;
        }
    }
    false
}
