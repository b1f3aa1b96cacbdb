//! Identifiers as keys in the order of arcs.

ghost use Rattle.std.specs.Prelude.{◌≡◌, ◌↔◌, nat_eq, refl, IsTrue, Some};
ghost use Rattle.std.specs.Cmp.{on_equiv, on_per, on_po, on_total, partial_equiv_from_equiv};
ghost use Rattle.std.specs.Cmp.Lexicographic.{pointwise, slice_cmp, nat_list_eq_equiv, nat_list_cmp_total, texts_po, texts_ties};
ghost use Rattle.std.specs.Ordering.{nat_cmp};
ghost use Rattle.const_oid.specs.OidRef.{key_arcs};

use crate::oid_ref::ObjectIdentifierRef;
use std::cmp::Ordering;

/// A borrowed identifier whose `Ord` is the lexicographic order of arcs, in which SNMP sorts names (RFC 3416).
///
/// It is a key for sorted maps and for `sort_by_key`.
#[derive(Copy, Clone)]
pub struct ByArcs<'a>(pub ObjectIdentifierRef<'a>);

impl PartialEq for ByArcs<'_> {
    ghost eq = { λ a b. pointwise nat_eq (key_arcs a) (key_arcs b) };

    ghost laws = { on_per key_arcs (partial_equiv_from_equiv nat_list_eq_equiv) };

    #[tactic(auto, using(crate::proofs::ByWords::tells_same))]
    fn eq(&self, other: &Self) -> bool
        ensures value { result ≡ pointwise nat_eq (key_arcs self.now) (key_arcs other.now) }
        ensures arcs { IsTrue result ↔ (key_arcs self.now ≡ key_arcs other.now) }
    {
        self.0 == other.0
    }
}

impl Eq for ByArcs<'_> {
    ghost laws = { on_equiv key_arcs nat_list_eq_equiv };
}

impl PartialOrd for ByArcs<'_> {
    ghost partial_cmp = { λ a b. Some (slice_cmp nat_cmp (key_arcs a) (key_arcs b)) };

    ghost laws = { on_po key_arcs texts_po };

    fn partial_cmp(&self, other: &Self) -> Option<Ordering> {
        Some(self.cmp(other))
    }
}

impl Ord for ByArcs<'_> {
    ghost cmp = { λ a b. slice_cmp nat_cmp (key_arcs a) (key_arcs b) };

    ghost total = { on_total key_arcs nat_list_cmp_total };

    ghost matches_partial_cmp = { λ a b. refl };

    ghost matches_eq = { λ a b. texts_ties (key_arcs a) (key_arcs b) };

    fn cmp(&self, other: &Self) -> Ordering
        ensures { result ≡ slice_cmp nat_cmp (key_arcs self.now) (key_arcs other.now) }
    {
        self.0.cmp_arcs(&other.0)
    }
}
