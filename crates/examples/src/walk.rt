//! Names of SNMP, and a walk in lexicographic order of arcs, for GetNext (RFC 3416).

ghost use Rattle.std.specs.Prelude.{◌≡◌, ◌≢◌, ◌≤◌, Err, IfSome, IfNone, length};
ghost use Rattle.std.specs.Cmp.Lexicographic.{slice_cmp};
ghost use Rattle.std.specs.List.{All};
ghost use Rattle.std.specs.List.Sorted.{IsSortedByKey};
ghost use Rattle.std.specs.Ordering.{nat_cmp};
ghost use Rattle.std.specs.declared.cmp.Ordering.TheVariants.{Less};
ghost use Rattle.const_oid.specs.Identifier.{root_rule};
ghost use Rattle.const_oid.specs.Items.{item_answer};
ghost use Rattle.const_oid.specs.OidRef.{key_arcs, ref_answer, ref_arcs};
ghost use Rattle.const_oid.specs.Tree.{BeginsWith};
ghost use Rattle.const_oid.specs.declared.by_arcs.ByArcs.{ByArcs};
ghost use Rattle.examples.specs.Walk.{IsNext};

use const_oid::{Arc, ByArcs, Error, ObjectIdentifierRef, Result};

/// Octets that are enough for the 128 arcs that a name may have (RFC 2578, 3.5).
pub const MAX_NAME: usize = 640;

/// The name of these arcs, in the caller's octets, which are enough.
pub fn name<'o>(arcs: &[Arc], out: &'o mut [u8; MAX_NAME]) -> Result<ObjectIdentifierRef<'o>>
    requires { length arcs.now ≤ 128 }
    ensures answer { ref_answer result ≡ item_answer root_rule arcs.now 640 }
    ensures fits { result ≢ Err Error.Length }
{
    ObjectIdentifierRef::from_arcs_in(arcs, out)
}

/// The first key of a sorted list after an identifier, which need not be in it.
pub fn next_after<'s, 'a>(
    sorted: &'s [ByArcs<'a>],
    oid: &ObjectIdentifierRef<'_>,
) -> Option<&'s ByArcs<'a>>
    requires { IsSortedByKey key_arcs (slice_cmp nat_cmp) sorted.now }
    ensures found { IfSome result (λ next. IsNext sorted.now (ref_arcs oid.now) next.now) }
    ensures none { IfNone result
        (All (λ key. slice_cmp nat_cmp (ref_arcs oid.now) (key_arcs key) ≢ Less) sorted.now) }
{
    let index = sorted.partition_point(|key| key.0.cmp_arcs(oid).is_le());
    sorted.get(index)
}

/// The next key after an identifier, or `None` if there is none or it is not under a root, as at the end of the root's
/// subtree.
pub fn next_under<'s, 'a>(
    sorted: &'s [ByArcs<'a>],
    root: &ObjectIdentifierRef<'_>,
    oid: &ObjectIdentifierRef<'_>,
) -> Option<&'s ByArcs<'a>>
    requires { IsSortedByKey key_arcs (slice_cmp nat_cmp) sorted.now }
    ensures found { IfSome result (λ next. IsNext sorted.now (ref_arcs oid.now) next.now
        × BeginsWith (key_arcs next.now) (ref_arcs root.now)) }
    ensures none { IfNone result ((next : ByArcs) → IsNext sorted.now (ref_arcs oid.now) next
        → ¬ BeginsWith (key_arcs next) (ref_arcs root.now)) }
    ensures end { IfNone result (BeginsWith (ref_arcs oid.now) (ref_arcs root.now)
        → All (λ key. BeginsWith (key_arcs key) (ref_arcs root.now)
        → slice_cmp nat_cmp (ref_arcs oid.now) (key_arcs key) ≢ Less) sorted.now) }
{
    let next = next_after(sorted, oid)?;
    next.0.starts_with(root).then_some(next)
}
