//! The first two arcs and the number that holds both (X.690, 8.19.4).

ghost use Rattle.std.specs.Prelude.{◌≡◌, ℕ, ◌+◌, ◌*◌, ◌<◌, ◌≤◌, List, ◌∷◌, MatchResult};
ghost use Rattle.const_oid.specs.Contents.{arcs_from, max_first};
ghost use Rattle.const_oid.specs.Identifier.{root_rule, max_second};

use crate::Arc;
use crate::error::{Error, Result};

/// The greatest second arc under 0 and 1.
pub(crate) const MAX_NARROW: Arc = 39;

/// The greatest first subidentifier: of the first arc 2 and the greatest second arc.
pub(crate) const MAX_FIRST: u64 = 2 * 40 + Arc::MAX as u64;

/// Refuses a first arc past 2 (X.660).
#[inline(always)]
pub(crate) const fn check_first(first: Arc) -> Result<()>
    ensures { MatchResult result (λ _. first ≤ 2) (λ fault. (fault ≡ Error.ArcInvalid first) × (2 < first)) }
{
    if first > 2 {
        return Err(Error::ArcInvalid { arc: first });
    }
    Ok(())
}

/// The number that holds both arcs. Refuses a second arc past 39 under 0 and 1. Under 2, any of 32 bits is allowed.
#[inline(always)]
pub(crate) const fn join_root(first: Arc, second: Arc) -> Result<u64>
    ensures { MatchResult result
        (λ number. (second ≤ max_second root_rule first) × (number ≡ 40 * first + second))
        (λ fault. (fault ≡ Error.ArcInvalid second) × (max_second root_rule first < second)) }
{
    if first < 2 && second > MAX_NARROW {
        return Err(Error::ArcInvalid { arc: second });
    }
    Ok(40 * first as u64 + second as u64)
}

/// The two arcs that the first subidentifier holds.
#[inline]
pub(crate) fn split_root(root: u64) -> (Arc, Arc)
    requires { root ≤ max_first root_rule }
    ensures arcs { (later : List ℕ) → arcs_from (root ∷ later) ≡ result.0 ∷ result.1 ∷ later }
    ensures valid { (result.0 ≤ 2) × (result.1 ≤ max_second root_rule result.0) × (40 * result.0 + result.1 ≡ root) }
{
    if root < 80 {
        ((root / 40) as Arc, (root % 40) as Arc)
    } else {
        (2, (root - 80) as Arc)
    }
}
