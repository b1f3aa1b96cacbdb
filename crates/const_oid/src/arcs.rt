//! Contents octets read as arcs (X.690, 8.19.2 to 8.19.4).
ghost use Rattle.std.specs.Prelude.{◌≡◌, map, slice_get, None};
ghost use Rattle.std.specs.Iterator.{YieldsFirst, item_count};
ghost use Rattle.const_oid.specs.Base128.{value_of};
ghost use Rattle.const_oid.specs.Identifier.{root_rule};
ghost use Rattle.const_oid.specs.Contents.{cut, later_fault, parts_fault, arcs_of_octets};

pub use crate::Arc;
use crate::base128::read_group;
use crate::parts::skip_parts;
use crate::root::split_root;
use std::marker::Model;

/// An iterator over the arcs of an identifier, in order. After the last arc, `next` always returns `None`.
/// [`ObjectIdentifierRef::arcs`](crate::ObjectIdentifierRef::arcs) has an example.
#[derive(Drop)]
pub struct Arcs<'a> {
    next: Next,
    octets: &'a [u8],
}

/// What the octets that are left begin with.
#[derive(Clone, Copy)]
enum Next {
    /// The first subidentifier, which holds the first two arcs.
    First,
    /// The second arc, and then later ones.
    Second(Arc),
    /// Later arcs. Each is a subidentifier.
    Later,
}

impl<'a> Model for Arcs<'a> {
    ghost use Rattle.std.specs.Prelude.{◌≡◌, ℕ, List, None};
    ghost use Rattle.const_oid.specs.Private.Octets.{arcs_left, fault_left};

    ghost Value = { List ℕ };

    ghost view = { λ arcs. arcs_left arcs.next arcs.octets.now };

    ghost invariant = { λ arcs. fault_left arcs.next arcs.octets.now ≡ None };
}

impl<'a> Arcs<'a> {
    /// All arcs of valid octets.
    pub(crate) fn new(octets: &'a [u8]) -> Self
        requires { parts_fault root_rule (cut octets.now) ≡ None }
        ensures { result ≡ arcs_of_octets octets.now }
    {
        Arcs {
            next: Next::First,
            octets,
        }
    }

    /// The arcs of later subidentifiers, which are valid and follow others.
    pub(crate) fn later(octets: &'a [u8]) -> Self
        requires { later_fault (cut octets.now) ≡ None }
        ensures { result ≡ map value_of (cut octets.now) }
    {
        Arcs {
            next: Next::Later,
            octets,
        }
    }
}

impl Iterator for Arcs<'_> {
    type Item = Arc;

    ghost next_gives = { YieldsFirst (λ arcs. arcs) };

    ghost remaining = { item_count (λ arcs. arcs) };

    #[tactic(auto, using(crate::proofs::PartsFault::parts_from_later, crate::proofs::PartsFault::later_small))]
    #[inline]
    fn next(&mut self) -> Option<Arc> {
        if let Next::Second(arc) = self.next {
            self.next = Next::Later;
            return Some(arc);
        }
        if self.octets.is_empty() {
            return None;
        }
        // The first subidentifier and those after it are read at one place.
        let (number, later) = read_group(self.octets);
        self.octets = later;
        if let Next::First = self.next {
            let (first, second) = split_root(number);
            self.next = Next::Second(second);
            return Some(first);
        }
        Some(number as Arc)
    }
}

/// The arc at an index, counted from 0, of valid octets, or `None` past the last. The subidentifiers before its own are
/// skipped, and not decoded.
#[tactic(auto, using(crate::proofs::Sets::parts_left))]
#[inline]
pub(crate) fn arc_at(octets: &[u8], index: usize) -> Option<Arc>
    requires { parts_fault root_rule (cut octets.now) ≡ None }
    ensures { result ≡ slice_get (arcs_of_octets octets.now) index }
{
    if index < 2 {
        let (first, second) = split_root(read_group(octets).0);
        return Some(if index == 0 { first } else { second });
    }
    let rest = skip_parts(octets, index - 1);
    if rest.is_empty() {
        return None;
    }
    Some(read_group(rest).0 as Arc)
}
