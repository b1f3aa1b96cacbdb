//! Subidentifiers in octets: where they begin, and where they end. In names, they are `parts`. What is left after the
//! last octet below 128 is one, too.

ghost use Rattle.std.specs.Prelude.{◌≡◌, ◌-◌, ◌≤◌, length, take, drop};
ghost use Rattle.const_oid.specs.Contents.{cut};
ghost use Rattle.const_oid.specs.Private.Prefixes.{IsFinishedPrefix};

use crate::fast::slices::first_octets;

/// Bit 8. It is set in all octets of a subidentifier but the last (X.690, 8.19.2).
pub(crate) const CONTINUED: u8 = 128;

/// The octets after the first `parts` subidentifiers.
#[tactic(auto, using(crate::proofs::PartBounds::after_more, std::proofs::lemmas::List::take_rest))]
#[inline(always)]
pub(crate) fn skip_parts(octets: &[u8], parts: usize) -> &[u8]
    ensures { cut result.now ≡ drop parts (cut octets.now) }
{
    let mut left = parts;
    for (i, octet) in octets.iter().enumerate() {
        if left == 0 {
            return &octets[i..];
        }
        left -= usize::from(*octet < CONTINUED);
    }
    &octets[octets.len()..]
}

/// The octets before the last subidentifier. They end with the last octet below 128 that is not the final octet.
#[inline]
pub(crate) fn without_last_part(octets: &[u8]) -> &[u8]
    ensures parts { let parts = cut octets.now in cut result.now ≡ take (length parts - 1) parts }
    ensures finished { IsFinishedPrefix (take (length octets.now - 1) octets.now) result.now }
{
    let Some((_, prefix)) = octets.split_last() else {
        return octets;
    };
    match prefix.iter().rposition(|octet| *octet < CONTINUED) {
        Some(index) => first_octets(prefix, index + 1),
        None => &[],
    }
}

/// Where the last subidentifier begins.
// erase: const
pub(crate) fn last_part(octets: &[u8]) -> usize
    ensures within { result ≤ length octets.now }
    ensures parts { let parts = cut octets.now in cut (take result octets.now) ≡ take (length parts - 1) parts }
{
    let Some((_, prefix)) = octets.split_last() else {
        return 0;
    };
    let mut start = prefix.len();
    while start > 0 && prefix[start - 1] >= CONTINUED {
        start -= 1;
    }
    start
}
