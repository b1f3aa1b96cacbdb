//! Octets in an array. The first ones are in use.

ghost use Rattle.std.specs.Prelude.{◌≡◌, ◌++◌, ◌+◌, ◌-◌, ◌^◌, ◌<◌, ◌≤◌, ◌↔◌, [], length, take, drop, replicate, min, nat_eq, refl, IsTrue, MatchResult, Some};
ghost use Rattle.std.proofs.Props.{props};
ghost use Rattle.std.specs.Cmp.{on_equiv, on_per, on_po, on_total, partial_equiv_from_equiv};
ghost use Rattle.std.specs.Cmp.Lexicographic.{pointwise, nat_list_eq_equiv};
ghost use Rattle.const_oid.specs.Base128.{AreOctets, width};
ghost use Rattle.std.specs.Iterator.{IsFiniteIterable};
ghost use Rattle.const_oid.specs.Contents.{arcs_of_octets};
ghost use Rattle.const_oid.specs.Identifier.{root_rule, IsEncoding};
ghost use Rattle.const_oid.specs.Items.{TakesItems};
ghost use Rattle.const_oid.specs.Output.{written_over};
ghost use Rattle.const_oid.specs.Private.Octets.{GoesOn};
ghost use Rattle.const_oid.specs.Text.{text_answer, text_of, FollowsArc};

use crate::Arc;
use crate::base128::append_group;
use crate::encoder::encode_inlined;
use crate::error::{Error, Result};
use crate::fast::comparison::{are_arrays_equal, order};
// erase: omit
use crate::fast::copies::copy_to;
use crate::parser::{fault_of, long_fault, parse_inlined, parse_later};
use std::cmp::Ordering;
use std::hash::{Hash, Hasher};

/// How many octets fit an identifier of the default capacity.
pub(crate) const DEFAULT_CAPACITY: usize = 39;

/// The octets of an owned identifier: at most `SIZE`, and never more than 255.
///
/// It has no public constructor.
#[derive(Copy, Clone)]
pub struct Buffer<const SIZE: usize> {
    // The octets that are not in use are zero, on which `eq` relies.
    bytes: [u8; SIZE],
    used: u8,
    // Empty: it sets the alignment alone. A buffer then has the alignment of an `Error`, so in a `Result` both begin at
    // the same offset. Without it, the compiler copies a `Result` by copies that overlap, which takes more time.
    aligned: [u32; 0],
    ghost within: { used ≤ min SIZE 255 },
    ghost octets: { AreOctets (take used bytes) } by { Prim.hlevel props },
    ghost zeros: { drop used bytes ≡ replicate (SIZE - used) 0 },
}

impl<const SIZE: usize> Buffer<SIZE> {
    ghost use Rattle.const_oid.specs.Buffer.{buffer_octets};
    ghost use Rattle.const_oid.specs.Private.Encoder.{buffer_answer, HasEncoding};

    /// A buffer with no octet in use.
    const fn empty() -> Self
        ensures { buffer_octets result ≡ [] }
    {
        Buffer {
            bytes: [0; SIZE],
            used: 0,
            aligned: [],
        }
    }

    /// The most octets that it holds.
    const fn capacity() -> usize
        ensures { result ≡ min SIZE 255 }
    {
        if SIZE < 255 { SIZE } else { 255 }
    }

    /// The encoding of the identifier that a text denotes.
    // Here and below, octets go into the buffer that is returned: copies of an array wait for each other's stores.
    // erase: const
    #[tactic(auto, using(crate::proofs::Appended::buffered))]
    #[inline(always)]
    pub(crate) fn parsed(text: &[u8]) -> Result<Self>
        ensures answer { buffer_answer result ≡ text_answer root_rule text.now (min SIZE 255) }
        ensures encoding { HasEncoding result }
    {
        let mut buffer = Buffer::empty();
        match parse_inlined(text, &mut buffer.bytes, Self::capacity()) {
            Ok(len) => {
                buffer.used = len as u8;
                Ok(buffer)
            }
            Err(wrong) => Err(fault_of(text, wrong).0),
        }
    }

    /// The encoding of the identifier with the arcs of valid octets and then those of a text, each after a dot.
    // erase: const
    #[inline(always)]
    pub(crate) fn parsed_below(above: &[u8], text: &[u8]) -> Result<Self>
        requires valid { IsEncoding root_rule (arcs_of_octets above.now) above.now }
        requires follows { FollowsArc text.now }
        ensures answer { buffer_answer result ≡ text_answer root_rule (text_of (arcs_of_octets above.now) ++ text.now) (min SIZE 255) }
        ensures encoding { HasEncoding result }
    {
        let capacity = Self::capacity();
        if above.len() > capacity {
            return Err(long_fault(above, text, capacity));
        }
        let mut buffer = Buffer::copied(above);
        match parse_later(text, 0, &mut buffer.bytes, above.len(), capacity) {
            Ok(len) => {
                buffer.used = len as u8;
                Ok(buffer)
            }
            Err(wrong) => Err(fault_of(text, wrong).0),
        }
    }

    /// The encoding of the arcs that an iterator gives.
    #[tactic(auto, using(crate::proofs::Appended::buffered))]
    pub(crate) fn encoded<I: IntoIterator<Item = Arc>>(arcs: I) -> Result<Self>
    where
        I::IntoIter: Drop,
        // The iterator can be asked for all of its items, and ends.
        requires { IsFiniteIterable I.into_iter_gives I.IntoIter.can_next I.IntoIter.remaining arcs }
        ensures takes { (iterator : I.IntoIter) × I.into_iter_gives arcs iterator
            × TakesItems root_rule (min SIZE 255) I.IntoIter.next_gives iterator (buffer_answer result) }
        ensures encoding { HasEncoding result }
    {
        let mut buffer = Buffer::empty();
        let len = encode_inlined(arcs, &mut buffer.bytes, Self::capacity())?;
        buffer.used = len as u8;
        Ok(buffer)
    }

    /// The octets copied, which fit.
    // erase: const
    #[inline(always)]
    pub(crate) fn copied(octets: &[u8]) -> Self
        requires { length octets.now ≤ min SIZE 255 }
        ensures { buffer_octets result ≡ octets.now }
    {
        let mut buffer = Buffer::empty();
        // erase: another body
        copy_to(octets, &mut buffer.bytes);
        buffer.used = octets.len() as u8;
        buffer
    }

    /// The first `len` octets in use.
    #[inline(always)]
    pub(crate) fn truncated(&self, len: usize) -> Self
        requires { len ≤ length (buffer_octets self.now) }
        ensures { buffer_octets result ≡ take len (buffer_octets self.now) }
    {
        // Zeros are stored in the copy itself: a second copy would wait for that store.
        let mut buffer = *self;
        zero_range(&mut buffer.bytes, len, self.used as usize);
        buffer.used = len as u8;
        buffer
    }

    /// These octets and the subidentifier of a number, or `Length` if it does not fit.
    // erase: const
    #[inline(always)]
    pub(crate) fn pushed(self, number: u64) -> Result<Self>
        requires { number < 2 ^ 35 }
        ensures { let long = length (buffer_octets self.entry) + width number in MatchResult result
            (λ longer. (long ≤ min SIZE 255) × GoesOn number (buffer_octets self.entry) (buffer_octets longer))
            (λ fault. (fault ≡ Error.Length) × (min SIZE 255 < long)) }
    {
        let mut buffer = self;
        let used = buffer.used as usize;
        buffer.used = match append_group(&mut buffer.bytes, used, number, Self::capacity()) {
            Ok(len) => len as u8,
            Err(fault) => return Err(fault),
        };
        Ok(buffer)
    }

    /// The octets in use.
    // erase: const
    pub fn as_bytes(&self) -> &[u8]
        ensures { result.now ≡ buffer_octets self.now }
    {
        // The lesser of both is `used`. So the compiler sees that it is in range, and makes no panic.
        let used = self.used as usize;
        self.bytes.split_at(if used < SIZE { used } else { SIZE }).0
    }

    /// How many octets are in use.
    pub const fn len(&self) -> usize
        ensures value { result ≡ length (buffer_octets self.now) }
        ensures fits { result ≤ min SIZE 255 }
    {
        self.used as usize
    }

    /// Whether the octets in use are equal: the last one first, in which most entries of a table differ.
    // erase: const
    #[inline(always)]
    pub(crate) fn eq_last_first(&self, other: &Self) -> bool
        ensures { IsTrue result ↔ (buffer_octets self.now ≡ buffer_octets other.now) }
    {
        let len = other.used as usize;
        // A branch by the length would be mispredicted for many.
        if len > 0 && self.bytes[len - 1] != other.bytes[len - 1] {
            return false;
        }
        self.eq(other)
    }

    /// Whether the octets in use are equal.
    // Whole arrays are compared, since zeros follow in both.
    // erase: const
    #[inline(always)]
    pub fn eq(&self, rhs: &Self) -> bool
        ensures value { result ≡ pointwise nat_eq (buffer_octets self.now) (buffer_octets rhs.now) }
        ensures meaning { IsTrue result ↔ (buffer_octets self.now ≡ buffer_octets rhs.now) }
    {
        self.used == rhs.used && are_arrays_equal(&self.bytes, &rhs.bytes)
    }
}

/// Sets the octets from `start` to `end` to zero. Those from `end` on must be zero: zeros may be stored there again.
#[inline(always)]
fn zero_range(octets: &mut [u8], start: usize, end: usize)
    requires order { start ≤ end }
    requires within { end ≤ length octets.old }
    requires zeros { drop end octets.old ≡ replicate (length octets.old - end) 0 }
    ensures { octets.new ≡ take start octets.old ++ replicate (length octets.old - start) 0 }
{
    // This always holds, but rustc does not know it: without the test it would make a panic.
    if start <= octets.len() {
        let (_, rest) = octets.split_at_mut(start);
        // Eight octets, a literal, take one store. Any other number takes a call of `memset`.
        if end - start <= 8 && rest.len() >= 8 {
            rest[..8].fill(0);
        } else {
            rest.fill(0);
        }
    }
}

impl<const SIZE: usize> PartialEq for Buffer<SIZE> {
    ghost use Rattle.const_oid.specs.Buffer.{buffer_octets};

    ghost eq = { λ a b. pointwise nat_eq (buffer_octets a) (buffer_octets b) };

    ghost laws = { on_per buffer_octets (partial_equiv_from_equiv nat_list_eq_equiv) };

    // erase: another body
    fn eq(&self, other: &Self) -> bool
        ensures value { result ≡ pointwise nat_eq (buffer_octets self.now) (buffer_octets other.now) }
        ensures meaning { IsTrue result ↔ (buffer_octets self.now ≡ buffer_octets other.now) }
    {
        Self::eq(self, other)
    }
}

impl<const SIZE: usize> Eq for Buffer<SIZE> {
    ghost use Rattle.const_oid.specs.Buffer.{buffer_octets};

    ghost laws = { on_equiv buffer_octets nat_list_eq_equiv };
}

impl<const SIZE: usize> PartialOrd for Buffer<SIZE> {
    ghost use Rattle.const_oid.specs.Buffer.{buffer_octets};
    ghost use Rattle.const_oid.specs.Orders.{shortlex_cmp, shortlex_cmp_po};

    ghost partial_cmp = { λ a b. Some (shortlex_cmp (buffer_octets a) (buffer_octets b)) };

    ghost laws = { on_po buffer_octets shortlex_cmp_po };

    fn partial_cmp(&self, other: &Self) -> Option<Ordering> {
        Some(self.cmp(other))
    }
}

impl<const SIZE: usize> Ord for Buffer<SIZE> {
    ghost use Rattle.const_oid.specs.Buffer.{buffer_octets};
    ghost use Rattle.const_oid.specs.Orders.{shortlex_cmp, shortlex_cmp_total, shortlex_cmp_ties};

    ghost cmp = { λ a b. shortlex_cmp (buffer_octets a) (buffer_octets b) };

    ghost total = { on_total buffer_octets shortlex_cmp_total };

    ghost matches_partial_cmp = { λ a b. refl };

    ghost matches_eq = { λ a b. shortlex_cmp_ties (buffer_octets a) (buffer_octets b) };

    #[tactic(auto, using(crate::proofs::ByWords::arrays_cmp))]
    fn cmp(&self, other: &Self) -> Ordering
        ensures { result ≡ shortlex_cmp (buffer_octets self.now) (buffer_octets other.now) }
    {
        match self.len().cmp(&other.len()) {
            Ordering::Equal => order(&self.bytes, &other.bytes),
            unequal => unequal,
        }
    }
}

impl<const SIZE: usize> Hash for Buffer<SIZE> {
    ghost use Rattle.std.specs.Hash as fed;
    ghost use Rattle.std.specs.Cmp.Rules.{hashing};
    ghost use Rattle.std.proofs.Common.{rules};
    ghost use Rattle.const_oid.specs.Buffer.{buffer_octets};

    ghost hash_input = { λ a. fed.slice fed.u8 (buffer_octets a) };

    ghost respects_eq = { Prim.search (hashing, rules) };

    fn hash<H: Hasher>(&self, state: &mut H) {
        self.as_bytes().hash(state);
    }
}

// erase: omit
#[cfg(test)]
mod tests;

/// Copies octets to the start of `out`, as `fast::copies::copy_to` does. The cargo crate alone calls it, for less code.
// erase: const
#[inline(always)]
pub(crate) fn copy_by_octet(octets: &[u8], out: &mut [u8])
    requires { length octets.now ≤ length out.old }
    ensures { out.new ≡ written_over octets.now out.old }
{
    let mut index = 0;
    while index < octets.len() && index < out.len() {
        out[index] = octets[index];
        index += 1;
    }
}
