//! Arcs, one after another, to octets.

ghost use Rattle.std.specs.Prelude.{◌≡◌, ◌≤◌, length, Err, IfErr};
ghost use Rattle.const_oid.specs.Identifier.{root_rule};
ghost use Rattle.const_oid.specs.Items.{item_answer};
ghost use Rattle.const_oid.specs.Output.{WritesEncoding};
ghost use Rattle.std.specs.Iterator.{IsFiniteIterable};
ghost use Rattle.const_oid.specs.Private.Encoder.{EncodesItems};

use crate::Arc;
use crate::base128::append_group;
use crate::error::{Error, Result};
use crate::root::{check_first, join_root};

/// `encode_inlined` of a slice of arcs, but not inlined: it is compiled once for all calls.
#[tactic(auto, using(crate::proofs::TakesItems::list_answer))]
#[inline(never)]
pub(crate) fn encode(arcs: &[Arc], out: &mut [u8], capacity: usize) -> Result<usize>
    ensures { WritesEncoding capacity (item_answer root_rule arcs.now capacity) out.old out.new result }
{
    encode_inlined(arcs.iter().copied(), out, capacity)
}

/// The most arcs that are encoded on the stack.
pub(crate) const ONE_PASS_ARCS: usize = 12;

/// The most octets that they take, five for each.
const ONE_PASS_OCTETS: usize = 5 * ONE_PASS_ARCS;

/// Writes the encoding of at most `ONE_PASS_ARCS` arcs to the start of a slice, if it fits, and returns its length. On
/// an error the slice is unchanged.
// One pass in place of two: the octets are made on the stack.
pub(crate) fn encode_in_one_pass(arcs: &[Arc], out: &mut [u8]) -> Result<usize>
    requires { length arcs.now ≤ ONE_PASS_ARCS }
    ensures written { let capacity = length out.old in WritesEncoding capacity (item_answer root_rule arcs.now capacity) out.old out.new result }
    ensures kept { IfErr result (λ _. out.new ≡ out.old) }
{
    let mut octets = [0; ONE_PASS_OCTETS];
    let len = encode(arcs, &mut octets, out.len().min(ONE_PASS_OCTETS))?;
    out[..len].copy_from_slice(&octets[..len]);
    Ok(len)
}

/// Writes the encoding of an iterator's arcs to the start of a slice, if it fits a capacity, and returns its length.
#[inline(always)]
pub(crate) fn encode_inlined<I: IntoIterator<Item = Arc>>(
    arcs: I,
    out: &mut [u8],
    capacity: usize,
) -> Result<usize>
where
    I::IntoIter: Drop,
    requires { IsFiniteIterable I.into_iter_gives I.IntoIter.can_next I.IntoIter.remaining arcs }
    ensures { (iterator : I.IntoIter) × I.into_iter_gives arcs iterator
        × EncodesItems capacity I.IntoIter.next_gives iterator out.old out.new result }
{
    let mut arcs = arcs.into_iter();
    let Some(first) = arcs.next() else {
        return Err(Error::Empty);
    };
    check_first(first)?;
    let Some(second) = arcs.next() else {
        return Err(Error::Empty);
    };
    let number = join_root(first, second)?;
    let mut used = append_group(out, 0, number, capacity)?;
    for arc in arcs {
        used = append_group(out, used, arc as u64, capacity)?;
    }
    Ok(used)
}
