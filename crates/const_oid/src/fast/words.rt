//! Octets as numbers of eight or four octets, the first octet the most significant.

ghost use Rattle.std.specs.Prelude.{◌≡◌, ◌+◌, ◌<◌, ◌≤◌, length, take};
ghost use Rattle.std.specs.Int.{to_be_bytes, w32};
ghost use Rattle.const_oid.specs.Private.Octets.{IsWord, last_of, number_of, with_bits};

/// How many octets a word has.
pub(crate) const WORD_OCTETS: usize = 8;

/// How many octets half a word has.
pub(crate) const HALF_OCTETS: usize = 4;

/// The eight octets from `at` on as a big-endian number: so words have the lexicographic order of their octets.
// erase: const
#[inline(always)]
pub(crate) fn word(octets: &[u8], at: usize) -> u64
    requires { at + WORD_OCTETS ≤ length octets.now }
    ensures { IsWord octets.now at result }
{
    // The compiler knows the length of this slice, so it leaves the test out.
    let (word, _) = octets.split_at(at).1.split_at(WORD_OCTETS);
    match word.first_chunk::<WORD_OCTETS>() {
        Some(word) => u64::from_be_bytes(*word),
        None => unreachable!(),
    }
}

/// The first four octets as a number.
// erase: const
#[inline(always)]
pub(crate) fn half_word(octets: &[u8]) -> u32
    requires { HALF_OCTETS ≤ length octets.now }
    ensures { to_be_bytes w32 result ≡ take HALF_OCTETS octets.now }
{
    match octets.first_chunk::<HALF_OCTETS>() {
        Some(half) => u32::from_be_bytes(*half),
        None => unreachable!(),
    }
}

/// The last eight octets, of fewer the first four and the last four, or all of fewer than four. In each, bits are set.
#[inline(always)]
pub(crate) const fn last_word<const BITS: u8>(octets: &[u8]) -> u64
    ensures { result ≡ number_of (last_of (with_bits BITS octets.now)) }
{
    let bits = u64::from_be_bytes([BITS; 8]);
    if let [.., a, b, c, d, e, f, g, h] = octets {
        return u64::from_be_bytes([*a, *b, *c, *d, *e, *f, *g, *h]) | bits;
    }
    if let ([a, b, c, d, ..], [.., e, f, g, h]) = (octets, octets) {
        return u64::from_be_bytes([*a, *b, *c, *d, *e, *f, *g, *h]) | bits;
    }
    few_octets::<BITS>(octets)
}

/// The number of fewer than four octets.
const fn few_octets<const BITS: u8>(octets: &[u8]) -> u64
    requires { length octets.now < HALF_OCTETS }
    ensures { result ≡ number_of (with_bits BITS octets.now) }
{
    match octets {
        [a, b, c] => u64::from_be_bytes([0, 0, 0, 0, 0, *a | BITS, *b | BITS, *c | BITS]),
        [a, b] => u64::from_be_bytes([0, 0, 0, 0, 0, 0, *a | BITS, *b | BITS]),
        [a] => u64::from_be_bytes([0, 0, 0, 0, 0, 0, 0, *a | BITS]),
        _ => 0,
    }
}
