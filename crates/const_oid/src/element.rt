//! Elements of object identifiers in DER: tag, length and contents octets (X.690, 8.1, 8.19.1 and 10.1).

ghost use Rattle.std.specs.Prelude.{◌≡◌, ◌≢◌, ◌↔◌, ◌+◌, ◌-◌, ◌<◌, ◌≤◌, ◌^◌, ◌∷◌, ◌++◌, ℕ, List, length, replicate, slice_index, None, IfSome, IsTrue, MatchOption};
ghost use Rattle.const_oid.specs.Private.Octets.{bytes_of};
ghost use Rattle.const_oid.specs.Element.{length_octets, element};
ghost use Rattle.const_oid.specs.Slices.{end_address};
ghost use Rattle.const_oid.specs.Output.{Writes};

/// The tag of an object identifier: class universal, primitive, number 6.
const TAG: u8 = 6;

/// Bit 8 of the first length octet, which is set in the long form, for lengths from 128 on (X.690, 8.1.3 and 10.1).
const LONG_FORM: u8 = 128;

/// The contents octets of the element that octets begin with, and the octets after it. `None` if they begin with none.
#[inline]
pub(crate) fn split_element(der: &[u8]) -> Option<(&[u8], &[u8])>
    ensures octets { MatchOption result ((contents rest : List ℕ) → der.now ≢ element contents ++ rest)
        (λ split. der.now ≡ element split.0.now ++ split.1.now) }
    ensures rest { IfSome result (λ split. end_address split.1 ≡ end_address der.entry) }
    ensures contents { IfSome result (λ split. end_address split.0 ≡ split.1.ref_ptr) }
{
    let [TAG, after @ ..] = der else {
        return None;
    };
    let (len, after) = read_length(after)?;
    // A greater length may be past `usize`.
    if len > after.len() as u64 {
        return None;
    }
    let len = len as usize;
    Some((&after[..len], &after[len..]))
}

/// The length that octets begin with, and the octets after it. `None` if it is not in the definite form, with the
/// fewest octets, and of at most eight after the first.
#[inline]
fn read_length(octets: &[u8]) -> Option<(u64, &[u8])>
    ensures octets { MatchOption result ((len : ℕ) (rest : List ℕ) → len < 2 ^ 64 → octets.now ≢ length_octets len ++ rest)
        (λ read. (read.0 < 2 ^ 64) × (octets.now ≡ length_octets read.0 ++ read.1.now)) }
    ensures rest { IfSome result (λ read. end_address read.1 ≡ end_address octets.entry) }
{
    match octets {
        [first, rest @ ..] if *first < LONG_FORM => Some((*first as u64, rest)),
        [first, rest @ ..] => read_long_length(*first as usize - LONG_FORM as usize, rest),
        _ => None,
    }
}

/// The length in `count` octets, and the octets after it. `None` if fewer would do, if `count` is above eight or if
/// they are not all there.
fn read_long_length(count: usize, octets: &[u8]) -> Option<(u64, &[u8])>
    ensures octets { MatchOption result ((len : ℕ) (rest : List ℕ) → len < 2 ^ 64 → (128 + count) ∷ octets.now ≢ length_octets len ++ rest)
        (λ read. (128 + count) ∷ octets.now ≡ length_octets read.0 ++ read.1.now) }
    ensures rest { IfSome result (λ read. end_address read.1 ≡ end_address octets.entry) }
{
    if count > 8 || count > octets.len() {
        return None;
    }
    let digits = &octets[..count];
    let len = number_of(digits);
    if !is_shortest(len, digits) {
        return None;
    }
    Some((len, &octets[count..]))
}

/// Whether a length in these octets could not be in fewer: it is past the short form, and the first octet is not 0.
#[inline]
fn is_shortest(len: u64, digits: &[u8]) -> bool
    ensures { IsTrue result ↔ ((128 ≤ len) × (slice_index digits.now 0 ≢ 0)) }
{
    match digits {
        [first, ..] => *first > 0 && len >= LONG_FORM as u64,
        [] => false,
    }
}

/// The number of at most eight octets in base 256.
fn number_of(digits: &[u8]) -> u64
    requires { length digits.now ≤ 8 }
    ensures { bytes_of result ≡ replicate (8 - length digits.now) 0 ++ digits.now }
{
    let mut word = [0; 8];
    word[8 - digits.len()..].copy_from_slice(digits);
    u64::from_be_bytes(word)
}

/// How many octets the element of contents octets has.
// erase: const
#[inline]
pub(crate) fn element_len(contents: &[u8]) -> usize
    ensures { result ≡ length (element contents.now) }
{
    2 + subsequent_count(contents.len()) + contents.len()
}

/// Writes the element of contents octets at the start, and returns its length. `None` if it is longer than the output.
#[inline]
pub(crate) fn write_element(contents: &[u8], out: &mut [u8]) -> Option<usize>
    ensures written { Writes (element contents.now) out.old out.new result }
    ensures kept { result ≡ None → out.new ≡ out.old }
{
    let len = contents.len();
    let count = subsequent_count(len);
    let start = 2 + count;
    let end = start + len;
    if end > out.len() {
        return None;
    }
    out[0] = TAG;
    // With the length for the test, rustc keeps checks of indices.
    out[1] = if count > 0 {
        LONG_FORM + count as u8
    } else {
        len as u8
    };
    out[2..start].copy_from_slice(&(len as u64).to_be_bytes()[8 - count..]);
    out[start..end].copy_from_slice(contents);
    Some(end)
}

/// How many of a length's octets follow the first: none below 128.
// erase: const
#[inline]
fn subsequent_count(len: usize) -> usize
    ensures len { length (length_octets len) ≡ 1 + result }
    ensures few { result ≤ 8 }
    ensures short { (result ≡ 0) ↔ (len < 128) }
{
    if len < LONG_FORM as usize {
        return 0;
    }
    8 - (len as u64).leading_zeros() as usize / 8
}
