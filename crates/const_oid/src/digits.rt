//! Digits and other bytes of a text, written at an index, and read as a `str`.
ghost use Rattle.std.specs.Prelude.{◌≡◌, ◌+◌, ◌<◌, ◌≤◌, [], ◌∷◌, ◌++◌, length, take, drop, decimal, false};
ghost use Rattle.std.specs.Str.{IsUtf8};
ghost use Rattle.const_oid.specs.Private.Text.{arc_text, pair_text, four_text};

use crate::Arc;
use std::str;

/// The most bytes that an arc takes in a text: a dot, and ten digits.
pub(crate) const MAX_ARC_LEN: usize = 11;

/// The most digits of an arc.
pub(crate) const MAX_DIGITS: usize = 10;

/// How many bytes an arc takes in a text: its digits, and a dot before them unless it is the first.
#[inline]
pub(crate) fn arc_len(arc: Arc, is_first: bool) -> usize
    ensures len { result ≡ length (arc_text is_first arc) }
    ensures short { result ≤ MAX_ARC_LEN }
{
    let digits = count_digits(arc);
    if is_first { digits } else { digits + 1 }
}

/// Writes a dot and an arc at an index, and returns the index after them.
#[tactic(auto, using(crate::proofs::Decimals::drop_more))]
#[inline(always)]
pub(crate) fn write_arc(arc: Arc, out: &mut [u8], at: usize) -> usize
    requires { at + length (arc_text false arc) ≤ length out.old }
    ensures end { result ≡ at + length (arc_text false arc) }
    ensures prefix { take result out.new ≡ take at out.old ++ arc_text false arc }
    ensures after { drop result out.new ≡ drop result out.old }
{
    let start = write_byte(b'.', out, at);
    write_digits(arc, out, start)
}

/// How many digits an arc has.
#[tactic(auto, using(crate::proofs::Decimals::decimal_lengths))]
#[inline]
fn count_digits(arc: Arc) -> usize
    ensures len { result ≡ length (decimal arc) }
    ensures short { result ≤ MAX_DIGITS }
{
    if arc < 10 {
        1
    } else if arc < 100 {
        2
    } else if arc < 10_000 {
        if arc < 1_000 { 3 } else { 4 }
    } else if arc < 1_000_000 {
        if arc < 100_000 { 5 } else { 6 }
    } else if arc < 100_000_000 {
        if arc < 10_000_000 { 7 } else { 8 }
    } else if arc < 1_000_000_000 {
        9
    } else {
        10
    }
}

/// Writes the digits of an arc at an index, and returns the index after them. There is no loop and no buffer: each
/// digit is written into its place.
#[tactic(auto, using(crate::proofs::Decimals::many_digits))]
#[inline(always)]
fn write_digits(arc: Arc, out: &mut [u8], at: usize) -> usize
    requires { at + length (decimal arc) ≤ length out.old }
    ensures end { result ≡ at + length (decimal arc) }
    ensures prefix { take result out.new ≡ take at out.old ++ decimal arc }
    ensures after { drop result out.new ≡ drop result out.old }
{
    // One digit is the most frequent number of them.
    if arc < 10 {
        return write_byte(b'0' + arc as u8, out, at);
    }
    if arc < 10_000 {
        return write_up_to_four(arc, out, at);
    }
    let high = arc / 10_000;
    let at = if high < 10_000 {
        write_up_to_four(high, out, at)
    } else {
        let at = write_up_to_four(high / 10_000, out, at);
        write_four(high % 10_000, out, at)
    };
    write_four(arc % 10_000, out, at)
}

/// Writes the digits of a number, of which there are no more than four.
#[tactic(auto, using(crate::proofs::Decimals::few_digits))]
#[inline]
fn write_up_to_four(number: u32, out: &mut [u8], at: usize) -> usize
    requires few { number < 10000 }
    requires room { at + length (decimal number) ≤ length out.old }
    ensures end { result ≡ at + length (decimal number) }
    ensures prefix { take result out.new ≡ take at out.old ++ decimal number }
    ensures after { drop result out.new ≡ drop result out.old }
{
    if number < 10 {
        return write_byte(b'0' + number as u8, out, at);
    }
    if number < 100 {
        return write_two(number, out, at);
    }
    if number < 1_000 {
        let at = write_byte(b'0' + (number / 100) as u8, out, at);
        return write_two(number % 100, out, at);
    }
    write_four(number, out, at)
}

/// Writes four digits, zeros first.
#[tactic(auto, using(crate::proofs::Decimals::drop_more))]
#[inline]
fn write_four(number: u32, out: &mut [u8], at: usize) -> usize
    requires few { number < 10000 }
    requires room { at + 4 ≤ length out.old }
    ensures end { result ≡ at + 4 }
    ensures prefix { take result out.new ≡ take at out.old ++ four_text number }
    ensures after { drop result out.new ≡ drop result out.old }
{
    let at = write_two(number / 100, out, at);
    write_two(number % 100, out, at)
}

/// Writes two digits, a zero first.
#[tactic(auto, using(crate::proofs::Decimals::pairs_put))]
#[inline]
fn write_two(number: u32, out: &mut [u8], at: usize) -> usize
    requires few { number < 100 }
    requires room { at + 2 ≤ length out.old }
    ensures end { result ≡ at + 2 }
    ensures prefix { take result out.new ≡ take at out.old ++ pair_text number }
    ensures after { drop result out.new ≡ drop result out.old }
{
    let pair = 2 * number as usize;
    let (tens, ones) = (PAIRS[pair], PAIRS[pair + 1]);
    let end = at + 2;
    // erase: another body
    let digits = &mut out[at..end];
    digits[0] = tens;
    digits[1] = ones;
    end
}

/// Writes a byte at an index, and returns the index after it.
#[tactic(auto, using(crate::proofs::Decimals::digit_put))]
#[inline(always)]
fn write_byte(byte: u8, out: &mut [u8], at: usize) -> usize
    requires { at < length out.old }
    ensures end { result ≡ at + 1 }
    ensures prefix { take result out.new ≡ take at out.old ++ byte ∷ [] }
    ensures after { drop result out.new ≡ drop result out.old }
{
    // erase: another body
    out[at] = byte;
    at + 1
}

/// Writes bytes at an index, and returns the index after them.
#[tactic(auto, using(crate::proofs::Sets::bytes_put))]
#[inline]
pub(crate) fn write_bytes(bytes: &[u8], out: &mut [u8], at: usize) -> usize
    requires { at + length bytes.now ≤ length out.old }
    ensures end { result ≡ at + length bytes.now }
    ensures prefix { take result out.new ≡ take at out.old ++ bytes.now }
    ensures after { drop result out.new ≡ drop result out.old }
{
    let end = at + bytes.len();
    // This always holds. rustc does not know it, and would make panics.
    if at <= end && end <= out.len() {
        out[at..end].copy_from_slice(bytes);
    }
    end
}

/// Writes the digits of an arc at the end of an array, and returns the index of the first. Slower than [`write_arc`],
/// and less code: the row `all` of SPEED's sizes.
#[inline]
pub(crate) fn write_last_digits(arc: Arc, out: &mut [u8; MAX_DIGITS]) -> usize
    ensures within { result ≤ length out.new }
    ensures digits { drop result out.new ≡ decimal arc }
{
    let mut at = MAX_DIGITS;
    let mut rest = arc;
    while at > 0 {
        at -= 1;
        out[at] = b'0' + (rest % 10) as u8;
        rest /= 10;
        if rest == 0 {
            return at;
        }
    }
    at
}

/// The text of the first bytes, which are UTF-8.
#[inline]
pub(crate) fn utf8(bytes: &[u8], len: usize) -> &str
    requires within { len ≤ length bytes.now }
    requires utf8 { IsUtf8 (take len bytes.now) }
    ensures { result.now ≡ take len bytes.now }
{
    // The lesser one is always `len`. rustc does not know it, and would make a panic.
    let text = &bytes[..len.min(bytes.len())];
    // SAFETY: each call is proved to pass UTF-8, so the bytes are not looked at again.
    unsafe { str::from_utf8_unchecked(text) }
}

/// The two digits of each number below a hundred, one after another.
static PAIRS: [u8; 200] = *b"\
    0001020304050607080910111213141516171819\
    2021222324252627282930313233343536373839\
    4041424344454647484950515253545556575859\
    6061626364656667686970717273747576777879\
    8081828384858687888990919293949596979899";
