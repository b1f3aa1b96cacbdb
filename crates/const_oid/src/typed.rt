//! What people type before a name: blanks and a prefix.

ghost use Rattle.std.specs.Prelude.{◌≡◌, ◌≤◌, ◌&&◌, ◌-◌, codes, drop, take, length, get_or, IsTrue};
ghost use Rattle.std.specs.Char.{is_ascii_alphabetic};
ghost use Rattle.const_oid.specs.Typed.{bare, begins_with, begins_with_digit, prefix_of, word_of};

use crate::compare::is_same_name;

/// The text without blanks around it, and then without a prefix.
// erase: const
pub(crate) fn bare(text: &[u8]) -> &[u8]
    ensures { result.now ≡ bare text.now }
{
    let (start, end) = bare_range(text);
    text.split_at(start).1.split_at(end - start).0
}

/// Where the text without blanks around it, and then without a prefix, is in the text: its start and its end.
// erase: const
pub fn bare_range(text: &[u8]) -> (usize, usize)
    ensures bare { take (result.1 - result.0) (drop result.0 text.now) ≡ bare text.now }
    ensures order { result.0 ≤ result.1 }
    ensures within { result.1 ≤ length text.now }
{
    let begun = text.trim_ascii_start();
    let start = text.len() - begun.len();
    let ended = begun.trim_ascii_end();
    (start + prefix_len(ended), start + ended.len())
}

/// Whether a text begins with a digit: then it has no prefix, and no name.
pub(crate) const fn begins_with_digit(text: &[u8]) -> bool
    ensures { result ≡ begins_with_digit text.now }
{
    matches!(text, [b'0'..=b'9', ..])
}

/// How many bytes the prefix of a text has. One that begins with a digit has none.
// erase: const
#[tactic(auto, using(crate::proofs::BareTexts::no_prefix_before_digit))]
fn prefix_len(text: &[u8]) -> usize
    ensures prefix { result ≡ prefix_of text.now }
    ensures within { result ≤ length text.now }
{
    if begins_with_digit(text) {
        0
    } else {
        prefix_len_of_any(text)
    }
}

/// How many bytes the prefix of a text has.
// erase: const
fn prefix_len_of_any(text: &[u8]) -> usize
    ensures prefix { result ≡ prefix_of text.now }
    ensures within { result ≤ length text.now }
{
    let end = word_len(text);
    let (word, rest) = text.split_at(end);
    if begins_with(b".", rest) && (word.is_empty() || is_same_name(word, b"OID")) {
        end + 1
    } else if begins_with(b":oid:", rest) && is_same_name(word, b"urn") {
        end + 5
    } else if is_module(text, rest) {
        end + 2
    } else {
        0
    }
}

/// How many letters, digits and hyphens a text begins with.
// erase: const
fn word_len(text: &[u8]) -> usize
    ensures word { result ≡ length (word_of text.now) }
    ensures within { result ≤ length text.now }
{
    let mut end = 0;
    while end < text.len() && (text[end].is_ascii_alphanumeric() || text[end] == b'-') {
        end += 1;
    }
    end
}

/// Whether a text begins with a letter, and what comes after its first word with two colons.
// erase: const
fn is_module(text: &[u8], rest: &[u8]) -> bool
    ensures value { result ≡ (begins_with (codes "::") rest.now && is_ascii_alphabetic (get_or text.now 0 0)) }
    ensures within { IsTrue result → 2 ≤ length rest.now }
{
    begins_with(b"::", rest) && begins_with_letter(text)
}

/// Whether a text begins with a letter.
// erase: const
fn begins_with_letter(text: &[u8]) -> bool
    ensures { result ≡ is_ascii_alphabetic (get_or text.now 0 0) }
{
    !text.is_empty() && text[0].is_ascii_alphabetic()
}

/// Whether a text begins with these characters, in any case.
// erase: const
fn begins_with(start: &[u8], text: &[u8]) -> bool
    ensures value { result ≡ begins_with start.now text.now }
    ensures within { IsTrue result → length start.now ≤ length text.now }
{
    start.len() <= text.len() && is_same_name(text.split_at(start.len()).0, start)
}
