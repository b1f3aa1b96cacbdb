//! Links between the entries of a table, so that a lookup reads only those of one slot, by a hash of what it looks for.
//!
//! There is a link for each entry, to the next one of its slot, and then one for each slot, to its first entry. If
//! there is none, the link is the number of entries. In a table without links, a lookup reads all entries.

ghost use Rattle.std.specs.Prelude.{◌≡◌, ◌+◌, ◌-◌, ◌^◌, ◌<◌, ◌≤◌, length, replicate, slice_index};
ghost use Rattle.const_oid.specs.Private.Links.{AreLinks, hash_of, hash_step, key_of, slot_of};
ghost use Rattle.const_oid.specs.Private.Octets.{with_bits};

use crate::compare::CASE;
use crate::fast::words::{WORD_OCTETS, last_word};
use crate::oid::Oid;

/// An identifier and its name.
pub(crate) type Entry<'a> = (&'a Oid, &'a str);

/// What is looked for in an entry: its identifier, or its name.
#[derive(Copy, Clone)]
pub(crate) enum Key {
    Oid,
    Name,
}

/// A hash of bytes: of words of eight bytes while more follow, and of the last word. In all bytes these bits are set.
// erase: const
pub(crate) fn hash<const BITS: u8>(bytes: &[u8]) -> u64
    ensures { result ≡ hash_of (with_bits BITS bytes.now) }
{
    let bits = u64::from_be_bytes([BITS; 8]);
    let mut hash = bytes.len() as u64;
    let mut left = bytes;
    while let [a, b, c, d, e, f, g, h, _, ..] = left {
        let word = u64::from_be_bytes([*a, *b, *c, *d, *e, *f, *g, *h]);
        hash = hash_with(hash, word | bits);
        left = left.split_at(WORD_OCTETS).1;
    }
    hash_with(hash, last_word::<BITS>(bytes))
}

/// A hash and a word more.
#[inline(always)]
const fn hash_with(hash: u64, word: u64) -> u64
    ensures { result ≡ hash_step hash word }
{
    (hash.rotate_left(23) ^ word).wrapping_mul(0x9E37_79B9_7F4A_7C15)
}

/// The slot of bytes among slots, by the high bits of their hash, on which all bits of the bytes bear.
// erase: const
#[inline(always)]
fn slot_of<const BITS: u8>(bytes: &[u8], slots: usize) -> usize
    requires { 0 < slots }
    ensures slot { result ≡ slot_of slots (with_bits BITS bytes.now) }
    ensures within { result < slots }
{
    (slots as u128 * hash::<BITS>(bytes) as u128 >> 64) as usize
}

/// The slot of an entry by a key: the octets of its identifier, or its name, ignoring ASCII case.
// erase: const
fn slot_of_entry(entry: &Entry<'_>, key: Key, slots: usize) -> usize
    requires { 0 < slots }
    ensures slot { result ≡ slot_of slots (key_of key entry.now) }
    ensures within { result < slots }
{
    match key {
        Key::Oid => slot_of::<0>(entry.0.as_bytes(), slots),
        Key::Name => slot_of::<CASE>(entry.1.as_bytes(), slots),
    }
}

/// Writes the links of entries by a key, where each link is the number of entries.
// erase: const
fn write_links(entries: &[Entry<'_>], key: Key, links: &mut [u16])
    requires fits { (length entries.now < 2 ^ 16) × (length entries.now < length links.old) }
    requires unlinked { links.old ≡ replicate (length links.old) (length entries.now) }
    ensures { AreLinks (key_of key) entries.now links.new }
{
    let count = entries.len();
    let slots = links.len() - count;
    let mut index = count;
    while index > 0 {
        index -= 1;
        let slot = count + slot_of_entry(&entries[index], key, slots);
        links[index] = links[slot];
        links[slot] = index as u16;
    }
}

/// The links of entries by a key. Only a test of the cargo crate calls this, for both tables of names.
// erase: const
pub(crate) fn links_of<const SIZE: usize>(entries: &[Entry<'_>], key: Key) -> [u16; SIZE]
    requires { (length entries.now < 2 ^ 16) × (length entries.now < SIZE) }
    ensures { AreLinks (key_of key) entries.now result }
{
    let mut links = [entries.len() as u16; SIZE];
    write_links(entries, key, &mut links);
    links
}

/// Whether a slot with this first entry has at most `most` entries.
fn has_at_most(links: &[u16], count: usize, first: usize, most: usize) -> bool {
    let mut index = first;
    for _ in 0..most {
        if index >= count {
            return true;
        }
        index = next_candidate(links, count, index);
    }
    index >= count
}

/// Whether no slot has more than a quarter of the entries and two. Else a scan is faster, since a processor waits for
/// each link before it reads the next one. No clause says so: it decides only what lookups cost.
fn is_spread(links: &[u16], count: usize) -> bool {
    let mut firsts = links.iter().skip(count);
    firsts.all(|first| has_at_most(links, count, *first as usize, count / 4 + 2))
}

/// Writes links of entries by a key to `memory`, and returns them. Returns `links` if `memory` is no longer than
/// `links` or `entries`, if there are over 65,535 entries, or if the new links are not spread over the slots.
pub(crate) fn links_in<'a>(
    entries: &[Entry<'_>],
    key: Key,
    links: &'a [u16],
    memory: &'a mut [u16],
) -> &'a [u16]
    requires { AreLinks (key_of key) entries.now links.now }
    ensures links { AreLinks (key_of key) entries.now result.now }
    ensures kept { length links.now ≤ length result.now }
    ensures limit { 2 ^ 16 ≤ length entries.now → result.now ≡ links.now }
{
    let count = entries.len();
    if memory.len() <= count.max(links.len()) || count > u16::MAX as usize {
        return links;
    }
    memory.fill(count as u16);
    write_links(entries, key, memory);
    if is_spread(memory, count) {
        memory
    } else {
        links
    }
}

/// The index of the first entry of the slot of these bytes, or the number of entries if there is none.
// erase: const
pub(crate) fn first_linked<const BITS: u8>(links: &[u16], count: usize, bytes: &[u8]) -> usize
    requires { count < length links.now }
    ensures { result ≡ slice_index links.now (count + slot_of (length links.now - count) (with_bits BITS bytes.now)) }
{
    links[count + slot_of::<BITS>(bytes, links.len() - count)] as usize
}

/// The index of the first entry whose key may be these bytes, or the number of entries: the first of their slot, or
/// without links the first of all.
// erase: const
pub(crate) fn first_candidate<const BITS: u8>(links: &[u16], count: usize, bytes: &[u8]) -> usize
    ensures linked { count < length links.now → result ≡ slice_index links.now (count + slot_of (length links.now - count) (with_bits BITS bytes.now)) }
    ensures scanned { length links.now ≤ count → result ≡ 0 }
{
    if count < links.len() {
        first_linked::<BITS>(links, count, bytes)
    } else {
        0
    }
}

/// The index of the next such entry after one, or the number of entries: the next of its slot, or without links of all.
pub(crate) const fn next_candidate(links: &[u16], count: usize, index: usize) -> usize
    requires { index < count }
    ensures linked { count < length links.now → result ≡ slice_index links.now index }
    ensures scanned { length links.now ≤ count → result ≡ index + 1 }
{
    if count < links.len() {
        links[index] as usize
    } else {
        index + 1
    }
}
