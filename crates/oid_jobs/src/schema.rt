//! A schema or a configuration is loaded: identifiers are read from texts and from arcs.

use crate::digest::Digest;
use crate::inputs::{Bytes, input_of, long_arcs};
use crate::random::Random;
use const_oid::{Arc, Error, ObjectIdentifierRef, Oid};

/// How many identifiers are loaded in a turn. One in sixteen is long. In one text of ten a byte is another one, which makes
/// about six in a hundred wrong.
const LOADED: u64 = 100_000;

pub fn run(random: &mut Random, turns: u32, digest: &mut Digest) {
    let key = random.next();
    let mut text = Bytes::new();
    for turn in 0..turns as u64 {
        for number in 0..LOADED {
            let number = turn.wrapping_mul(LOADED).wrapping_add(number);
            let (arcs, count) = if number % 16 == 0 {
                text.put_long_text(random);
                let mut arcs = [0; 17];
                arcs[..9].copy_from_slice(&long_arcs(random));
                (arcs, 9)
            } else {
                let input = input_of(number, key);
                text.put_text(input);
                input.arcs()
            };
            let spoiled = random.next();
            if spoiled % 10 == 0 {
                let byte = [b'.', b'x', 0xC3, b'9'][(spoiled >> 8) as usize % 4];
                text.spoil((spoiled >> 16) as usize % 24, byte);
            }
            load_text(text.as_slice(), digest);
            load_arcs(arcs.get(..count).unwrap_or(&[]), digest);
        }
    }
}

fn load_text(text: &[u8], digest: &mut Digest) {
    if let Ok(text) = str::from_utf8(text) {
        digest.add_oid(&Oid::new(text));
    }
    digest.add_oid(&Oid::from_ascii(text));
    let mut out = [0; 128];
    add_borrowed(&ObjectIdentifierRef::from_ascii_in(text, &mut out), digest);
}

fn load_arcs(arcs: &[Arc], digest: &mut Digest) {
    let oid = Oid::from_arcs(arcs.iter().copied());
    digest.add_oid(&oid);
    if let Ok(oid) = oid {
        digest.add_oid(&oid.push_arc(arcs.first().copied().unwrap_or(0) % 1_000 + 100));
    }
    let mut out = [0; 128];
    add_borrowed(&ObjectIdentifierRef::from_arcs_in(arcs, &mut out), digest);
}

fn add_borrowed(answer: &Result<ObjectIdentifierRef<'_>, Error>, digest: &mut Digest) {
    match answer {
        Ok(oid) => digest.add_bytes(oid.as_bytes()),
        Err(error) => digest.add_error(*error),
    }
}
