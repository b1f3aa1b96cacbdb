//! A tree is walked arc by arc.

use crate::digest::Digest;
use crate::inputs::{Bytes, input_of};
use crate::random::Random;
use const_oid::{Arc, ObjectIdentifierRef, Oid};

/// How many identifiers are walked in a turn.
const WALKED: u64 = 100_000;

pub fn run(random: &mut Random, turns: u32, digest: &mut Digest) {
    let key = random.next();
    let mut octets = Bytes::new();
    for turn in 0..turns as u64 {
        for number in 0..WALKED {
            let number = turn.wrapping_mul(WALKED).wrapping_add(number);
            octets.put_octets(input_of(number, key));
            match Oid::from_bytes(octets.as_slice()) {
                Ok(oid) => walk(&oid, (number % (1 << 32)) as Arc, digest),
                Err(error) => digest.add_error(error),
            }
        }
    }
}

/// The arcs of an identifier, its parent, a sibling of it by a number that no other one has, and a child of that.
fn walk(oid: &Oid, number: Arc, digest: &mut Digest) {
    for arc in oid.arcs() {
        digest.add(arc as u64);
    }
    let borrowed = oid.as_oid_ref();
    digest.add(oid.len() as u64);
    for index in [1, 4, 6] {
        digest.add(borrowed.arc(index).unwrap_or(7) as u64);
    }
    add_parent(&borrowed, digest);
    if let Some(parent) = oid.parent() {
        let sibling = parent.push_arc(number);
        digest.add_oid(&sibling);
        if let Ok(sibling) = sibling {
            let above = u64::from(sibling.starts_with(parent));
            let beside = u64::from(sibling.starts_with(*oid));
            digest.add(above * 2 + beside);
            digest.add_oid(&sibling.push_arc(number % 1_000 + 3));
        }
    }
}

/// The parent of the borrowed form.
fn add_parent(oid: &ObjectIdentifierRef<'_>, digest: &mut Digest) {
    if let Some(parent) = oid.parent() {
        digest.add(parent.as_bytes().len() as u64);
        digest.add(u64::from(oid.starts_with(&parent)));
    }
}
