//! Tests of buffers and of their encoder: their functions are private.

use super::*;

/// Octets of two buffers, and the order of the first to the second.
const PAIRS: &[(&[u8], &[u8], Ordering)] = &[
    (&[0x2A, 0x03], &[0x2A, 0x03], Ordering::Equal),
    (&[0x2A, 0x03], &[0x2A, 0x04], Ordering::Less),
    (&[0x2A, 0x03], &[0x2A], Ordering::Greater),
    (&[0x55], &[0x2A, 0x03], Ordering::Less),
];

/// Whether buffers of three octets hold these, and compare so.
fn compare(first: &[u8], second: &[u8], order: Ordering) -> bool {
    if first.len() > 3 || second.len() > 3 {
        return false;
    }
    let buffer = Buffer::<3>::copied(first);
    let other = Buffer::<3>::copied(second);
    buffer.as_bytes() == first
        && buffer.len() == first.len()
        && buffer.eq(&other) == (order == Ordering::Equal)
        && buffer.cmp(&other) == order
}

#[test]
fn buffers(rt: HostRuntime) {
    for (first, second, order) in PAIRS {
        assert!(rt; compare(first, second, *order), "{first:?} {second:?}");
    }
}

/// Arcs, and their octets in seven, or the error.
const ENCODINGS: &[(&[Arc], Result<&[u8]>)] = &[
    (
        &[1, 2, 840, 10045, 2, 1],
        Ok(&[0x2A, 0x86, 0x48, 0xCE, 0x3D, 0x02, 0x01]),
    ),
    (&[1, 2, 840, 10045, 2, 1, 0], Err(Error::Length)),
];

/// Whether arcs have these octets in a buffer of seven, or this error.
fn is_encoded(arcs: &[Arc], wanted: Result<&[u8]>) -> bool {
    match (Buffer::<7>::encoded(arcs.iter().copied()), wanted) {
        (Ok(buffer), Ok(octets)) => buffer.as_bytes() == octets,
        (made, wanted) => made.err() == wanted.err(),
    }
}

#[test]
fn encodings(rt: HostRuntime) {
    for (arcs, wanted) in ENCODINGS {
        assert!(rt; is_encoded(arcs, *wanted), "{arcs:?}");
    }
}
