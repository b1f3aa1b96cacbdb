//! Identifiers from contents octets: `from_bytes` of both forms, `from_bytes_sized` and `try_from_ref`,
//! `text_from_bytes` and `arcs_from_bytes`.

ghost use Rattle.std.specs.Prelude.{◌≤◌};

use crate::vectors::accepted_rows;
use const_oid::{Error, ObjectIdentifier, ObjectIdentifierRef, Oid, outputs};
use std::alloc::AllocError;

/// Whether a capacity copies octets and reads them, if they fit, or has this error.
fn is_read<const N: usize>(octets: &[u8], error: Option<Error>) -> bool
    requires { N ≤ 300 }
{
    let fits = octets.len() <= N.min(255);
    let error = error.or((!fits).then_some(Error::Length));
    let copied = match ObjectIdentifierRef::from_bytes(octets) {
        Ok(oid) => ObjectIdentifier::<N>::try_from_ref(oid),
        Err(error) => Err(error),
    };
    let made = ObjectIdentifier::<N>::from_bytes_sized(octets);
    made.err() == error && copied == made && made.map_or(true, |oid| oid.as_bytes() == octets)
}

/// Whether both forms return this error, or none, and each capacity.
fn all_answer(octets: &[u8], error: Option<Error>) -> bool {
    ObjectIdentifierRef::from_bytes(octets).err() == error
        && Oid::from_bytes(octets) == Oid::from_bytes_sized(octets)
        && is_read::<0>(octets, error)
        && is_read::<1>(octets, error)
        && is_read::<2>(octets, error)
        && is_read::<3>(octets, error)
        && is_read::<39>(octets, error)
        && is_read::<255>(octets, error)
        && is_read::<256>(octets, error)
        && is_read::<300>(octets, error)
}

/// Octets with room for their text are printed as they are checked, and one byte less is no room. Arcs are read so, too.
#[test]
fn prints_octets_as_it_checks_them(rt: HostRuntime) {
    let mut out = [0; 23];
    let octets = [0x88, 0x37, 0x03];
    assert!(rt; ObjectIdentifierRef::text_from_bytes(&octets, &mut out[..22]) == None);
    assert!(rt; ObjectIdentifierRef::text_from_bytes(&octets, &mut out) == Some(Ok(7)));
    assert!(rt; out.starts_with(b"2.999.3"));
    let fault = ObjectIdentifierRef::text_from_bytes(&octets[..1], &mut out);
    assert!(rt; fault == Some(Err(Error::Base128)));
    let mut arcs = [0; 4];
    assert!(rt; outputs::arcs_from_bytes(&octets, &mut arcs[..3]) == None);
    assert!(rt; outputs::arcs_from_bytes(&octets, &mut arcs) == Some(Ok(3)));
    assert!(rt; arcs == [2, 999, 3, 0]);
}

/// The last octet of a prefix of accepted octets says whether its subidentifier is complete. None begins with 0x80: the
/// first one, the second, and so on.
#[test]
fn reads_prefixes_and_rejects_0x80_before_subidentifiers(
    rt: HostRuntime,
) -> Result<(), AllocError> {
    for (text, octets) in accepted_rows() {
        for len in 0..=octets.len() {
            let (prefix, after) = octets.split_at(len);
            let error = match prefix.last() {
                None => Some(Error::Empty),
                Some(0..0x80) => None,
                Some(_) => Some(Error::Base128),
            };
            assert!(rt; all_answer(prefix, error), "{len} octets of {text}");
            if error != Some(Error::Base128) {
                let longer = [prefix, &[0x80], after].concat(rt.alloc())?;
                let are_faults = all_answer(&longer, Some(Error::Base128));
                assert!(rt; are_faults, "0x80 at {len} of {text}");
            }
        }
    }
    Ok(())
}

/// Whether octets have this error, or none, and a second arc past 39 exactly where the first octet is 120 or more.
fn is_short(octets: &[u8], error: Option<Error>) -> bool {
    let oid = ObjectIdentifierRef::from_bytes(octets);
    let is_wide = oid.is_ok_and(|oid| oid.arc(0) == Some(2) && oid.arc(1) >= Some(40));
    all_answer(octets, error) && is_wide == (oid.is_ok() && octets.first() >= Some(&120))
}

/// Whether a capacity has this result.
fn has<const N: usize>(octets: &[u8], wanted: Option<Error>) -> bool
    requires { N ≤ 2 }
{
    ObjectIdentifier::<N>::from_bytes_sized(octets).err() == wanted
}

/// How many slices of at most two octets have a result, of those whose first octet is one from `from` to `to`. The empty
/// slice counts as one that begins with 0.
fn how_many<const N: usize>(from: u8, to: u8, wanted: Option<Error>) -> usize
    requires { N ≤ 2 }
{
    let mut count = usize::from(from == 0 && has::<N>(&[], wanted));
    for first in from..=to {
        count = count.saturating_add(usize::from(has::<N>(&[first], wanted)));
        for second in 0..=0xFF {
            count = count.saturating_add(usize::from(has::<N>(&[first, second], wanted)));
        }
    }
    count
}

/// The least first octet and the greatest, a result, and how many slices have it at the capacities 2, 1 and 0.
const COUNTS: &[(u8, u8, Option<Error>, [usize; 3])] = &[
    (0, 255, None, [32_768, 128, 0]),
    (0, 255, Some(Error::Empty), [1, 1, 1]),
    (0, 255, Some(Error::Base128), [33_024, 33_024, 33_024]),
    (0, 255, Some(Error::Length), [0, 32_640, 32_768]),
    (0, 119, None, [15_480, 120, 0]),
    (0, 119, Some(Error::Base128), [15_360, 15_360, 15_360]),
    (120, 255, None, [17_288, 8, 0]),
    (120, 255, Some(Error::Base128), [17_664, 17_664, 17_664]),
];

#[test]
fn counts_short_slices(rt: HostRuntime) {
    for (from, to, wanted, counts) in COUNTS {
        let (two, one) = (
            how_many::<2>(*from, *to, *wanted),
            how_many::<1>(*from, *to, *wanted),
        );
        let found = [two, one, how_many::<0>(*from, *to, *wanted)];
        assert!(rt; found == *counts, "{wanted:?} from {from} to {to}");
    }
}

/// Slices of at most two octets: an accepted one does not begin with 0x80, and its last octet is below.
#[test]
fn reads_every_short_slice(rt: HostRuntime) {
    assert!(rt; is_short(&[], Some(Error::Empty)));
    for first in 0..=0xFF {
        let error = (first >= 0x80).then_some(Error::Base128);
        assert!(rt; is_short(&[first], error), "{first}");
        for second in 0..=0xFF {
            let error = (first == 0x80 || second >= 0x80).then_some(Error::Base128);
            assert!(rt; is_short(&[first, second], error), "{first} and {second}");
        }
    }
}
