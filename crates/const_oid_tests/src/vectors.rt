//! Rows that several tests share, and the tests that each is one identifier, without an allocation.

use crate::formatter::prints_as;
use const_oid::{Arc, Arcs, Error, ObjectIdentifierRef, Oid};
use std::test::Fail;

/// An identifier as its text and its contents octets.
pub type Row = (&'static str, &'static [u8]);

/// Identifiers that are accepted. The rows are in a function, so that they are checked once and not with each caller.
pub fn accepted_rows() -> &'static [Row] {
    ACCEPTED
}

const ACCEPTED: &[Row] = &[
    ("0.0", &[0]),
    ("0.39", &[0x27]),
    ("1.0", &[0x28]),
    ("1.2", &[0x2A]),
    ("1.39", &[0x4F]),
    ("2.0", &[0x50]),
    ("2.39", &[0x77]),
    ("1.2.0", &[0x2A, 0]),
    ("1.2.3", &[0x2A, 3]),
    ("1.2.127", &[0x2A, 0x7F]),
    ("1.2.128", &[0x2A, 0x81, 0]),
    ("1.2.16383", &[0x2A, 0xFF, 0x7F]),
    ("1.2.16384", &[0x2A, 0x81, 0x80, 0]),
    ("1.2.2097151", &[0x2A, 0xFF, 0xFF, 0x7F]),
    ("1.2.2097152", &[0x2A, 0x81, 0x80, 0x80, 0]),
    ("1.2.268435455", &[0x2A, 0xFF, 0xFF, 0xFF, 0x7F]),
    ("1.2.268435456", &[0x2A, 0x81, 0x80, 0x80, 0x80, 0]),
    ("1.2.1144201745", &[0x2A, 0x84, 0xA1, 0xCC, 0xC4, 0x11]),
    ("1.2.4294967295", &[0x2A, 0x8F, 0xFF, 0xFF, 0xFF, 0x7F]),
    ("1.23.456", &[0x3F, 0x83, 0x48]),
    ("1.1.1.60817410.1", &[0x29, 1, 0x9D, 0x80, 0x80, 2, 1]),
    (
        "0.9.2342.19200300.100.1.1",
        &[9, 0x92, 0x26, 0x89, 0x93, 0xF2, 0x2C, 0x64, 1, 1],
    ),
    ("1.2.840.10045.2.1", &[0x2A, 0x86, 0x48, 0xCE, 0x3D, 2, 1]),
    (
        "2.16.840.1.101.3.4.1.42",
        &[0x60, 0x86, 0x48, 1, 0x65, 3, 4, 1, 0x2A],
    ),
    (
        "1.2.840.113549.1.1.1",
        &[0x2A, 0x86, 0x48, 0x86, 0xF7, 0x0D, 1, 1, 1],
    ),
    ("2.5.4.3", &[0x55, 4, 3]),
    ("2.5.4.6", &[0x55, 4, 6]),
    ("0.1.2.3.4.5.6.7.8.9", &[1, 2, 3, 4, 5, 6, 7, 8, 9]),
    // Second arcs above 39 under 2: first subidentifiers of one to five octets.
    ("2.40", &[0x78]),
    ("2.999", &[0x88, 0x37]),
    ("2.999.3", &[0x88, 0x37, 3]),
    ("2.16304.127", &[0x81, 0x80, 0, 0x7F]),
    ("2.2097072.128", &[0x81, 0x80, 0x80, 0, 0x81, 0]),
    (
        "2.4294967295.4294967295",
        &[0x90, 0x80, 0x80, 0x80, 0x4F, 0x8F, 0xFF, 0xFF, 0xFF, 0x7F],
    ),
];

/// The borrowed identifier of octets, or a failure that names them.
pub fn read_borrowed(octets: &[u8]) -> Result<ObjectIdentifierRef<'_>, Fail> {
    let read = ObjectIdentifierRef::from_bytes(octets);
    read.map_err(|error| Fail::new(format_args!("{octets:?}: {error}")))
}

/// The identifier of a text, or a failure that names it.
pub fn parse(text: &str) -> Result<Oid, Fail> {
    Oid::new(text).map_err(|error| Fail::new(format_args!("{text}: {error}")))
}

/// Whether arcs are the numbers of a text.
fn are_arcs_of(arcs: Arcs<'_>, text: &str) -> bool {
    let numbers = text.split('.').map(|number| number.parse::<Arc>().ok());
    arcs.map(Some).eq(numbers)
}

/// Whether an identifier of either form has the octets, the arcs and the text of a row.
macro_rules! is_row {
    ($oid:expr, $text:expr, $octets:expr) => {
        $oid.as_bytes() == $octets
            && are_arcs_of($oid.arcs(), $text)
            && $oid.len() == $text.split('.').count()
            && $oid.arcs().enumerate().all(|(index, arc)| $oid.arc(index) == Some(arc))
            && $oid.arc($oid.len()).is_none()
            && $oid.arc(usize::MAX).is_none()
            && prints_as(&$oid, $text)
    };
}

/// Whether the text and the octets of a row are one owned identifier.
fn is_owned(text: &str, octets: &[u8]) -> Result<bool, Error> {
    let oid = Oid::from_bytes(octets)?;
    Ok(is_row!(oid, text, octets) && oid == Oid::new(text)? && oid == text.parse()?)
}

#[test]
fn owned_ones_have_the_rows(rt: HostRuntime) {
    for (text, octets) in accepted_rows() {
        assert!(rt; is_owned(text, octets) == Ok(true), "{text}");
    }
}

#[test]
fn borrowed_ones_have_the_rows(rt: HostRuntime) -> Result<(), Error> {
    for (text, octets) in accepted_rows() {
        let oid = ObjectIdentifierRef::from_bytes(octets)?;
        assert!(rt; is_row!(oid, text, *octets), "{text}");
    }
    Ok(())
}
