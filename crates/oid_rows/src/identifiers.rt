//! Identifiers from text, from arcs, from contents octets and from elements, and errors.

use anyhow::{Result, ensure};
use const_oid::{Arc, Error, ObjectIdentifier, ObjectIdentifierRef, Oid, outputs};
use std::alloc::Global;
use std::fmt::Write;

pub fn digits(alloc: Global, oid: ObjectIdentifierRef<'_>) -> Result<String> {
    Ok(hex::encode_upper(alloc, oid.as_bytes())?)
}

/// The octets of a text in an output with this room. They are counted so, too, and fit 39 octets as an owned identifier.
pub fn text_in(alloc: Global, room: usize, text: &str) -> Result<String> {
    let text = text.as_bytes();
    let mut out = vec![in alloc; 0; room]?;
    let oid = ObjectIdentifierRef::from_ascii_in(text, &mut out);
    let len = outputs::parse_or_stop(text, &mut [], room);
    let len = len.map_err(|stop| outputs::fault_at_stop(text, stop).0);
    ensure!(len == oid.map(|oid| oid.as_bytes().len()));
    let mut octets = [0; Oid::MAX_SIZE];
    let usual = outputs::from_ascii_in_39(text, &mut octets);
    let usual = usual.map_err(|stop| outputs::fault_at_stop(text, stop).0);
    ensure!(usual.and_then(Oid::try_from_ref) == Oid::from_ascii(text));
    digits(alloc, oid?)
}

pub fn text(alloc: Global, text: &str) -> Result<String> {
    text_in(alloc, text.len(), text)
}

/// The octets of arcs in an output with this room. They are counted so, too.
pub fn arcs_in(alloc: Global, room: usize, arcs: &[Arc]) -> Result<String> {
    let mut out = vec![in alloc; 0; room]?;
    let oid = ObjectIdentifierRef::from_arcs_in(arcs, &mut out);
    let len = outputs::bytes_len_from_arcs(arcs, room);
    ensure!(len == oid.map(|oid| oid.as_bytes().len()));
    digits(alloc, oid?)
}

pub fn arcs(alloc: Global, arcs: &[Arc]) -> Result<String> {
    arcs_in(alloc, arcs.len().saturating_mul(5), arcs)
}

/// How many arcs there are, and the arcs.
fn counted(alloc: Global, arcs: &[Arc]) -> Result<String> {
    let mut text = format!(in alloc; "{} arcs", arcs.len())?;
    for arc in arcs {
        write!(text, " {arc}")?;
    }
    Ok(text)
}

/// The text of octets, and their arcs, of which each makes the octets again.
pub fn octets(alloc: Global, octets: &[u8]) -> Result<String> {
    let oid = ObjectIdentifierRef::from_bytes(octets)?;
    let printed = format!(in alloc; "{oid}")?;
    let list: Vec<Arc> = oid.arcs().collect(alloc)?;
    let again = digits(alloc, oid)?;
    ensure!(text(alloc, &printed)? == again && arcs(alloc, &list)? == again);
    Ok(format!(in alloc; "{printed}, {}", counted(alloc, &list)?)?)
}

/// The arcs of octets from the first of two numbers on, at most as many as the second.
pub fn arcs_from(alloc: Global, octets: &[u8], numbers: &[Arc]) -> Result<String> {
    let oid = ObjectIdentifierRef::from_bytes(octets)?;
    let [first, room] = numbers else {
        return Ok(String::from_str(alloc, "no two numbers")?);
    };
    let arcs = oid.arcs().skip(*first as usize).take(*room as usize);
    let arcs: Vec<Arc> = arcs.collect(alloc)?;
    counted(alloc, &arcs)
}

/// How many bytes the element has that bytes begin with, and its octets, which make it again, or their error. An owned
/// identifier is read so, too.
pub fn element(alloc: Global, der: &[u8]) -> Result<String> {
    let Some((read, rest)) = ObjectIdentifierRef::read_element(der) else {
        return Ok(String::from_str(alloc, "no element")?);
    };
    let owned = read.and_then(ObjectIdentifier::<255>::try_from_ref);
    ensure!(ObjectIdentifier::read_element_sized(der) == Some((owned, rest)));
    let len = der.len().saturating_sub(rest.len());
    match read {
        Ok(oid) => {
            ensure!(oid.element_len() == len);
            let mut out = vec![in alloc; 0; len]?;
            ensure!(oid.write_element(&mut out) == Some(len) && der.starts_with(&out));
            Ok(format!(in alloc; "{len} bytes, {}", digits(alloc, oid)?)?)
        }
        Err(error) => Ok(format!(in alloc; "{len} bytes, error: {error}")?),
    }
}

/// The text of the error that the library for C numbers so, with its arc or byte, or `none`. An error that the library
/// alone has is left to it, as `None`.
pub fn error(alloc: Global, numbers: &[Arc]) -> Result<Option<String>> {
    let error = match *numbers {
        [1, arc] => Error::ArcInvalid { arc },
        [2, _] => Error::ArcTooBig,
        [3, _] => Error::Base128,
        [4, byte @ 0..256] => Error::DigitExpected { actual: byte as u8 },
        [5, _] => Error::Empty,
        [6, _] => Error::Length,
        [7, _] => Error::Overflow,
        [8, _] => Error::RepeatedDot,
        [9, _] => Error::TrailingDot,
        [10..15, _] => return Ok(None),
        _ => return Ok(Some(String::from_str(alloc, "none")?)),
    };
    Ok(Some(format!(in alloc; "{error}")?))
}
