//! Identifiers of both forms, printed under options and to a target that fails: Display and Debug. Their texts in slices:
//! `encode_text`, `encode_str` and `text_len`, and `encode_str` of errors.

ghost use Rattle.std.specs.Prelude.{◌≤◌};

use crate::formatter::{DebugTexts, count_writes, prints, prints_as};
use crate::vectors::{accepted_rows, read_borrowed};
use const_oid::{Error, ObjectIdentifier, Oid};
use std::alloc::{AllocError, Global};
use std::fmt::{Debug, Display};
use std::test::Fail;

/// Whether a value prints as this text, its Debug texts have this name, and each failed write is reported, of Debug up
/// to 300 bytes. A text of at most 160 bytes takes one write, and is printed under each option. One past 171 takes
/// more.
fn prints_both<T: Copy + Debug + Display + Drop>(
    alloc: Global,
    value: T,
    name: &str,
    text: &str,
) -> Result<bool, AllocError> {
    let debug = format!(in alloc; "{name}({text})|{name}({text})|{name}({text})")?;
    let debug = debug.as_str();
    let is_counted = match (count_writes(&value, text), text.len()) {
        (Some(1), len) => len <= 171,
        (Some(_), len) => len > 160,
        (None, _) => false,
    };
    let debug_prints = match text.len() {
        ..=300 => count_writes(&DebugTexts(value), debug).is_some(),
        _ => prints_as(&DebugTexts(value), debug),
    };
    Ok(is_counted && debug_prints && (text.len() > 160 || prints(alloc, &value, text)?))
}

/// Whether both forms of octets print as this text. There is no owned one of more than 255.
fn both_print(alloc: Global, octets: &[u8], text: &str) -> Result<bool, Fail> {
    let borrowed = read_borrowed(octets)?;
    let owned_prints = match ObjectIdentifier::<300>::try_from_ref(borrowed) {
        Ok(owned) => prints_both(alloc, owned, "ObjectIdentifier", text)?,
        Err(_) => octets.len() > 255,
    };
    Ok(owned_prints && prints_both(alloc, borrowed, "ObjectIdentifierRef", text)?)
}

#[test]
fn prints_each_row(rt: HostRuntime) -> Result<(), Fail> {
    for (text, octets) in accepted_rows() {
        assert!(rt; both_print(rt.alloc(), octets, text)?, "{text}");
    }
    let usual = Oid::new("1.2.3")?;
    assert!(rt; prints_both(rt.alloc(), usual, "ObjectIdentifier", "1.2.3")?);
    Ok(())
}

/// Whether `count` equal octets print as the text of the first one and then a text for each later one.
fn equal_octets_print(
    alloc: Global,
    octet: u8,
    first: &str,
    later: &str,
    count: usize,
) -> Result<bool, Fail> {
    let octets = vec![in alloc; octet; count]?;
    let text = format!(in alloc; "{first}{}", later.repeat(alloc, count.saturating_sub(1))?)?;
    both_print(alloc, octets.as_slice(), text.as_str())
}

/// Each number of octets up to 520, and some that are past any buffer of a fixed size.
#[test]
fn prints_each_length(rt: HostRuntime) -> Result<(), Fail> {
    for count in (1..=520).chain([2046, 10_000]) {
        let first = equal_octets_print(rt.alloc(), 0x7F, "2.47", ".127", count)?;
        let other = equal_octets_print(rt.alloc(), 0x01, "0.1", ".1", count)?;
        assert!(rt; first && other, "{count}");
    }
    Ok(())
}

/// Whether an output, which held nothing but 0xEE, begins with these bytes and goes on as before.
fn is_alone(out: &[u8], bytes: &[u8]) -> bool {
    out.starts_with(bytes) && out.iter().skip(bytes.len()).all(|byte| *byte == 0xEE)
}

/// Whether an output of `len` bytes begins with what a call writes, whose length it returns, and goes on as before.
/// Without room for that it is as before.
macro_rules! writes {
    ($len:expr, $bytes:expr, |$out:ident| $written:expr) => {{
        let (mut room, fits) = ([0xEE; 20], $bytes.len() <= $len);
        let $out = &mut room[..$len];
        $written == fits.then_some($bytes.len()) && is_alone(&room[..$len], if fits { $bytes } else { &[] })
    }};
}

/// Whether `len` bytes have the text of both forms, their element, and the text of an error, if there is room for it.
fn are_written(len: usize) -> bool
    requires { len ≤ 20 }
{
    let oid = Oid::new_unwrap("1.2.3");
    let lent = oid.as_oid_ref();
    writes!(len, b"1.2.3", |out| oid.encode_str(out).map(str::len))
        && writes!(len, b"1.2.3", |out| lent.encode_str(out).map(str::len))
        && writes!(len, &[6, 2, 0x2A, 3], |out| oid.write_element(out))
        && writes!(len, &[6, 2, 0x2A, 3], |out| lent.write_element(out))
        && writes!(
            len,
            b"OID length invalid",
            |out| Error::Length.encode_str(out).map(str::len)
        )
}

/// Clauses say so of `encode_text`.
#[test]
fn outputs_begin_with_the_text_or_are_as_they_were(rt: HostRuntime) {
    for len in 0..=20 {
        assert!(rt; are_written(len), "{len}");
    }
}

/// What is returned is proved, and here it runs.
#[test]
fn returns_the_length_of_a_text(rt: HostRuntime) {
    let oid = Oid::new_unwrap("1.2.3");
    assert!(rt; oid.text_len() == 5 && oid.as_oid_ref().text_len() == 5);
    assert!(rt; oid.encode_text(&mut [0; 5]) == Some(5));
    assert!(rt; oid.as_oid_ref().encode_text(&mut [0; 5]) == Some(5));
    assert!(rt; Error::Length.encode_text(&mut [0; 18]) == Some(18));
}
