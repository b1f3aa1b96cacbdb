//! Errors, compared, copied and printed: `==`, `cmp`, `partial_cmp`, `clone`, Display, `encode_str` and `text_len` of
//! `Error`.

ghost use Rattle.std.specs.Prelude.{◌≡◌, ◌↔◌, IsTrue, IsOk, IfOk, Some};
ghost use Rattle.const_oid.specs.Error.{error_cmp};

use crate::formatter::{count_writes, prints};
use const_oid::Error::{ArcTooBig, Base128, Empty, Length, Overflow, RepeatedDot, TrailingDot};
use const_oid::{Arc, Error};
use std::alloc::{AllocError, Global};
use std::cmp::Ordering;

/// Equal is the same variant, with an equal number.
fn same(a: Error, b: Error) -> bool
    ensures { IsTrue result ↔ (a ≡ b) }
{
    a == b
}

/// The declared order, and then the number.
fn order(a: Error, b: Error) -> Ordering
    ensures { result ≡ error_cmp a b }
{
    a.cmp(&b)
}

fn partial_order(a: Error, b: Error) -> Option<Ordering>
    ensures { result ≡ Some (error_cmp a b) }
{
    a.partial_cmp(&b)
}

fn cloned(error: &Error) -> Result<Error, AllocError>
    ensures succeeds { IsOk result }
    ensures same { IfOk result (λ copy. copy ≡ error.now) }
{
    error.clone()
}

#[test]
fn compares_variants_and_then_numbers(rt: HostRuntime) -> Result<(), AllocError> {
    let error = Error::ArcInvalid { arc: 40 };
    let other = Error::ArcInvalid { arc: 3 };
    assert!(rt; same(error, cloned(&error)?) && !same(error, other));
    assert!(rt; order(error, Error::ArcTooBig) == Ordering::Less);
    assert!(rt; order(error, other) == Ordering::Greater);
    assert!(rt; partial_order(error, other) == Some(Ordering::Greater));
    Ok(())
}

/// Arcs at the edges of decimal digits and of bits.
const ARCS: [Arc; 7] = [3, 40, 10000, 65535, 65536, 1000000000, 4294967295];

/// The other errors, and their texts.
const OTHERS: &[(Error, &str)] = &[
    (ArcTooBig, "OID contains arc which is larger than 32-bits"),
    (Base128, "OID contains arc with invalid base 128 encoding"),
    (Empty, "OID value is empty"),
    (Length, "OID length invalid"),
    (Overflow, "arithmetic calculation overflowed"),
    (RepeatedDot, "repeated consecutive '..' characters in OID"),
    (TrailingDot, "OID ends with invalid trailing '.'"),
];

/// Whether an error prints a text in one write, whatever the options, reports a failed write, and writes the text to a
/// slice.
fn is_text(alloc: Global, error: Error, text: &str) -> Result<bool, AllocError> {
    let mut out = [0; 48];
    Ok(
        error.text_len() == text.len()
            && error.encode_str(&mut out) == Some(text)
            && count_writes(&error, text) == Some(1)
            && prints(alloc, &error, text)?,
    )
}

/// An arc is printed in decimal, and a byte as a character, also past ASCII.
#[test]
fn has_each_text(rt: HostRuntime) -> Result<(), AllocError> {
    for arc in ARCS {
        let text = format!(in rt.alloc(); "OID contains out-of-range arc: {arc}")?;
        let is = is_text(rt.alloc(), Error::ArcInvalid { arc }, &text)?;
        assert!(rt; is, "{text}");
    }
    for actual in 0..=0xFF {
        let text = format!(in rt.alloc(); "expected digit, got '{}'", actual as char)?;
        let is = is_text(rt.alloc(), Error::DigitExpected { actual }, &text)?;
        assert!(rt; is, "{text}");
    }
    for (error, text) in OTHERS {
        assert!(rt; is_text(rt.alloc(), *error, text)?, "{text}");
    }
    Ok(())
}
