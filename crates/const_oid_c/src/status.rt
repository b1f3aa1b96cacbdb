//! What a function returns besides its output, and the version of the library.
ghost use Rattle.std.specs.Prelude.{◌≡◌, ◌+◌, ◌*◌, ◌<◌};
ghost use Rattle.const_oid_c.specs.Status.{error_status, fault_at, code_status, len_status, number_status, too_short_status, flag_status, order_number, order_status};

use const_oid::Error;
use std::cmp::Ordering;

/// The code of success.
pub(crate) const OK: u32 = 0;
/// The code of a first or second arc that is out of range.
pub(crate) const ARC_INVALID: u32 = 1;
/// The code of an arc above `u32::MAX`.
pub(crate) const ARC_TOO_BIG: u32 = 2;
/// The code of a subidentifier that begins with 0x80 or is truncated.
pub(crate) const BASE128: u32 = 3;
/// The code of a byte that is not a digit.
pub(crate) const DIGIT_EXPECTED: u32 = 4;
/// The code of an input that is empty or has only one arc.
pub(crate) const EMPTY: u32 = 5;
/// The code of more than 255 octets, in `const_oid_cmp_owned` alone.
pub(crate) const LENGTH: u32 = 6;
/// The code of an arithmetic overflow. No function returns it.
pub(crate) const OVERFLOW: u32 = 7;
/// The code of a dot after another dot.
pub(crate) const REPEATED_DOT: u32 = 8;
/// The code of a text that ends with a dot.
pub(crate) const TRAILING_DOT: u32 = 9;
/// The code of an output that is too short for the result.
pub(crate) const OUTPUT_TOO_SHORT: u32 = 10;
/// The code of a text that is not UTF-8.
pub(crate) const NOT_UTF8: u32 = 11;
/// The code of an arc, parent, item or text that does not exist.
pub(crate) const NONE: u32 = 12;
/// The code of a list that is not sorted.
pub(crate) const UNSORTED: u32 = 13;
/// The code of bytes that do not begin with an element of DER with tag 6.
pub(crate) const NO_ELEMENT: u32 = 14;

/// The order of an identifier that comes before the other. No order is 0, which an error leaves in `detail`.
const LESS: u32 = 1;
/// The order of equal identifiers.
const EQUAL: u32 = 2;
/// The order of an identifier that comes after the other.
const GREATER: u32 = 3;

/// How a call ended, and two numbers.
#[repr(C)]
#[derive(Clone, Copy)]
pub struct Status {
    /// One of the codes above.
    pub code: u32,
    /// With `OK` the arc, the flag or the order that the function returns. With `ARC_INVALID` the arc, and
    /// with `DIGIT_EXPECTED` the byte. Otherwise 0.
    pub detail: u32,
    /// With `OK` the number of items that were written or counted, or the index that was found. With
    /// `OUTPUT_TOO_SHORT` the number of items of the result. For a wrong item of a list, or component of a text, its
    /// index. With any other code than `OK` from a search in a list, the number of its items. Otherwise 0.
    pub len: usize,
}

/// The status of an error.
pub(crate) fn error_status(error: Error) -> Status
    ensures status { result ≡ error_status error }
    ensures code { 0 < result.code }
{
    let (code, detail) = match error {
        Error::ArcInvalid { arc } => (ARC_INVALID, arc),
        Error::ArcTooBig => (ARC_TOO_BIG, 0),
        Error::Base128 => (BASE128, 0),
        Error::DigitExpected { actual } => (DIGIT_EXPECTED, u32::from(actual)),
        Error::Empty => (EMPTY, 0),
        Error::Length => (LENGTH, 0),
        Error::Overflow => (OVERFLOW, 0),
        Error::RepeatedDot => (REPEATED_DOT, 0),
        Error::TrailingDot => (TRAILING_DOT, 0),
    };
    Status {
        detail,
        ..code_status(code)
    }
}

/// The status of an error of what is at an index.
// erase: extern "C"
#[cold]
#[inline(never)]
pub(crate) fn fault_at(index: usize, fault: Error) -> Status
    ensures status { result ≡ fault_at index fault }
    ensures code { 0 < result.code }
{
    Status {
        len: index,
        ..error_status(fault)
    }
}

/// A status that has a code alone.
pub(crate) fn code_status(code: u32) -> Status
    ensures { result ≡ code_status code }
{
    Status {
        code,
        detail: 0,
        len: 0,
    }
}

/// The output is too short for `len` items.
pub(crate) fn too_short_status(len: usize) -> Status
    ensures { result ≡ too_short_status len }
{
    Status {
        len,
        ..code_status(OUTPUT_TOO_SHORT)
    }
}

/// The function wrote or counted `len` items.
pub(crate) fn len_status(len: usize) -> Status
    ensures { result ≡ len_status len }
{
    Status {
        len,
        ..code_status(OK)
    }
}

/// The result is a number.
pub(crate) fn number_status(detail: u32) -> Status
    ensures { result ≡ number_status detail }
{
    Status {
        detail,
        ..code_status(OK)
    }
}

/// The result is true or false.
pub(crate) fn flag_status(holds: bool) -> Status
    ensures { result ≡ flag_status holds }
{
    number_status(if holds { 1 } else { 0 })
}

/// The result is an order.
pub(crate) fn order_status(ordering: Ordering) -> Status
    ensures { result ≡ order_status ordering }
{
    number_status(match ordering {
        Ordering::Less => LESS,
        Ordering::Equal => EQUAL,
        Ordering::Greater => GREATER,
    })
}

/// An order as a comparator of C returns it: -1, 0 or 1.
pub(crate) fn order_number(ordering: Ordering) -> i32
    ensures { result ≡ order_number ordering }
{
    match ordering {
        Ordering::Less => -1,
        Ordering::Equal => 0,
        Ordering::Greater => 1,
    }
}

/// 65536 times the major number, 256 times the minor one and the patch number, as `CONST_OID_VERSION`.
const VERSION: u32 = (1 << 16) + (8 << 8);

/// The version of the library.
#[unsafe(no_mangle)]
pub extern "C" fn const_oid_version() -> u32
    ensures { result ≡ 65536 * 1 + 256 * 8 }
{
    VERSION
}
