//! The texts of codes.
ghost use Rattle.std.specs.Prelude.{◌≡◌, length, Ok};
ghost use Rattle.const_oid.specs.Error.{message_of};
ghost use Rattle.const_oid_c.specs.Status.{output_status, output_after};
ghost use Rattle.const_oid_c.specs.Results.{text_of_code};

use crate::output::write_bytes;
use crate::status::{
    ARC_INVALID, ARC_TOO_BIG, BASE128, DIGIT_EXPECTED, EMPTY, LENGTH, NO_ELEMENT, NONE, NOT_UTF8,
    OUTPUT_TOO_SHORT, OVERFLOW, REPEATED_DOT, Status, TRAILING_DOT, UNSORTED, code_status,
    len_status, too_short_status,
};
use const_oid::Error;

/// Writes the text of a code and its detail. No zero byte follows it.
#[unsafe(no_mangle)]
pub extern "C" fn const_oid_error_text(code: u32, detail: u32, out: &mut [u8]) -> Status
    ensures status { result ≡ output_status (length out.old) (text_of_code code detail) }
    ensures written { out.new ≡ output_after out.old (text_of_code code detail) }
{
    match code {
        ARC_INVALID => write_error(Error::ArcInvalid { arc: detail }, out),
        ARC_TOO_BIG => write_error(Error::ArcTooBig, out),
        BASE128 => write_error(Error::Base128, out),
        DIGIT_EXPECTED if detail < 256 => write_error(
            Error::DigitExpected {
                actual: detail as u8,
            },
            out,
        ),
        EMPTY => write_error(Error::Empty, out),
        LENGTH => write_error(Error::Length, out),
        OVERFLOW => write_error(Error::Overflow, out),
        REPEATED_DOT => write_error(Error::RepeatedDot, out),
        TRAILING_DOT => write_error(Error::TrailingDot, out),
        OUTPUT_TOO_SHORT => write_bytes(b"the output is too short for the result", out),
        NOT_UTF8 => write_bytes(b"the text is not UTF-8", out),
        NONE => write_bytes(b"there is no such arc, parent, item or text", out),
        UNSORTED => write_bytes(b"the list is not sorted", out),
        NO_ELEMENT => write_bytes(b"the bytes do not begin with an OID in DER", out),
        _ => code_status(NONE),
    }
}

/// Writes the text of an error.
#[inline(always)]
fn write_error(error: Error, out: &mut [u8]) -> Status
    ensures status { result ≡ output_status (length out.old) (Ok (message_of error)) }
    ensures written { out.new ≡ output_after out.old (Ok (message_of error)) }
{
    match error.encode_text(out) {
        Some(len) => len_status(len),
        None => too_short_status(error.text_len()),
    }
}
