//! The errors of this crate.
ghost use Rattle.std.specs.Prelude.{◌≡◌, ◌+◌, ◌<◌, ◌≤◌, ◌++◌, length, take, drop, None, Some, IfSome, IsSome};
ghost use Rattle.std.specs.Str.{IsUtf8};
ghost use Rattle.const_oid.specs.Error.{message_of, max_message};
ghost use Rattle.const_oid.specs.Output.{Returns, Writes};
ghost use Rattle.const_oid.specs.Private.Text.{detail_text};

use crate::Arc;
use crate::digits::{MAX_DIGITS, arc_len, utf8, write_bytes, write_last_digits};
use std::fmt;

/// A result whose error is [`Error`].
pub type Result<T> = std::result::Result<T, Error>;

/// Why text, a list of arcs or octets were rejected.
///
/// # Examples
///
/// ```
/// use const_oid::{Error, ObjectIdentifier};
///
/// let error = ObjectIdentifier::new("1..2").unwrap_err();
/// assert_eq!(error, Error::RepeatedDot);
/// assert_eq!(error.to_string(), "repeated consecutive '..' characters in OID");
///
/// let mut out = [0; 47];
/// assert_eq!(error.encode_text(&mut out), Some(error.text_len()));
/// assert_eq!(error.encode_str(&mut out), Some("repeated consecutive '..' characters in OID"));
/// ```
#[derive(Copy, Clone, Debug, Eq, PartialEq, PartialOrd, Ord, Hash)]
pub enum Error {
    /// The first or the second arc of a text or a list is out of range (X.660).
    ArcInvalid {
        /// The arc.
        arc: Arc,
    },

    /// An arc is greater than 4294967295.
    ArcTooBig,

    /// A subidentifier begins with 0x80, which is superfluous, or the octets end within it (X.690, 8.19.2).
    Base128,

    /// A byte is not a digit, but one is expected.
    DigitExpected {
        /// The byte. Of a character that is not ASCII, it is the first byte in UTF-8. In the error's text it stands as
        /// the character with that number, even a control character: `error.to_string().escape_debug()` has none.
        actual: u8,
    },

    /// The input is empty, or has only one arc.
    Empty,

    /// The encoding is longer than the capacity.
    Length,

    /// Never returned.
    Overflow,

    /// A dot follows another.
    RepeatedDot,

    /// The text ends with a dot.
    TrailingDot,
}

/// The most bytes of an error's text.
const MAX_TEXT_LEN: usize = 47;

impl Error {
    /// The length in bytes of the text that `{}` writes. [`Error`] has an example.
    #[tactic(auto, using(crate::proofs::Printed::parts_long))]
    #[inline]
    pub fn text_len(self) -> usize
        ensures len { result ≡ length (message_of self) }
        ensures short { result ≤ max_message }
    {
        let (before, after) = self.words();
        before.len() + self.detail_len() + after.len()
    }

    /// Writes the text that `{}` writes to the start of `out`, and returns its length in bytes. Returns `None` if it is
    /// longer than `out`, which is then unchanged. 47 bytes are always enough. [`Error`] has an example.
    #[inline(always)]
    pub fn encode_text(self, out: &mut [u8]) -> Option<usize>
        ensures written { Writes (message_of self) out.old out.new result }
        ensures kept { result ≡ None → out.new ≡ out.old }
        ensures enough { max_message ≤ length out.old → IsSome result }
        ensures utf8 { IfSome result (λ _. IsUtf8 (message_of self)) }
    {
        if out.len() < self.text_len() {
            return None;
        }
        let (before, after) = self.words();
        let at = write_bytes(before.as_bytes(), out, 0);
        let at = self.write_detail(out, at);
        Some(write_bytes(after.as_bytes(), out, at))
    }

    /// Writes the text as [`encode_text`](Self::encode_text) does, and borrows it as a `str`.
    #[tactic(auto, using(crate::proofs::Sets::bytes_put))]
    #[inline]
    pub fn encode_str<'o>(self, out: &'o mut [u8]) -> Option<&'o str>
        ensures cases { Returns (message_of self) out.old result }
        ensures enough { max_message ≤ length out.old → IsSome result }
    {
        let len = self.encode_text(out)?;
        Some(utf8(out, len))
    }

    /// The words before the number that the error carries, and those after it.
    #[inline]
    pub(crate) const fn words(self) -> (&'static str, &'static str)
        ensures { message_of self ≡ result.0.now ++ (detail_text self ++ result.1.now) }
    {
        match self {
            Error::ArcInvalid { .. } => ("OID contains out-of-range arc: ", ""),
            Error::ArcTooBig => ("OID contains arc which is larger than 32-bits", ""),
            Error::Base128 => ("OID contains arc with invalid base 128 encoding", ""),
            Error::DigitExpected { .. } => ("expected digit, got '", "'"),
            Error::Empty => ("OID value is empty", ""),
            Error::Length => ("OID length invalid", ""),
            Error::Overflow => ("arithmetic calculation overflowed", ""),
            Error::RepeatedDot => ("repeated consecutive '..' characters in OID", ""),
            Error::TrailingDot => ("OID ends with invalid trailing '.'", ""),
        }
    }

    /// How many bytes the number that the error carries takes in the text.
    #[inline]
    fn detail_len(self) -> usize
        ensures len { result ≡ length (detail_text self) }
        ensures short { length (message_of self) ≤ MAX_TEXT_LEN }
    {
        match self {
            Error::ArcInvalid { arc } => arc_len(arc, true),
            Error::DigitExpected { actual } => char::from(actual).len_utf8(),
            _ => 0,
        }
    }

    /// Writes the number that the error carries at an index, and returns the index after it.
    #[tactic(auto, using(crate::proofs::Sets::digits_utf8))]
    #[inline(always)]
    fn write_detail(self, out: &mut [u8], at: usize) -> usize
        requires { at + length (detail_text self) ≤ length out.old }
        ensures end { result ≡ at + length (detail_text self) }
        ensures prefix { take result out.new ≡ take at out.old ++ detail_text self }
        ensures after { drop result out.new ≡ drop result out.old }
        ensures utf8 { IsUtf8 (detail_text self) }
    {
        match self {
            Error::ArcInvalid { arc } => {
                let mut digits = [0; MAX_DIGITS];
                let start = write_last_digits(arc, &mut digits);
                write_bytes(&digits[start..], out, at)
            }
            Error::DigitExpected { actual } => {
                let mut bytes = [0; 4];
                let character = char::from(actual).encode_utf8(&mut bytes);
                write_bytes(character.as_bytes(), out, at)
            }
            _ => at,
        }
    }
}

/// The error in words, whatever the options.
impl fmt::Display for Error {
    ghost output = { λ error. Some (message_of error) };

    ghost styled_output = { λ error _. Some (message_of error) };

    fn fmt<W: fmt::Write>(&self, f: &mut fmt::Formatter<W>) -> fmt::Result {
        let mut out = [0; MAX_TEXT_LEN];
        match self.encode_str(&mut out) {
            Some(text) => f.write_str(text),
            // Not reached. So the compiler makes no panic here.
            None => Err(fmt::Error),
        }
    }
}

impl std::error::Error for Error {}
