//! The result of one line, which is a command and its argument.
ghost use Rattle.std.specs.Prelude.{◌≡◌, ◌*◌, ◌≤◌, ◌==◌, length, take, position, IfSome, IsErr, MatchOption, Ok};
ghost use Rattle.std.specs.List.{before_first, after_first};
ghost use Rattle.hex.specs.Hex.{decode_of, encode_lower};
ghost use Rattle.const_oid.specs.Error.{message_of};
ghost use Rattle.const_oid.specs.Identifier.{default_capacity};
ghost use Rattle.oid_tool.specs.Results.{answer_line, error_line, text_line, hex_line, parent_line, name_line};
ghost use Rattle.oid_tool.specs.Names.{rows_of};
ghost use Rattle.const_oid.specs.Output.{Writes};

use const_oid::db::Database;
use const_oid::{Error, ObjectIdentifierRef, Oid};
use std::str;

/// The most bytes that the input may have.
pub const MAX_INPUT: usize = 4096;

/// Writes the result of a line at the start of `out`, with a table of names. Returns its length, or
/// `None` if it is longer than `out`.
#[tactic(auto, unfolding(crate::specs::Results::answer_line))]
pub fn answer(line: &[u8], table: Database<'_>, out: &mut [u8]) -> Option<usize>
    requires { length line.now ≤ MAX_INPUT }
    ensures { Writes (answer_line (rows_of table.entry) line.now) out.old out.new result }
{
    let (command, argument) = cut(b' ', line);
    if command == b"text".as_slice() {
        text(argument, out)
    } else if command == b"hex".as_slice() {
        hex(argument, out)
    } else if command == b"parent".as_slice() {
        parent(argument, out)
    } else if command == b"name".as_slice() {
        name(argument, table, out)
    } else {
        put(b"error: unknown command", out)
    }
}

/// `text H`: the dotted text of the octets that the hexadecimal digits H denote.
#[tactic(auto, unfolding(crate::specs::Results::text_line))]
fn text(digits: &[u8], out: &mut [u8]) -> Option<usize>
    requires { length digits.now ≤ MAX_INPUT }
    ensures { Writes (text_line digits.now) out.old out.new result }
{
    let mut octets = [0; MAX_INPUT / 2];
    let Some(count) = decode(digits, &mut octets) else {
        return put(b"error: not hex", out);
    };
    match ObjectIdentifierRef::from_bytes(&octets[..count]) {
        Ok(oid) => oid.encode_text(out),
        Err(fault) => put_error(fault, out),
    }
}

/// `hex T`: the contents octets of the identifier that the text T denotes, as hexadecimal digits.
#[tactic(auto, using(crate::proofs::Lines::lines_read), unfolding(crate::specs::Results::hex_line))]
fn hex(text: &[u8], out: &mut [u8]) -> Option<usize>
    ensures { Writes (hex_line text.now) out.old out.new result }
{
    let Ok(text) = str::from_utf8(text) else {
        return put(b"error: not UTF-8", out);
    };
    match Oid::new(text) {
        Ok(oid) => encode(oid.as_bytes(), out),
        Err(fault) => put_error(fault, out),
    }
}

/// `parent T`: the parent of the identifier that the text T denotes, or `none`.
#[tactic(auto, using(crate::proofs::Lines::lines_read), unfolding(crate::specs::Results::parent_line))]
fn parent(text: &[u8], out: &mut [u8]) -> Option<usize>
    ensures { Writes (parent_line text.now) out.old out.new result }
{
    let Ok(text) = str::from_utf8(text) else {
        return put(b"error: not UTF-8", out);
    };
    match Oid::new(text) {
        Ok(oid) => match oid.parent() {
            Some(parent) => parent.encode_text(out),
            None => put(b"none", out),
        },
        Err(fault) => put_error(fault, out),
    }
}

/// `name T`: the name of the identifier that the text T denotes, or T itself if it has no name.
#[tactic(auto, using(crate::proofs::Lines::lines_read), unfolding(crate::specs::Results::name_line))]
fn name(text: &[u8], table: Database<'_>, out: &mut [u8]) -> Option<usize>
    ensures { Writes (name_line (rows_of table.entry) text.now) out.old out.new result }
{
    let Ok(text) = str::from_utf8(text) else {
        return put(b"error: not UTF-8", out);
    };
    match table.resolve(text) {
        Ok(name) => put(name.as_bytes(), out),
        Err(fault) => put_error(fault, out),
    }
}

/// Writes an error line at the start of `out`. Returns its length, or `None` if it does not fit.
fn put_error(error: Error, out: &mut [u8]) -> Option<usize>
    ensures { Writes (error_line (message_of error)) out.old out.new result }
{
    let at = put(b"error: ", out)?;
    let len = error.encode_text(&mut out[at..])?;
    Some(at + len)
}

/// Writes bytes at the start of `out`. Returns their number, or `None` if they do not fit.
pub fn put(bytes: &[u8], out: &mut [u8]) -> Option<usize>
    ensures { Writes bytes.now out.old out.new result }
{
    let len = bytes.len();
    if len > out.len() {
        return None;
    }
    out[..len].copy_from_slice(bytes);
    Some(len)
}

/// Writes octets as lower-case hexadecimal digits at the start of `out`. Returns the number of digits, or
/// `None` if they do not fit.
fn encode(octets: &[u8], out: &mut [u8]) -> Option<usize>
    requires { length octets.now ≤ default_capacity }
    ensures { Writes (encode_lower octets.now) out.old out.new result }
{
    let count = 2 * octets.len();
    if count > out.len() {
        return None;
    }
    match hex::encode_to_slice(octets, &mut out[..count]) {
        Ok(()) => Some(count),
        Err(_) => unreachable!(),
    }
}

/// Writes the octets that hexadecimal digits denote at the start of `out`. Returns the number of octets, or
/// `None` if the digits denote none.
fn decode(digits: &[u8], out: &mut [u8]) -> Option<usize>
    requires { length digits.now ≤ 2 * length out.old }
    ensures within { IfSome result (λ count. count ≤ length out.new) }
    ensures value { MatchOption result (IsErr (decode_of digits.now)) (λ count. decode_of digits.now ≡ Ok (take count out.new)) }
{
    let count = digits.len() / 2;
    hex::decode_to_slice(digits, &mut out[..count]).ok()?;
    Some(count)
}

/// The part of a text before the first `byte`, or all of it, and the part after that byte.
pub fn cut(byte: u8, text: &[u8]) -> (&[u8], &[u8])
    ensures prefix { result.0.now ≡ before_first (λ b. b == byte) text.now }
    ensures rest { result.1.now ≡ after_first (λ b. b == byte) text.now }
{
    match position(byte, text) {
        Some(end) => (&text[..end], &text[end + 1..]),
        None => (text, &[]),
    }
}

/// Returns the index of the first `byte` of a text, or `None` if the text lacks it.
fn position(byte: u8, text: &[u8]) -> Option<usize>
    ensures { result ≡ position (λ b. b == byte) text.now }
{
    text.iter().position(|b| *b == byte)
}
