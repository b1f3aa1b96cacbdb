//! Reads the whole input, and then writes the results of its lines.
ghost use Rattle.std.specs.Prelude.{◌≡◌, ◌+◌, ◌≤◌, ◌⊎◌, length, take, IsOk, OnOk, OnErr, IfOk, IfErr, IfSome, Some};
ghost use Rattle.std.specs.Io.KnownBytes.{Appends, Consumes, IsAtEnd};
ghost use Rattle.oid_tool.specs.Results.{answers, output_line};
ghost use Rattle.oid_tool.specs.Names.{known_names, rows_of};
ghost use Rattle.oid_tool.specs.Failures.{AppendsPrefix, ConsumesAtMost, ConsumesNumber};
ghost use Rattle.const_oid.specs.Output.{Writes};

use crate::command::{MAX_INPUT, answer, cut, put};
use const_oid::Oid;
use const_oid::db::Database;
use std::fmt;
use std::io::{Read, Write};

/// Why the tool stopped.
#[derive(Clone, Copy, Debug, PartialEq, Eq)]
pub enum ToolError {
    /// A read failed.
    Read,

    /// A write failed or took no byte, or a result was longer than [`MAX_LINE`].
    Write,

    /// The input has more than [`MAX_INPUT`] bytes.
    TooLong,
}

impl fmt::Display for ToolError {
    ghost use Rattle.oid_tool.specs.ToolError.{reason_of};

    ghost output = { λ error. Some (reason_of error) };

    fn fmt<W: fmt::Write>(&self, f: &mut fmt::Formatter<W>) -> fmt::Result {
        match self {
            ToolError::Read => f.write_str("read failed"),
            ToolError::Write => f.write_str("write failed"),
            ToolError::TooLong => f.write_str("input too long"),
        }
    }
}

/// Reads the input to its end, and then writes the result of each of its lines.
///
/// Each result is complete before it is written. A read or write that failed is not tried again. The
/// function neither flushes the output nor allocates.
pub fn run<R: Read, W: Write>(input: &mut R, output: &mut W) -> Result<(), ToolError>
    ensures ok { OnOk result (IfSome (R.remaining input.old)
        (λ text. Appends (W.contents output.old) (W.contents output.new)
        (answers known_names text))) }
    ensures write { result ≡ Err ToolError.Write → IfSome (R.remaining input.old)
        (λ text. AppendsPrefix (W.contents output.old) (W.contents output.new)
        (answers known_names text)) }
    ensures untouched { (result ≡ Err ToolError.Read) ⊎ (result ≡ Err ToolError.TooLong) → output.new ≡ output.old }
    ensures ended { IsOk result ⊎ (result ≡ Err ToolError.Write) → IsAtEnd (R.remaining input.new) }
    ensures whole { IsOk result ⊎ (result ≡ Err ToolError.Write) → IfSome (R.remaining input.old)
        (λ text. Consumes (R.remaining input.old) (R.remaining input.new) text) }
    ensures within { IsOk result ⊎ (result ≡ Err ToolError.Write) → IfSome (R.remaining input.old)
        (λ text. length text ≤ 4096) }
    ensures too_long { result ≡ Err ToolError.TooLong →
        ConsumesNumber (R.remaining input.old) (R.remaining input.new) 4097 }
    ensures read { result ≡ Err ToolError.Read →
        ConsumesAtMost (R.remaining input.old) (R.remaining input.new) 4096 }
{
    let mut buffer = [0; BUFFER_LEN];
    let len = read_all(input, &mut buffer)?;
    let cn = Oid::new_unwrap("2.5.4.3");
    let country = Oid::new_unwrap("2.5.4.6");
    let rsa_encryption = Oid::new_unwrap("1.2.840.113549.1.1.1");
    let entries = [
        (&cn, "cn"),
        (&country, "c"),
        (&cn, "commonName"),
        (&rsa_encryption, "rsaEncryption"),
    ];
    write_answers(&buffer[..len], Database::new(&entries), output)
}

/// The length of the buffer for the input: one byte more than the longest input.
const BUFFER_LEN: usize = MAX_INPUT + 1;

/// Reads to the end of the input, into the start of the buffer. Returns the number of bytes.
#[tactic(auto, using(crate::proofs::Output::grown))]
fn read_all<R: Read>(input: &mut R, buffer: &mut [u8]) -> Result<usize, ToolError>
    requires { length buffer.old ≡ BUFFER_LEN }
    ensures within { IfOk result (λ len. len ≤ MAX_INPUT) }
    ensures bytes { IfOk result (λ len. Consumes (R.remaining input.old) (R.remaining input.new) (take len buffer.new)) }
    ensures whole { IfOk result (λ len. IfSome (R.remaining input.old) (λ text. text ≡ take len buffer.new)) }
    ensures ended { OnOk result (IsAtEnd (R.remaining input.new)) }
    ensures err { IfErr result (λ e. (e ≡ ToolError.Read) ⊎ (e ≡ ToolError.TooLong)) }
    ensures too_long { result ≡ Err ToolError.TooLong →
        ConsumesNumber (R.remaining input.old) (R.remaining input.new) BUFFER_LEN }
    ensures read { result ≡ Err ToolError.Read →
        ConsumesAtMost (R.remaining input.old) (R.remaining input.new) MAX_INPUT }
{
    let mut len = 0;
    while len < BUFFER_LEN {
        match input.read(&mut buffer[len..]) {
            Ok(0) => return Ok(len),
            Ok(count) => len += count,
            Err(_) => return Err(ToolError::Read),
        }
    }
    Err(ToolError::TooLong)
}

/// The most bytes that a result and its newline may have.
const MAX_LINE: usize = 8192;

/// Writes the result of each line of the text, with a table of names.
fn write_answers<W: Write>(
    text: &[u8],
    table: Database<'_>,
    output: &mut W,
) -> Result<(), ToolError>
    requires { length text.now ≤ MAX_INPUT }
    ensures ok { OnOk result (Appends (W.contents output.old) (W.contents output.new)
        (answers (rows_of table.entry) text.now)) }
    ensures prefix { OnErr result (AppendsPrefix (W.contents output.old) (W.contents output.new)
        (answers (rows_of table.entry) text.now)) }
    ensures err { IfErr result (λ e. e ≡ ToolError.Write) }
{
    let mut line_buffer = [0; MAX_LINE];
    let mut rest = text;
    while !rest.is_empty() {
        let (line, after) = cut(b'\n', rest);
        let Some(len) = put_line(line, table, &mut line_buffer) else {
            return Err(ToolError::Write);
        };
        write_out(&line_buffer[..len], output)?;
        rest = after;
    }
    Ok(())
}

/// Writes the result of a line and a newline at the start of `out`. Returns their length, or `None` if
/// they do not fit.
fn put_line(line: &[u8], table: Database<'_>, out: &mut [u8]) -> Option<usize>
    requires { length line.now ≤ MAX_INPUT }
    ensures { Writes (output_line (rows_of table.entry) line.now) out.old out.new result }
{
    let at = answer(line, table, out)?;
    let len = put(b"\n", &mut out[at..])?;
    Some(at + len)
}

/// Writes all the bytes.
fn write_out<W: Write>(bytes: &[u8], output: &mut W) -> Result<(), ToolError>
    ensures ok { OnOk result (Appends (W.contents output.old) (W.contents output.new) bytes.now) }
    ensures prefix { OnErr result (AppendsPrefix (W.contents output.old) (W.contents output.new) bytes.now) }
    ensures err { IfErr result (λ e. e ≡ ToolError.Write) }
{
    let mut rest = bytes;
    while !rest.is_empty() {
        match output.write(rest) {
            Ok(0) | Err(_) => return Err(ToolError::Write),
            Ok(count) => rest = &rest[count..],
        }
    }
    Ok(())
}

#[cfg(test)]
mod devices;
#[cfg(test)]
mod tests;
