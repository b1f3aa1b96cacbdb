//! The output of `run` in memory, and its errors if a reader or a writer fails.
ghost use Rattle.std.specs.Prelude.{◌≡◌, ◌≤◌, ◌++◌, length, OnOk};
ghost use Rattle.oid_tool.specs.Results.{answers};
ghost use Rattle.oid_tool.specs.Names.{known_names};

use super::devices::{Failure, NONE, OneByteReader, SlowWriter, kind_of};
use super::*;
use std::alloc::Global;
use std::test::Fail;

/// [`run`] over a slice and a vector, whose bytes are known.
fn run_over_memory(input: &[u8], output: &mut Vec<u8>) -> Result<(), ToolError>
    ensures within { OnOk result (length input.now ≤ MAX_INPUT) }
    ensures written { OnOk result
        (output.new.items ≡ output.old.items ++ answers known_names input.now) }
{
    let mut rest = input;
    run(&mut rest, output)
}

const BASE128: &str = "error: OID contains arc with invalid base 128 encoding\n";

const TOO_BIG: &str = "error: OID contains arc which is larger than 32-bits\n";

/// Inputs and their outputs.
const ROWS: [(&str, &str); 68] = [
    ("", ""),
    ("\n", "error: unknown command\n"),
    ("TEXT 2A\n", "error: unknown command\n"),
    ("text 00\nhex 1.2", "0.0\n2a\n"),
    ("text 77\n", "2.39\n"),
    ("text 2A8648CE3D0201\n", "1.2.840.10045.2.1\n"),
    ("text 2a8648ce3d0201\n", "1.2.840.10045.2.1\n"),
    ("text 0992268993F22C640101\n", "0.9.2342.19200300.100.1.1\n"),
    ("text 2A8FFFFFFF7F\n", "1.2.4294967295\n"),
    ("text 2A8\n", "error: not hex\n"),
    ("text 2G\n", "error: not hex\n"),
    ("text 2A\r\n", "error: not hex\n"),
    ("text\n", "error: OID value is empty\n"),
    ("text 2A8001\n", BASE128),
    ("text 2A808080808000\n", BASE128),
    ("text 2A9080808000\n", TOO_BIG),
    // Octets and texts whose second arc is past 39, and their neighbours.
    ("text 78\n", "2.40\n"),
    ("text 7F\n", "2.47\n"),
    ("text 8100\n", "2.48\n"),
    ("text 813403\n", "2.100.3\n"),
    ("text 8837\n", "2.999\n"),
    ("text 883703\n", "2.999.3\n"),
    ("text 8FFFFFFF7F\n", "2.4294967215\n"),
    ("text 908080804F\n", "2.4294967295\n"),
    ("text 9080808050\n", TOO_BIG),
    ("text 9080808080\n", BASE128),
    ("text 90808080D0\n", TOO_BIG),
    ("text 80\n", BASE128),
    ("text 8001\n", BASE128),
    ("text FF\n", BASE128),
    ("hex 2.40\n", "78\n"),
    ("hex 2.999\n", "8837\n"),
    ("hex 2.4294967295\n", "908080804f\n"),
    ("hex 2.4294967296\n", TOO_BIG),
    ("hex 0.40\n", "error: OID contains out-of-range arc: 40\n"),
    ("hex 1.40\n", "error: OID contains out-of-range arc: 40\n"),
    ("hex 3.1\n", "error: OID contains out-of-range arc: 3\n"),
    ("parent 2.999.3\n", "2.999\n"),
    ("parent 2.999\n", "none\n"),
    ("name 2.999\n", "2.999\n"),
    ("hex 1.2.840.113549.1.1.1\n", "2a864886f70d010101\n"),
    (
        "hex 1.2..3.4\n",
        "error: repeated consecutive '..' characters in OID\n",
    ),
    ("hex 1.2.\n", "error: OID ends with invalid trailing '.'\n"),
    ("hex 1.2.X\n", "error: expected digit, got 'X'\n"),
    ("hex  1.2\n", "error: expected digit, got ' '\n"),
    ("hex é1\n", "error: expected digit, got 'Ã'\n"),
    (
        "hex 1.2.1.1.1.1.1.1.1.1.1.1.1.1.1.1.1.1.1.1.1.1.1.1.1.1.1.1.1.1.1.1.1.1.1.1.1.1.1.1.1\n",
        "error: OID length invalid\n",
    ),
    // Bytes that a terminal or C would take for something else.
    ("hex 1.2\0\n", "error: expected digit, got '\0'\n"),
    ("hex 1.2\t\n", "error: expected digit, got '\t'\n"),
    ("hex 1.2\r\n", "error: expected digit, got '\r'\n"),
    ("hex 1.2\u{7F}\n", "error: expected digit, got '\u{7F}'\n"),
    ("\0\n", "error: unknown command\n"),
    ("text 2A\0\n", "error: not hex\n"),
    ("parent \0\n", "error: expected digit, got '\0'\n"),
    ("name 2.5.4.3\0\n", "error: expected digit, got '\0'\n"),
    ("parent 1.2.3.4\n", "1.2.3\n"),
    ("parent 1.2.128\n", "1.2\n"),
    ("parent 1.2.4294967295\n", "1.2\n"),
    ("parent 1.2.16384.0\n", "1.2.16384\n"),
    ("parent 1.2\n", "none\n"),
    ("parent 1\n", "error: OID value is empty\n"),
    ("parent 1.2.3\nhex 1.2", "1.2\n2a\n"),
    ("name 2.5.4.3\n", "cn\n"),
    ("name 2.05.4.3\n", "cn\n"),
    ("name 2.5.4.6\n", "c\n"),
    ("name 1.2.840.113549.1.1.1\n", "rsaEncryption\n"),
    ("name 1.02.3\n", "1.02.3\n"),
    ("name cn\n", "error: expected digit, got 'c'\n"),
];

/// Whether an input has this output.
fn answers_by(alloc: Global, input: &[u8], wanted: &[u8]) -> bool {
    let mut output = Vec::new(alloc);
    let result = run_over_memory(input, &mut output);
    result == Ok(()) && output.as_slice() == wanted
}

#[test]
fn answers_each_row(rt: HostRuntime) {
    for (input, wanted) in &ROWS {
        let is = answers_by(rt.alloc(), input.as_bytes(), wanted.as_bytes());
        assert!(rt; is, "{input:?}");
    }
}

/// A text that is not UTF-8 is rejected before it is parsed.
#[test]
fn rejects_bytes_that_are_not_utf8(rt: HostRuntime) {
    for input in [
        b"hex \xFF\n".as_slice(),
        b"parent 3.\xFF\n".as_slice(),
        b"name cn\xFF\n".as_slice(),
        b"hex 1.2\x80\n".as_slice(),
    ] {
        let is = answers_by(rt.alloc(), input, b"error: not UTF-8\n");
        assert!(rt; is, "{input:?}");
    }
}

/// Whether an input is too long and nothing is written.
fn is_too_long(alloc: Global, input: &[u8]) -> bool {
    let mut output = Vec::new(alloc);
    let result = run_over_memory(input, &mut output);
    result == Err(ToolError::TooLong) && output.is_empty()
}

/// Commands whose text is padded with zeros and ends in `3`, and their results.
const PADDED: [(&str, &str); 5] = [
    ("hex 1.2.", "2a03\n"),
    ("hex 2.999.", "883703\n"),
    ("parent 1.2.", "1.2\n"),
    ("parent 2.999.", "2.999\n"),
    ("name 2.5.4.", "cn\n"),
];

/// A text of `len` bytes: a prefix, zeros, `3` and a newline.
fn padded(alloc: Global, prefix: &str, len: usize) -> Result<String, Fail> {
    let zeros = "0".repeat(alloc, len.saturating_sub(prefix.len()).saturating_sub(2))?;
    Ok(format!(in alloc; "{prefix}{zeros}3\n")?)
}

/// Whether a prefix that is padded to the longest input has this result. One more byte is too long.
fn answers_padded(alloc: Global, prefix: &str, wanted: &str) -> Result<bool, Fail> {
    let most = padded(alloc, prefix, 4096)?;
    let more = padded(alloc, prefix, 4097)?;
    Ok(
        most.len() == 4096
            && answers_by(alloc, most.as_bytes(), wanted.as_bytes())
            && is_too_long(alloc, more.as_bytes()),
    )
}

#[test]
fn answers_the_longest_input_and_rejects_one_byte_more(rt: HostRuntime) -> Result<(), Fail> {
    for (prefix, wanted) in &PADDED {
        assert!(rt; answers_padded(rt.alloc(), prefix, wanted)?, "{prefix}");
    }
    // The result of a text without a name is that text, however long it is.
    let text = padded(rt.alloc(), "1.2.", 4091)?;
    assert!(rt; answers_padded(rt.alloc(), "name 1.2.", text.as_str())?);
    Ok(())
}

#[test]
fn answers_as_many_lines_as_fit(rt: HostRuntime) -> Result<(), Fail> {
    let wanted = "error: unknown command\n".repeat(rt.alloc(), MAX_INPUT)?;
    assert!(rt; wanted.len() == 94_208);
    assert!(rt; answers_by(rt.alloc(), &[b'\n'; MAX_INPUT], wanted.as_bytes()));
    assert!(rt; is_too_long(rt.alloc(), &[b'\n'; 4097]));
    Ok(())
}

/// First subidentifiers as hexadecimal digits, their arcs, and the number of subidentifiers 7F that follow
/// them in the longest input.
const LONGEST: [(&str, &str, usize); 3] = [
    ("77", "2.39", 2044),
    ("8837", "2.999", 2043),
    ("908080804F", "2.4294967295", 2040),
];

/// Whether a first subidentifier and `count` subidentifiers 7F are the longest input and print these arcs.
fn prints_longest(alloc: Global, first: &str, arcs: &str, count: usize) -> Result<bool, Fail> {
    let sevens = "7F".repeat(alloc, count)?;
    let later = ".127".repeat(alloc, count)?;
    let input = format!(in alloc; "text {first}{sevens}\n")?;
    let wanted = format!(in alloc; "{arcs}{later}\n")?;
    Ok(input.len() == MAX_INPUT && answers_by(alloc, input.as_bytes(), wanted.as_bytes()))
}

/// The longest lines that are written. The first row has 8,180 bytes and a newline.
#[test]
fn prints_the_longest_line(rt: HostRuntime) -> Result<(), Fail> {
    for (first, arcs, count) in &LONGEST {
        assert!(rt; prints_longest(rt.alloc(), first, arcs, *count)?, "{first}");
    }
    Ok(())
}

/// Whether a read fails, is the last one, and nothing is written.
fn read_fails(alloc: Global, failure: Failure) -> bool {
    let mut input = OneByteReader::new(b"parent 1.2.3\n", b"", failure);
    let mut output = SlowWriter::new(alloc, 64, NONE);
    run(&mut input, &mut output) == Err(ToolError::Read)
        && input.reads == failure.0
        && output.writes == 0
        && output.flushes == 0
}

/// Each of 14 reads fails with each kind of error, `Interrupted` among them, and 14 are enough.
#[test]
fn reports_each_failed_read(rt: HostRuntime) {
    for number in -4..123 {
        for at in 1..15 {
            let kind = kind_of(number);
            assert!(rt; read_fails(rt.alloc(), (at, kind)), "read {at}, {kind:?}");
        }
    }
    let mut input = OneByteReader::new(b"parent 1.2.3\n", b"", NONE);
    let mut output = SlowWriter::new(rt.alloc(), 64, NONE);
    assert!(rt; run(&mut input, &mut output) == Ok(()));
    assert!(rt; input.reads == 14 && output.written.as_slice() == b"1.2\n".as_slice());
}

#[test]
fn stops_reading_an_endless_input(rt: HostRuntime) {
    let mut input = OneByteReader::new(b"\n", b"\n", NONE);
    let mut output = SlowWriter::new(rt.alloc(), 64, NONE);
    assert!(rt; run(&mut input, &mut output) == Err(ToolError::TooLong));
    assert!(rt; input.reads == 4097 && output.writes == 0);
}

/// Three lines and their results, which take nine writes of at most three bytes.
const THREE: (&[u8], &[u8]) = (
    b"text 2A03\ntext 2G\ntext 8837",
    b"1.2.3\nerror: not hex\n2.999\n",
);

/// Whether a write fails and is the last one, after a prefix of the output but not all of it.
fn write_fails(alloc: Global, failure: Failure) -> bool {
    let mut rest = THREE.0;
    let mut output = SlowWriter::new(alloc, 3, failure);
    run(&mut rest, &mut output) == Err(ToolError::Write)
        && output.writes == failure.0
        && output.flushes == 0
        && THREE.1.starts_with(&output.written)
        && output.written.len() < THREE.1.len()
}

/// Each of nine writes fails with each kind of error, and nine and no flush are enough.
#[test]
fn reports_each_failed_write(rt: HostRuntime) {
    for number in -4..123 {
        for at in 1..10 {
            let kind = kind_of(number);
            assert!(rt; write_fails(rt.alloc(), (at, kind)), "write {at}, {kind:?}");
        }
    }
    let mut rest = THREE.0;
    let mut output = SlowWriter::new(rt.alloc(), 3, NONE);
    assert!(rt; run(&mut rest, &mut output) == Ok(()));
    assert!(rt; output.writes == 9 && output.flushes == 0 && output.written.as_slice() == THREE.1);
}

#[test]
fn reports_a_write_that_takes_no_byte(rt: HostRuntime) {
    let mut input = b"text 2A".as_slice();
    let mut output = SlowWriter::new(rt.alloc(), 0, NONE);
    assert!(rt; run(&mut input, &mut output) == Err(ToolError::Write) && output.writes == 1);
}

#[test]
fn prints_each_error(rt: HostRuntime) -> Result<(), Fail> {
    for (error, text) in [
        (ToolError::Read, "read failed"),
        (ToolError::Write, "write failed"),
        (ToolError::TooLong, "input too long"),
    ] {
        let printed = format!(in rt.alloc(); "{error}")?;
        assert!(rt; printed.as_str() == text, "{text}");
    }
    Ok(())
}
