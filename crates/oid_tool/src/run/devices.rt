//! Readers and writers that fail, for the tests.
use std::alloc::Global;
use std::io;
use std::io::{ErrorKind, Read, Write};

/// The read or write at which a device fails, counted from 1, and the kind of its error.
pub type Failure = (usize, ErrorKind);

/// That of a device that does not fail.
pub const NONE: Failure = (0, ErrorKind::Other);

/// Reads a text byte by byte, and after it another one without an end, unless that is empty. Fails at one read.
#[derive(Drop)]
pub struct OneByteReader<'a> {
    text: &'a [u8],
    again: &'a [u8],
    pub reads: usize,
    failure: Failure,
}

impl<'a> OneByteReader<'a> {
    pub fn new(text: &'a [u8], again: &'a [u8], failure: Failure) -> Self {
        OneByteReader {
            text,
            again,
            reads: 0,
            failure,
        }
    }
}

impl Read for OneByteReader<'_> {
    fn read(&mut self, buf: &mut [u8]) -> io::Result<usize> {
        self.reads = self.reads.saturating_add(1);
        if self.reads == self.failure.0 {
            return Err(io::Error::from(self.failure.1));
        }
        match (self.text, buf.first_mut()) {
            ([byte, rest @ ..], Some(slot)) => {
                *slot = *byte;
                self.text = if rest.is_empty() { self.again } else { rest };
                Ok(1)
            }
            _ => Ok(0),
        }
    }
}

/// Writes a few bytes at a time, and fails at one write.
#[derive(Drop)]
pub struct SlowWriter {
    pub written: Vec<u8>,
    most: usize,
    pub writes: usize,
    pub flushes: usize,
    failure: Failure,
}

impl SlowWriter {
    pub fn new(alloc: Global, most: usize, failure: Failure) -> Self {
        SlowWriter {
            written: Vec::new(alloc),
            most,
            writes: 0,
            flushes: 0,
            failure,
        }
    }
}

impl Write for SlowWriter {
    fn write(&mut self, buf: &[u8]) -> io::Result<usize> {
        self.writes = self.writes.saturating_add(1);
        if self.writes == self.failure.0 {
            return Err(io::Error::from(self.failure.1));
        }
        let count = buf.len().min(self.most);
        self.written.extend_from_slice(&buf[..count])?;
        Ok(count)
    }

    fn flush(&mut self) -> io::Result<()> {
        self.flushes = self.flushes.saturating_add(1);
        Ok(())
    }
}

/// A kind of error by a number: that of the system's error, or one of the four that no such error has. So -4 to 122
/// have all kinds.
pub fn kind_of(number: i32) -> ErrorKind {
    match number {
        -1 => ErrorKind::InvalidData,
        -2 => ErrorKind::WriteZero,
        -3 => ErrorKind::UnexpectedEof,
        -4 => ErrorKind::Other,
        number => io::Error::from_raw_os_error(number).kind(),
    }
}
