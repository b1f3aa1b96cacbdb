//! A log prints identifiers.

use crate::digest::Digest;
use crate::fail::Fail;
use crate::inputs::{Bytes, input_of};
use crate::random::Random;
use const_oid::{ObjectIdentifierRef, Oid};
use std::fmt;
use std::fmt::Write;

/// How many identifiers are printed in a turn, of which one in eight is long.
const PRINTED: u64 = 100_000;

/// A line of the log.
#[derive(Drop)]
struct Line {
    bytes: [u8; 256],
    len: usize,
}

impl fmt::Write for Line {
    fn write_str(&mut self, text: &str) -> fmt::Result {
        let rest = self.bytes.get_mut(self.len..).ok_or(fmt::Error)?;
        let place = rest.get_mut(..text.len()).ok_or(fmt::Error)?;
        place.copy_from_slice(text.as_bytes());
        self.len = self.len.wrapping_add(text.len());
        Ok(())
    }
}

pub fn run(random: &mut Random, turns: u32, digest: &mut Digest) -> Result<(), Fail> {
    let key = random.next();
    let mut octets = Bytes::new();
    for turn in 0..turns as u64 {
        for number in 0..PRINTED {
            let number = turn.wrapping_mul(PRINTED).wrapping_add(number);
            if number % 8 == 0 {
                octets.put_long_octets(random);
            } else {
                octets.put_octets(input_of(number, key));
            }
            print(octets.as_slice(), digest)?;
        }
    }
    Ok(())
}

/// Prints an identifier by each function that does.
fn print(octets: &[u8], digest: &mut Digest) -> Result<(), Fail> {
    let borrowed = ObjectIdentifierRef::from_bytes(octets)?;
    let owned = Oid::try_from_ref(borrowed)?;
    let mut out = [0; 256];
    if let Some(len) = borrowed.encode_text(&mut out) {
        digest.add_bytes(out.get(..len).unwrap_or(&[]));
    }
    // The long ones have too little room.
    let mut place = [0; 64];
    digest.add_bytes(owned.encode_str(&mut place).unwrap_or("").as_bytes());
    let mut line = Line {
        bytes: [0; 256],
        len: 0,
    };
    let written = write!(line, "{owned}");
    digest.add(u64::from(written.is_ok()));
    digest.add_bytes(line.bytes.get(..line.len).unwrap_or(&[]));
    let mut out = [0; 256];
    if let Some(Ok(len)) = ObjectIdentifierRef::text_from_bytes(octets, &mut out) {
        digest.add_bytes(out.get(..len).unwrap_or(&[]));
    }
    Ok(())
}
