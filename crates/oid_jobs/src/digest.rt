//! A digest of results.

use const_oid::{Error, Oid};

#[derive(Drop)]
pub struct Digest {
    value: u64,
}

impl Digest {
    pub fn new() -> Self {
        Digest { value: 0 }
    }

    pub fn value(&self) -> u64 {
        self.value
    }

    pub fn add(&mut self, number: u64) {
        self.value = (self.value.rotate_left(23) ^ number).wrapping_mul(0x9E37_79B9_7F4A_7C15);
    }

    pub fn add_bytes(&mut self, bytes: &[u8]) {
        self.add(bytes.len() as u64);
        for part in bytes.chunks(8) {
            let mut number = 0;
            match part.first_chunk::<8>() {
                Some(word) => number = u64::from_le_bytes(*word),
                None => {
                    for byte in part {
                        number = number << 8 | *byte as u64;
                    }
                }
            }
            self.add(number);
        }
    }

    pub fn add_error(&mut self, error: Error) {
        self.add(match error {
            Error::ArcInvalid { arc } => 1 << 32 | arc as u64,
            Error::ArcTooBig => 2 << 32,
            Error::Base128 => 3 << 32,
            Error::DigitExpected { actual } => 4 << 32 | actual as u64,
            Error::Empty => 5 << 32,
            Error::Length => 6 << 32,
            Error::Overflow => 7 << 32,
            Error::RepeatedDot => 8 << 32,
            Error::TrailingDot => 9 << 32,
        });
    }

    pub fn add_oid(&mut self, answer: &Result<Oid, Error>) {
        match answer {
            Ok(oid) => self.add_bytes(oid.as_bytes()),
            Err(error) => self.add_error(*error),
        }
    }
}
