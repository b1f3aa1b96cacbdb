//! Identifiers as certificates, algorithm tables and MIBs have them: 5 to 16 arcs, 6 to 15 octets; and long ones.
//!
//! They are made in few instructions and without branches, so that a job's time is that of its calls.

use crate::random::Random;
use const_oid::Arc;

/// What identifiers of a group begin with, in each form, and how the four octets and eight digits that follow are cut
/// into arcs.
struct Group {
    octets: [u8; 16],
    octet_count: usize,
    /// What is added to the four octets of six bits: 0xC0 to those that others follow in their arc.
    more: u32,
    text: [u8; 32],
    text_len: usize,
    /// How many of the eight digits the first two arcs have.
    digits: [usize; 2],
    arcs: [Arc; 12],
    arc_count: usize,
}

static GROUPS: [Group; 8] = [
    Group {
        octets: *b"\x55\x04..............",
        octet_count: 2,
        more: 0x00C0_00C0,
        text: *b"2.5.4...........................",
        text_len: 6,
        digits: [2, 3],
        arcs: [2, 5, 4, 0, 0, 0, 0, 0, 0, 0, 0, 0],
        arc_count: 3,
    },
    Group {
        octets: *b"\x55\x1D..............",
        octet_count: 2,
        more: 0x00C0_C000,
        text: *b"2.5.29..........................",
        text_len: 7,
        digits: [2, 2],
        arcs: [2, 5, 29, 0, 0, 0, 0, 0, 0, 0, 0, 0],
        arc_count: 3,
    },
    Group {
        octets: *b"\x2A\x86\x48\x86\xF7\x0D\x01.........",
        octet_count: 7,
        more: 0x00C0_0000,
        text: *b"1.2.840.113549.1................",
        text_len: 17,
        digits: [1, 2],
        arcs: [1, 2, 840, 113549, 1, 0, 0, 0, 0, 0, 0, 0],
        arc_count: 5,
    },
    Group {
        octets: *b"\x60\x86\x48\x01\x65\x03\x04.........",
        octet_count: 7,
        more: 0x00C0_0000,
        text: *b"2.16.840.1.101.3.4..............",
        text_len: 19,
        digits: [2, 1],
        arcs: [2, 16, 840, 1, 101, 3, 4, 0, 0, 0, 0, 0],
        arc_count: 7,
    },
    Group {
        octets: *b"\x2B\x06\x01\x04\x01...........",
        octet_count: 5,
        more: 0x0000_C0C0,
        text: *b"1.3.6.1.4.1.....................",
        text_len: 12,
        digits: [5, 1],
        arcs: [1, 3, 6, 1, 4, 1, 0, 0, 0, 0, 0, 0],
        arc_count: 6,
    },
    Group {
        octets: *b"\x2B\x06\x01\x04\x01...........",
        octet_count: 5,
        more: 0x0000_00C0,
        text: *b"1.3.6.1.4.1.....................",
        text_len: 12,
        digits: [4, 1],
        arcs: [1, 3, 6, 1, 4, 1, 0, 0, 0, 0, 0, 0],
        arc_count: 6,
    },
    Group {
        octets: *b"\x2B\x06\x01\x02\x01\x02\x02\x01........",
        octet_count: 8,
        more: 0x00C0_C000,
        text: *b"1.3.6.1.2.1.2.2.1...............",
        text_len: 18,
        digits: [2, 5],
        arcs: [1, 3, 6, 1, 2, 1, 2, 2, 1, 0, 0, 0],
        arc_count: 9,
    },
    Group {
        octets: *b"\x2B\x06\x01\x02\x01\x04\x18\x04\x01\x01\x0A.....",
        octet_count: 11,
        more: 0,
        text: *b"1.3.6.1.2.1.4.24.4.1.1.10.......",
        text_len: 26,
        digits: [3, 3],
        arcs: [1, 3, 6, 1, 2, 1, 4, 24, 4, 1, 1, 10],
        arc_count: 12,
    },
];

/// An identifier: its group, and 24 bits of its own.
#[derive(Clone, Copy)]
pub struct Input {
    group: usize,
    own: u64,
}

/// The identifier of a number below 2^24, another one for each. A key mixes the numbers.
pub fn input_of(number: u64, key: u64) -> Input {
    let own = number.wrapping_mul(key | 1) % (1 << 24);
    let group = (own.wrapping_mul(0x9E37_79B9_7F4A_7C15) >> 61) as usize;
    Input { group, own }
}

/// Bytes, at most 112.
#[derive(Drop)]
pub struct Bytes {
    bytes: [u8; 112],
    len: usize,
}

impl Bytes {
    pub fn new() -> Self {
        Bytes {
            bytes: [0; 112],
            len: 0,
        }
    }

    pub fn clear(&mut self) {
        self.len = 0;
    }

    pub fn push(&mut self, byte: u8) {
        if let Some(place) = self.bytes.get_mut(self.len) {
            *place = byte;
            self.len += 1;
        }
    }

    pub fn push_all(&mut self, bytes: &[u8]) {
        for byte in bytes {
            self.push(*byte);
        }
    }

    pub fn as_slice(&self) -> &[u8] {
        self.bytes.get(..self.len).unwrap_or(&[])
    }

    /// Puts another byte at an index, counted from the end, if there is one.
    pub fn spoil(&mut self, from_end: usize, byte: u8) {
        if from_end < self.len {
            let index = self.len - 1 - from_end;
            if let Some(place) = self.bytes.get_mut(index) {
                *place = byte;
            }
        }
    }

    /// Puts bytes at an index, and ends after them.
    fn put(&mut self, index: usize, bytes: &[u8]) {
        let end = index.wrapping_add(bytes.len());
        if let Some(place) = self.bytes.get_mut(index..end) {
            place.copy_from_slice(bytes);
            self.len = end;
        }
    }

    fn push_subidentifier(&mut self, arc: Arc) {
        if arc >= 1 << 14 {
            self.push(128 + ((arc >> 14) % 128) as u8);
        }
        if arc >= 1 << 7 {
            self.push(128 + ((arc >> 7) % 128) as u8);
        }
        self.push((arc % 128) as u8);
    }

    /// The contents octets of an identifier.
    pub fn put_octets(&mut self, input: Input) {
        let group = &GROUPS[input.group % 8];
        self.put(0, &group.octets);
        let own = (input.own & 0x3F)
            | (input.own << 2 & 0x3F00)
            | (input.own << 4 & 0x3F_0000)
            | (input.own << 6 & 0x3F00_0000);
        self.put(
            group.octet_count,
            &((own % (1 << 32)) as u32 | group.more).to_le_bytes(),
        );
    }

    /// The dotted text of an identifier. Its own digits are 1 to 8.
    pub fn put_text(&mut self, input: Input) {
        let group = &GROUPS[input.group % 8];
        self.put(0, &group.text);
        let mut digits = [0; 8];
        let mut rest = input.own;
        for digit in digits.iter_mut() {
            *digit = b'1' + (rest % 8) as u8;
            rest /= 8;
        }
        let [first, second] = group.digits;
        let mut index = group.text_len;
        self.put(index, &digits);
        index = index.wrapping_add(first);
        self.put(index, b".");
        index = index.wrapping_add(1);
        self.put(index, digits.get(first..).unwrap_or(&[]));
        index = index.wrapping_add(second);
        self.put(index, b".");
        index = index.wrapping_add(1);
        self.put(
            index,
            digits.get(first.wrapping_add(second)..).unwrap_or(&[]),
        );
    }

    /// The contents octets of nine arcs, of which seven have five octets.
    pub fn put_long_octets(&mut self, random: &mut Random) {
        self.put(0, b"\x2B");
        for _ in 0..7 {
            let bits = random.next();
            self.push(0x84 + (bits >> 61) as u8);
            let low = (bits % (1 << 32)) as u32;
            self.put(self.len, &(low & 0x7F7F_7F7F | 0x0080_8080).to_le_bytes());
        }
    }

    /// The text of nine arcs, of which seven have ten digits.
    pub fn put_long_text(&mut self, random: &mut Random) {
        self.put(0, b"1.3");
        for _ in 0..7 {
            let mut bits = random.next();
            self.put(self.len, b".1");
            for _ in 0..9 {
                self.push(b'0' + (bits % 8) as u8);
                bits /= 8;
            }
        }
    }

    /// The contents octets of a variable of a MIB by its number, below 2^26, or of the object that it belongs to: of the
    /// table of interfaces, of routes or of an enterprise. Numbers that follow one another are those of the columns of a
    /// row, and then of the next.
    pub fn put_variable(&mut self, number: u64, is_object: bool) {
        let row = number / 64;
        let index = (row % (1 << 16)) as Arc;
        let column = (number / 4 % 16) as Arc + 1;
        match number % 4 {
            2 => {
                self.put(0, b"\x2B\x06\x01\x02\x01\x04\x18\x04\x01");
                self.push_subidentifier(column);
                if !is_object {
                    self.push(10);
                    self.push_subidentifier(((row >> 16) % 256) as Arc);
                    self.push_subidentifier(index / 256);
                    self.push_subidentifier(index % 256);
                }
            }
            3 => {
                self.put(0, b"\x2B\x06\x01\x04\x01\x09\x09\x6D\x01\x01\x01\x01");
                self.push_subidentifier(column);
                if !is_object {
                    self.push_subidentifier(index % 16 + 1);
                    self.push_subidentifier(((row >> 4) % (1 << 20)) as Arc + 1);
                }
            }
            kind => {
                self.put(0, b"\x2B\x06\x01\x02\x01\x02\x02\x01");
                self.push_subidentifier((kind % 2) as Arc * 16 + column);
                if !is_object {
                    self.push_subidentifier((row % (1 << 20)) as Arc + 1);
                }
            }
        }
    }
}

impl Input {
    /// The arcs, and how many there are.
    pub fn arcs(&self) -> ([Arc; 17], usize) {
        let group = &GROUPS[self.group % 8];
        let mut arcs = [0; 17];
        arcs[..12].copy_from_slice(&group.arcs);
        let own = [
            (self.own % (1 << 5)) as Arc,
            ((self.own >> 5) % (1 << 8)) as Arc,
            ((self.own >> 13) % (1 << 11)) as Arc,
        ];
        let end = group.arc_count.wrapping_add(3);
        if let Some(place) = arcs.get_mut(group.arc_count..end) {
            place.copy_from_slice(&own);
        }
        (arcs, end)
    }
}

/// Nine arcs, of which seven have ten digits.
pub fn long_arcs(random: &mut Random) -> [Arc; 9] {
    let mut arcs = [1, 3, 0, 0, 0, 0, 0, 0, 0];
    for arc in arcs.iter_mut().skip(2) {
        *arc = (random.next() >> 32) as Arc | (1 << 30);
    }
    arcs
}
