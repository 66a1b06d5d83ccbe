//! A digest of octets that are written.

use std::fmt;

/// An odd number with many bits.
const FACTOR: u64 = 0x9E37_79B9_7F4A_7C15;

/// A digest of all octets that were written, however they were divided.
#[derive(Drop)]
pub struct Digest {
    state: u64,
    /// The octets that no whole word has yet, the first one lowest.
    word: u64,
    /// How many octets were written.
    count: u64,
}

impl Digest {
    /// Of no octets.
    pub fn new() -> Digest {
        Digest {
            state: 0,
            word: 0,
            count: 0,
        }
    }

    /// Takes eight octets.
    fn take_word(&mut self, word: u64) {
        self.state = (self.state.rotate_left(5) ^ word).wrapping_mul(FACTOR);
    }

    /// How many octets no whole word has yet.
    fn carried(&self) -> usize {
        (self.count % 8) as usize
    }

    /// Takes an octet.
    fn take_octet(&mut self, octet: u8) {
        self.word |= u64::from(octet) << (8 * (self.count % 8));
        self.count = self.count.wrapping_add(1);
        if self.carried() == 0 {
            let word = self.word;
            self.take_word(word);
            self.word = 0;
        }
    }

    /// Takes octets one by one.
    fn take_octets(&mut self, octets: &[u8]) {
        for octet in octets {
            self.take_octet(*octet);
        }
    }

    /// Takes words where no octet is carried.
    fn take_words(&mut self, words: &[[u8; 8]]) {
        for word in words {
            self.take_word(u64::from_le_bytes(*word));
        }
        self.count = self
            .count
            .wrapping_add((words.len() as u64).wrapping_mul(8));
    }

    /// Takes a word by itself, whatever octets are carried.
    pub fn take_number(&mut self, number: u64) {
        self.take_word(number);
        self.count = self.count.wrapping_add(8);
    }

    /// Takes octets.
    pub fn take(&mut self, octets: &[u8]) {
        let count = match self.carried() {
            0 => 0,
            carried => octets.len().min(8_usize.saturating_sub(carried)),
        };
        let (front, rest) = octets.split_at(count);
        self.take_octets(front);
        let (words, last) = rest.as_chunks::<8>();
        self.take_words(words);
        self.take_octets(last);
    }
}

impl fmt::Display for Digest {
    fn fmt<W: fmt::Write>(&self, f: &mut fmt::Formatter<W>) -> fmt::Result {
        let state = (self.state ^ self.word).wrapping_mul(FACTOR);
        let count = self.count;
        write!(f, "{count} octets {state:016x}")
    }
}
