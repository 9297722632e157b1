//! The words of a sentence, written without memory.

ghost use Rattle.std.specs.Prelude.{◌≡◌, ◌+◌, ◌≤◌, ◌++◌, length, decimal};
ghost use Rattle.c_interface.specs.Said.{longest_number, longest_wide_number, most_said};

use arrayvec::ArrayVec;
use itoa::Buffer;
use std::marker::Model;

/// The most bytes of a sentence.
pub(crate) const MOST: usize = 251;

/// The words of a sentence, at most 251 bytes. Contracts see the bytes.
#[derive(Drop)]
pub(crate) struct Wording {
    bytes: ArrayVec<u8, MOST>,
}

impl Model for Wording {
    ghost use Rattle.std.specs.Prelude.{ℕ, List};

    ghost Value = { List ℕ };

    ghost view = { λ w. w.bytes.items };
}

impl Wording {
    /// The bytes of the words, at most 251.
    pub fn as_bytes(&self) -> &[u8]
        ensures bytes { result.now ≡ self.now }
        ensures fits { length result.now ≤ most_said }
    {
        self.bytes.as_slice()
    }

    /// Creates the words with these bytes. Condition: at most 251.
    pub fn of(bytes: &[u8]) -> Wording
        requires { length bytes.now ≤ most_said }
        ensures { result ≡ bytes.now }
    {
        let mut words = Wording {
            bytes: ArrayVec::new(),
        };
        words.add(bytes);
        words
    }

    /// Appends bytes. Condition: at most 251 in all.
    pub fn add(&mut self, bytes: &[u8])
        requires { length self.old + length bytes.now ≤ most_said }
        ensures text { self.new ≡ self.old ++ bytes.now }
        ensures size { length self.new ≡ length self.old + length bytes.now }
    {
        self.bytes.try_extend_from_slice(bytes).unwrap();
    }

    /// Appends a number of 64 bits in decimal digits. Condition: room for 20 bytes.
    pub fn add_number(&mut self, number: u64)
        requires { length self.old + longest_number ≤ most_said }
        ensures text { self.new ≡ self.old ++ decimal number }
        ensures size { length self.new ≤ length self.old + longest_number }
    {
        let mut digits = Buffer::new();
        self.add(digits.format(number).as_bytes());
    }

    /// Appends a number of 128 bits in decimal digits. Condition: room for 39 bytes.
    pub fn add_wide(&mut self, number: u128)
        requires { length self.old + longest_wide_number ≤ most_said }
        ensures text { self.new ≡ self.old ++ decimal number }
        ensures size { length self.new ≤ length self.old + longest_wide_number }
    {
        let mut digits = Buffer::new();
        self.add(digits.format(number).as_bytes());
    }
}
