//! The texts of events, written without allocating.

ghost use Rattle.std.specs.Prelude.{◌≡◌, ◌+◌, ◌<◌, ◌≤◌, ◌*◌, ◌%◌, false, List, [], ◌∷◌, ◌++◌, length, codes, decimal};
ghost use Rattle.std.specs.Fmt.{digit_glyph};
ghost use Rattle.lc_model.specs.Events.Outgoing.{longest_event_text};
ghost use Rattle.lc_model.specs.Events.Request.{numbered, hex_word as four_digits};
ghost use Rattle.event_service.specs.Text.{hex_size, longest_number};

use arrayvec::ArrayVec;
use itoa::Buffer;
use std::marker::Model;

/// The most bytes of an event's text.
pub const MAX_TEXT: usize = 121;

const HEX_DIGITS: [u8; 16] = *b"0123456789abcdef";

/// The text of an event, at most 121 bytes. Contracts see the bytes.
#[derive(Debug, Drop)]
pub struct EventText {
    bytes: ArrayVec<u8, MAX_TEXT>,
}

impl Model for EventText {
    ghost use Rattle.std.specs.Prelude.{ℕ, List};

    ghost Value = { List ℕ };

    ghost view = { λ t. t.bytes.items };
}

impl EventText {
    /// The text's bytes, at most 121.
    pub fn as_bytes(&self) -> &[u8]
        ensures bytes { result.now ≡ self.now }
        ensures fits { length result.now ≤ longest_event_text }
    {
        self.bytes.as_slice()
    }

    /// Creates a text of these bytes. Condition: at most 121.
    pub fn of(bytes: &[u8]) -> EventText
        requires { length bytes.now ≤ longest_event_text }
        ensures { result ≡ bytes.now }
    {
        let mut text = EventText {
            bytes: ArrayVec::new(),
        };
        text.push(bytes);
        text
    }

    /// Appends bytes. Condition: at most 121 in all.
    pub fn push(&mut self, bytes: &[u8])
        requires { length self.old + length bytes.now ≤ longest_event_text }
        ensures text { self.new ≡ self.old ++ bytes.now }
        ensures size { length self.new ≡ length self.old + length bytes.now }
    {
        self.bytes.try_extend_from_slice(bytes).unwrap();
    }

    /// Appends a space and a number in decimal digits. Condition: room for 11 bytes.
    pub fn push_number(&mut self, number: u32)
        requires { length self.old + longest_number ≤ longest_event_text }
        ensures text { self.new ≡ numbered self.old (number ∷ []) }
        ensures size { length self.new ≤ length self.old + longest_number }
    {
        let mut digits = Buffer::new();
        self.push(b" ");
        self.push(digits.format(number).as_bytes());
    }

    /// Appends several numbers, each after a space. Condition: room for 11 bytes each.
    pub fn push_numbers(&mut self, numbers: &[u16])
        requires { length self.old + longest_number * length numbers.now ≤ longest_event_text }
        ensures { self.new ≡ numbered self.old numbers.now }
    {
        for number in numbers {
            self.push_number(u32::from(*number));
        }
    }

    /// Appends a number in four lower-case hexadecimal digits. Condition: room for four bytes.
    pub fn push_hex(&mut self, number: u16)
        requires { length self.old + hex_size ≤ longest_event_text }
        ensures { self.new ≡ self.old ++ four_digits number }
    {
        self.push(&[
            hex_digit(number / 4096),
            hex_digit(number / 256),
            hex_digit(number / 16),
            hex_digit(number),
        ]);
    }
}

/// The last hexadecimal digit of a number.
fn hex_digit(number: u16) -> u8
    ensures { result ≡ digit_glyph false (number % 16) }
{
    HEX_DIGITS[usize::from(number % 16)]
}
