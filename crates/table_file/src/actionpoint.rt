//! The fields of an actionpoint's entry.

ghost use Rattle.std.specs.Prelude.{◌≡◌, ◌<◌, length, slice_index};
ghost use Rattle.lc_model.specs.declared.kind.Kind.TheVariants.{Adt};
ghost use Rattle.lc_model.specs.declared.rule.ReportMaxima.{ReportMaxima};
ghost use Rattle.lc_model.specs.Bytes.{u16_at};
ghost use Rattle.lc_model.specs.Codes.{table_entries};
ghost use Rattle.lc_model.specs.Name.{name_in};
ghost use Rattle.lc_model.specs.Tables.Entry.{event_id_field, event_type_field, fail_to_pass_field, fails_field, pass_to_fail_field, passive_field, sequence_field, state_field, text_field};
ghost use Rattle.lc_model.specs.Tables.Image.{kind_of, image_length, entry_at, all_words, words_before_equal};
ghost use Rattle.lc_model.specs.Tables.Spelled.{state_of_code, event_of_code};
ghost use Rattle.table_file.specs.Layout.{layout_of};

use crate::codes::{event_kind_of, state_of};
use crate::entry::entry_bytes;
use crate::layout::Layout;
use lc_model::equation_words::EQUAL;
use lc_model::{ApMode, EventKind, ReportMaxima, name_in, u16_at};
use std::marker::Model;

/// The bytes before the equation.
const EQUATION_AT: usize = 46;

/// The entry of an actionpoint, in an image of either layout. Contracts see the bytes.
#[derive(Debug, Drop)]
pub struct ActionpointEntry<'a> {
    bytes: &'a [u8],
}

impl<'a> Model for ActionpointEntry<'a> {
    ghost use Rattle.std.specs.Prelude.{◌≤◌, ℕ, List, length};
    ghost use Rattle.table_file.specs.Layout.{equation_place};

    ghost Value = { List ℕ };

    ghost view = { λ e. e.bytes.now };

    ghost invariant = { λ e. equation_place ≤ length e.bytes.now };
}

impl<'a> ActionpointEntry<'a> {
    /// Entry `number` of an image.
    pub fn of(layout: Layout, image: &'a [u8], number: usize) -> ActionpointEntry<'a>
        requires kind { kind_of (layout_of layout) ≡ Adt }
        requires whole { length image.now ≡ image_length (layout_of layout) }
        requires within { number < table_entries }
        ensures { result ≡ entry_at (layout_of layout) image.now number }
    {
        ActionpointEntry {
            bytes: entry_bytes(layout, image, number),
        }
    }

    /// The number of the state that the actionpoint begins in.
    pub fn state_code(&self) -> u8
        ensures { result ≡ state_field self.now }
    {
        self.bytes[0]
    }

    /// The state that the actionpoint begins in; active where no state has the number.
    pub fn mode(&self) -> ApMode
        ensures { result ≡ state_of_code (state_field self.now) }
    {
        state_of(self.bytes[0])
    }

    /// The most events for a failure while passive, and for turns from pass to fail and from fail to pass.
    pub fn report(&self) -> ReportMaxima
        ensures { result ≡ record {
          passive = passive_field self.now;
          pass_to_fail = pass_to_fail_field self.now;
          fail_to_pass = fail_to_pass_field self.now;
        } }
    {
        ReportMaxima {
            passive: self.bytes[1],
            pass_to_fail: u16_at(self.bytes, 2),
            fail_to_pass: u16_at(self.bytes, 4),
        }
    }

    /// The number of the requested command sequence.
    pub fn sequence(&self) -> u16
        ensures { result ≡ sequence_field self.now }
    {
        u16_at(self.bytes, 6)
    }

    /// Failures in a row that lead to the sequence request.
    pub fn fails(&self) -> u16
        ensures { result ≡ fails_field self.now }
    {
        u16_at(self.bytes, 8)
    }

    /// The number of the event type.
    pub fn event_code(&self) -> u16
        ensures { result ≡ event_type_field self.now }
    {
        u16_at(self.bytes, 10)
    }

    /// The event type; debug where no type has the number.
    pub fn event_kind(&self) -> EventKind
        ensures { result ≡ event_of_code (event_type_field self.now) }
    {
        event_kind_of(u16_at(self.bytes, 10))
    }

    /// The id of the event that comes with the sequence request.
    pub fn event_id(&self) -> u16
        ensures { result ≡ event_id_field self.now }
    {
        u16_at(self.bytes, 12)
    }

    /// The field with the event's text, 32 bytes.
    pub fn text_field(&self) -> &'a [u8]
        ensures { result.now ≡ text_field self.now }
    {
        &self.bytes[14..EQUATION_AT]
    }

    /// The event's text: the bytes before the field's first zero byte, or all of them.
    pub fn text(&self) -> &'a [u8]
        ensures { result.now ≡ name_in (text_field self.now) }
    {
        name_in(self.text_field())
    }

    /// How many words the layout has for the equation.
    pub fn word_count(&self) -> usize
        ensures { result ≡ length (all_words self.now) }
    {
        (self.bytes.len() - EQUATION_AT) / 2
    }

    /// Word `number` of the equation, counted from 0.
    pub fn word(&self, number: usize) -> u16
        requires { number < length (all_words self.now) }
        ensures { result ≡ slice_index (all_words self.now) number }
    {
        u16_at(self.bytes, EQUATION_AT + 2 * number)
    }

    /// How many words stand before the first EQUAL, or in all where there is none.
    pub fn equation_length(&self) -> usize
        ensures { result ≡ length (words_before_equal (all_words self.now)) }
    {
        let count = self.word_count();
        for number in 0..count {
            if self.word(number) == EQUAL {
                return number;
            }
        }
        count
    }
}
