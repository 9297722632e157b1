//! The contents of the images of the two tables.

ghost use Rattle.std.specs.Prelude.{◌≡◌, IfSome};
ghost use Rattle.table_file.specs.Layout.{layout_of, layout_of_version, number_of, version_numbered};

use crate::layout::Layout;
use arrayvec::ArrayVec;
use lc_model::{ApMode, Bytes, EQUATION_WORDS, EventKind, ReportMaxima, Term};
use std::marker::Model;

/// A table of watchpoints.
#[derive(Debug, Drop)]
pub struct WdtImage {
    /// The SHA-256 of the rule text.
    pub hash: [u8; 32],
    /// At most 176.
    pub watchpoints: Vec<Term>,
}

/// The version of a table of actionpoints, which decides how many words its equations have.
#[derive(Clone, Copy, Debug, PartialEq, Eq)]
pub enum AdtVersion {
    /// Version 1: 20 words, in an image of 15,176 bytes.
    One,
    /// Version 2: 32 words, in an image of 19,400 bytes.
    Two,
}

impl AdtVersion {
    /// The layout of such a table.
    pub fn layout(self) -> Layout
        ensures { layout_of result ≡ layout_of_version self }
    {
        match self {
            AdtVersion::One => Layout::Actionpoints,
            AdtVersion::Two => Layout::WideActionpoints,
        }
    }

    /// The version's number, 1 or 2, as it stands in the preamble.
    pub fn number(self) -> u16
        ensures { result ≡ number_of self }
    {
        match self {
            AdtVersion::One => 1,
            AdtVersion::Two => 2,
        }
    }

    /// The version with this number, 1 or 2; `None` for any other.
    pub fn numbered(number: u16) -> Option<AdtVersion>
        ensures version { result ≡ version_numbered number }
        ensures number { IfSome result (λ version. number_of version ≡ number) }
    {
        match number {
            1 => Some(AdtVersion::One),
            2 => Some(AdtVersion::Two),
            _ => None,
        }
    }
}

/// A table of actionpoints.
#[derive(Debug, Drop)]
pub struct AdtImage {
    /// Decides the layout of the image.
    pub version: AdtVersion,
    /// The SHA-256 of the rule text.
    pub hash: [u8; 32],
    /// How many watchpoints the rule text has.
    pub watchpoint_count: u16,
    /// At most 176.
    pub actionpoints: Vec<TableEntry>,
}

/// An actionpoint, as in a table's entry.
#[derive(Debug, Drop)]
pub struct TableEntry {
    /// The state that the actionpoint begins in.
    pub mode: ApMode,
    /// The most events for a failure while passive, and for turns from pass to fail and from fail to pass.
    pub report: ReportMaxima,
    /// The number of the requested command sequence.
    pub sequence: u16,
    /// Failures in a row that lead to the sequence request.
    pub fails: u16,
    /// The type of the event at the sequence request.
    pub event_kind: EventKind,
    /// The id of that event.
    pub event_id: u16,
    /// The event's text: at most 31 bytes, none of them zero.
    pub text: Bytes,
    /// The equation's words before the EQUAL at its end: at most 19 in a table of version 1, and 31 in one of version 2.
    pub words: ArrayVec<u16, EQUATION_WORDS>,
}

impl Model for TableEntry {
    ghost use Rattle.lc_model.specs.Tables.Image.{TableEntry};

    ghost Value = { TableEntry };

    ghost view = { λ e. record {
      mode = e.mode;
      report = e.report;
      sequence = e.sequence;
      fails = e.fails;
      event_kind = e.event_kind;
      event_id = e.event_id;
      text = e.text;
      words = e.words.items;
    } };
}
