//! The outline of a schedule or a scenario.

use editor_text::WordClass;

/// What a script is.
#[derive(Clone, Copy, Debug, PartialEq, Eq)]
pub enum ScriptKind {
    /// A schedule.
    Schedule,
    /// A scenario, which may also be a plain script of a stream.
    Scenario,
}

/// The names that a scenario may use.
#[derive(Clone, Copy)]
pub struct ScriptNames<'a> {
    /// Packets.
    pub packets: &'a [&'a [u8]],
    /// Fields, each with the number of its packet in `packets`.
    pub fields: &'a [(usize, &'a [u8])],
    /// Rules.
    pub rules: &'a [&'a [u8]],
}

/// A name of a rule text where it stands in a scenario.
#[derive(Clone, Copy, Debug, PartialEq, Eq)]
pub struct ScriptName<'a> {
    /// `Packet`, `Field` or `Rule`.
    pub class: WordClass,
    /// The place of its first byte.
    pub at: usize,
    /// The name, without the number of a text before it.
    pub text: &'a [u8],
}

/// The outline of a schedule or a scenario.
#[derive(Drop)]
pub struct ScriptOutline<'a> {
    pub(crate) kind: ScriptKind,
    pub(crate) text: &'a [u8],
    pub(crate) names: ScriptNames<'a>,
}

impl<'a> ScriptOutline<'a> {
    /// The outline of a text, which may use these names.
    pub fn new(kind: ScriptKind, text: &'a [u8], names: ScriptNames<'a>) -> ScriptOutline<'a> {
        ScriptOutline { kind, text, names }
    }
}
