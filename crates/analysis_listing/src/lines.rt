//! The parts of lines.

use crate::fields::FieldNames;
use lc_model::Term;
use rule_analysis::{Field, field_of, value_with};
use std::fmt::{self, Display, Formatter, Write};

/// A name of a rule text; it displays as its characters.
#[derive(Clone, Copy)]
pub struct Shown<'a>(pub &'a [u8]);

impl Display for Shown<'_> {
    fn fmt<W: Write>(&self, f: &mut Formatter<W>) -> fmt::Result {
        for byte in self.0 {
            let letter = char::from(*byte);
            write!(f, "{letter}")?;
        }
        Ok(())
    }
}

/// The rule or actionpoint that is judged.
#[derive(Clone, Copy)]
pub enum Title<'a> {
    /// The rule of this name.
    Rule(&'a [u8]),
    /// The actionpoint of this number, from 0.
    Actionpoint(usize),
}

impl Display for Title<'_> {
    fn fmt<W: Write>(&self, f: &mut Formatter<W>) -> fmt::Result {
        match *self {
            Title::Rule(name) => {
                let name = Shown(name);
                write!(f, "{name}")
            }
            Title::Actionpoint(number) => write!(f, "actionpoint {number}"),
        }
    }
}

/// The name of a field in a line.
#[derive(Clone, Copy)]
pub enum FieldName<'a> {
    /// Its name in the rule text.
    Text(&'a [u8]),
    /// The number of the first watchpoint that reads it, counted from 0; it displays as `w0`.
    Watchpoint(usize),
}

impl Display for FieldName<'_> {
    fn fmt<W: Write>(&self, f: &mut Formatter<W>) -> fmt::Result {
        match *self {
            FieldName::Text(name) => {
                let name = Shown(name);
                write!(f, "{name}")
            }
            FieldName::Watchpoint(number) => write!(f, "w{number}"),
        }
    }
}

/// The source of the fields' names.
#[derive(Clone, Copy)]
pub enum NameSource<'a> {
    /// A rule text.
    Text(&'a FieldNames<'a>),
    /// The watchpoints of a table, in order.
    Table(&'a [Term]),
}

impl<'a> NameSource<'a> {
    /// The first name of the field that a term reads.
    pub fn name(&self, term: &Term) -> FieldName<'a> {
        match *self {
            NameSource::Text(names) => FieldName::Text(names.name(term)),
            NameSource::Table(watchpoints) => FieldName::Watchpoint(first_reader(
                watchpoints,
                term,
            )),
        }
    }
}

/// The number of the first watchpoint that reads the same field as a term; the number of watchpoints if none does.
fn first_reader(watchpoints: &[Term], term: &Term) -> usize {
    let field = field_of(term);
    for (number, watchpoint) in watchpoints.iter().enumerate() {
        if field_of(watchpoint) == field {
            return number;
        }
    }
    watchpoints.len()
}

/// A comparison; it displays as `VOLTS < 2400`.
#[derive(Clone, Copy)]
pub struct ShownTerm<'a> {
    /// The name of its field.
    pub name: FieldName<'a>,
    /// The comparison.
    pub term: Term,
}

impl Display for ShownTerm<'_> {
    fn fmt<W: Write>(&self, f: &mut Formatter<W>) -> fmt::Result {
        let (name, sign, value) = (self.name, self.term.op.sign(), self.term.value);
        write!(f, "{name} {sign} {value}")
    }
}

/// Whether an earlier one of the terms reads the field.
fn is_read_before(terms: &[Term], at: usize, field: &Field) -> bool {
    for (i, term) in terms.iter().enumerate() {
        if i < at && field_of(term) == *field {
            return true;
        }
    }
    false
}

/// The values of some terms' fields in packets; they display as `VOLTS = 2399, DEGREES = 61`. A field without a packet is left out.
#[derive(Clone, Copy)]
pub struct Values<'a> {
    /// The source of the fields' names.
    pub names: NameSource<'a>,
    /// The terms whose fields are shown, each field once.
    pub terms: &'a [Term],
    /// The packets, latest first.
    pub packets: &'a [Vec<u8>],
}

impl Display for Values<'_> {
    fn fmt<W: Write>(&self, f: &mut Formatter<W>) -> fmt::Result {
        let mut comma = "";
        for (i, term) in self.terms.iter().enumerate() {
            if is_read_before(self.terms, i, &field_of(term)) {
                continue;
            }
            if let Some(value) = value_with(term, self.packets) {
                let name = self.names.name(term);
                write!(f, "{comma}{name} = {value}")?;
                comma = ", ";
            }
        }
        Ok(())
    }
}
