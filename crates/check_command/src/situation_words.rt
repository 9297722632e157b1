//! A situation of a changed condition, in words.

use analysis_listing::{FieldName, FieldNames};
use diagnostics::Many;
use lc_model::Term;
use rule_analysis::{field_of, last_of, value_in};
use rule_changes::Situation;
use std::fmt::{self, Display, Formatter, Write};

/// The names of the fields of two texts.
#[derive(Clone, Copy)]
pub(crate) struct BothNames<'n> {
    pub old: &'n FieldNames<'n>,
    pub new: &'n FieldNames<'n>,
}

impl<'n> BothNames<'n> {
    /// The name of the field that a term reads: the new text's, if it has the field.
    fn name(self, term: &Term) -> FieldName<'n> {
        let name = self.new.name(term);
        if name == b"?".as_slice() {
            FieldName::Text(self.old.name(term))
        } else {
            FieldName::Text(name)
        }
    }
}

/// The values of the fields of some terms in a situation; it displays as `VOLTS = 2399, DEGREES = 61 (2 agings old)`.
#[derive(Clone, Copy)]
pub(crate) struct ShownSituation<'n> {
    pub names: BothNames<'n>,
    /// The terms whose fields are shown, each field once.
    pub terms: &'n [Term],
    pub situation: &'n Situation,
}

/// Whether an earlier one of the terms reads the same field.
fn is_read_before(terms: &[Term], at: usize) -> bool {
    let Some(term) = terms.get(at) else {
        return false;
    };
    terms
        .iter()
        .take(at)
        .any(|other| field_of(other) == field_of(term))
}

/// A field's value in its last packet.
#[derive(Clone, Copy)]
struct ShownValue<'t>(&'t Term, &'t [u8]);

impl Display for ShownValue<'_> {
    fn fmt<W: Write>(&self, f: &mut Formatter<W>) -> fmt::Result {
        match value_in(self.0, self.1) {
            Some(value) => write!(f, " = {value}"),
            None => write!(f, " not in its packet"),
        }
    }
}

/// A term's field in a situation: its value, or why there is none.
#[derive(Clone, Copy)]
struct ShownField<'n>(&'n Term, &'n Situation);

impl Display for ShownField<'_> {
    fn fmt<W: Write>(&self, f: &mut Formatter<W>) -> fmt::Result {
        let ShownField(term, situation) = self;
        if let Some(packet) = last_of(&situation.recent, term.mid) {
            return write!(f, "{}", ShownValue(term, packet));
        }
        match last_of(&situation.earlier, term.mid) {
            Some(packet) => {
                let age = Many(situation.agings as usize, "aging");
                write!(f, "{} ({age} old)", ShownValue(term, packet))
            }
            None => write!(f, " not received"),
        }
    }
}

impl Display for ShownSituation<'_> {
    fn fmt<W: Write>(&self, f: &mut Formatter<W>) -> fmt::Result {
        let mut comma = "";
        for (at, term) in self.terms.iter().enumerate() {
            if is_read_before(self.terms, at) {
                continue;
            }
            let name = self.names.name(term);
            write!(f, "{comma}{name}{}", ShownField(term, self.situation))?;
            comma = ", ";
        }
        Ok(())
    }
}
