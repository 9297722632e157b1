//! The names that a scenario may use.

use editor_text::WordClass;
use rpn_compiler::RuleText;
use rule_errors::NameKind;
use script_errors::DeclaredNames;
use script_outline::{ScriptKind, ScriptNames, ScriptOutline};
use std::alloc::{AllocError, Global};

/// The names of the rule texts that are open.
#[derive(Drop)]
pub struct Names<'a> {
    packets: Vec<&'a [u8]>,
    fields: Vec<(usize, &'a [u8])>,
    rules: Vec<&'a [u8]>,
}

/// The number of a name among others, or how many there are.
fn number_of(names: &[&[u8]], name: &[u8]) -> usize {
    names
        .iter()
        .position(|other| *other == name)
        .unwrap_or(names.len())
}

impl<'a> Names<'a> {
    /// The names that rule texts declare.
    pub fn of(alloc: Global, texts: &[RuleText<'a>]) -> Result<Names<'a>, AllocError> {
        let declared = DeclaredNames::of_texts(alloc, texts)?;
        let mut fields = Vec::new(alloc);
        for field in &declared.fields {
            let packet = number_of(declared.packets.as_slice(), field.packet);
            fields.push((packet, field.name))?;
        }
        let DeclaredNames {
            packets,
            fields: _,
            rules,
        } = declared;
        Ok(Names {
            packets,
            fields,
            rules,
        })
    }

    /// The outline of a text that may use these names.
    pub fn outline<'o>(&'o self, kind: ScriptKind, text: &'o [u8]) -> ScriptOutline<'o> {
        let names = ScriptNames {
            packets: self.packets.as_slice(),
            fields: self.fields.as_slice(),
            rules: self.rules.as_slice(),
        };
        ScriptOutline::new(kind, text, names)
    }
}

/// The kind of a name by its class.
pub fn kind_of(class: WordClass) -> Option<NameKind> {
    match class {
        WordClass::Packet => Some(NameKind::Packet),
        WordClass::Field => Some(NameKind::Field),
        WordClass::Rule => Some(NameKind::Rule),
        _ => None,
    }
}
