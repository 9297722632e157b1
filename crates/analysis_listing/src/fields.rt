//! The fields of a rule text, by their names.

ghost use Rattle.std.specs.Prelude.{◌≡◌, None};
ghost use Rattle.lc_model.specs.Field.{full_mask};
ghost use Rattle.rule_parser.specs.Syntax.{expression_of};
ghost use Rattle.analysis_listing.specs.Compared.{compares};

use lc_model::Term;
use rpn_compiler::RuleText;
use rule_analysis::{Field, field_of};
use rule_parser::{Expression, FieldItem, Item};
use std::alloc::{AllocError, Global};

/// Whether a condition compares the field of this name.
pub fn compares(condition: &Expression<'_>, name: &[u8]) -> bool
    ensures { result ≡ compares name.now (expression_of condition.now) }
{
    match condition {
        Expression::Compare(comparison) => comparison.field.text == name,
        Expression::Not(operand) => compares(operand, name),
        Expression::And(operands) | Expression::Or(operands) | Expression::Xor(operands) => {
            compares(&operands.0, name) || compares(&operands.1, name)
        }
    }
}

/// A field that a text names.
#[derive(Clone, Copy)]
struct NamedField<'a> {
    name: &'a [u8],
    field: Field,
}

/// The names of all fields of a rule text.
#[derive(Drop)]
pub struct FieldNames<'a> {
    fields: Vec<NamedField<'a>>,
}

/// The message id of the packet of this name; 0 if there is none.
fn mid_of(items: &[Item<'_>], name: &[u8]) -> u16 {
    for item in items {
        if let Item::Packet(packet) = item {
            if packet.name.text == name {
                return u16::try_from(packet.mid.value).unwrap_or(0);
            }
        }
    }
    0
}

/// The bits of the field that are read: all of its type, if the text has no mask.
fn mask_of(item: &FieldItem<'_>) -> u32
    ensures { item.now.mask ≡ None → result ≡ full_mask item.now.kind }
{
    match item.mask {
        Some(mask) => u32::try_from(mask.value).unwrap_or(0),
        None => item.kind.full_mask(),
    }
}

/// The field that this item declares, with its name.
fn named_field<'a>(items: &[Item<'a>], item: &FieldItem<'a>) -> NamedField<'a> {
    NamedField {
        name: item.name.text,
        field: Field {
            kind: item.kind,
            mid: mid_of(items, item.packet.text),
            offset: u32::try_from(item.offset.value).unwrap_or(0),
            mask: mask_of(item),
        },
    }
}

impl<'a> FieldNames<'a> {
    /// The field names of a text. The only error is a lack of memory.
    pub fn of(alloc: Global, text: &RuleText<'a>) -> Result<FieldNames<'a>, AllocError> {
        let items = text.file.items.as_slice();
        let mut fields = Vec::new(alloc);
        for item in items {
            if let Item::Field(item) = item {
                fields.push(named_field(items, item))?;
            }
        }
        Ok(FieldNames { fields })
    }

    /// The same names, with those first that a condition uses: of two names for one field it is then called by the condition's. The only
    /// error is a lack of memory.
    pub fn first_in(
        &self,
        alloc: Global,
        condition: &Expression<'_>,
    ) -> Result<FieldNames<'a>, AllocError> {
        let mut fields = Vec::new(alloc);
        for named in &self.fields {
            if compares(condition, named.name) {
                fields.push(*named)?;
            }
        }
        for named in &self.fields {
            if !compares(condition, named.name) {
                fields.push(*named)?;
            }
        }
        Ok(FieldNames { fields })
    }

    /// The first name of the field that a term reads; `?` if the text has none.
    pub fn name(&self, term: &Term) -> &'a [u8] {
        let field = field_of(term);
        for named in &self.fields {
            if named.field == field {
                return named.name;
            }
        }
        b"?"
    }
}
