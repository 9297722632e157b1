//! Checks of fields.

ghost use Rattle.std.specs.Prelude.{◌≡◌, List, [], pos, int_lt, is_none, option_map};
ghost use Rattle.std.specs.List.{Contains};
ghost use Rattle.std.specs.Option.{option_map_or};
ghost use Rattle.lc_model.specs.Field.{full_mask};
ghost use Rattle.lc_model.specs.Text.Syntax as model;
ghost use Rattle.lc_model.specs.Text.Meaning.{fault_if, fault_outside, field_faults, is_outside, mask_range, number_range};
ghost use Rattle.rule_parser.specs.Syntax.{field_of, items_of, number_of, packet_of};
ghost use Rattle.field_checker.specs.Faults.{NamesItsFault, after, first_of};

use crate::fault::Check;
use crate::faults::Faults;
use crate::names::Names;
use lc_model::FieldType;
use rule_parser::{FieldItem, Number, PacketItem};

/// Whether a byte of the field is outside its packet. A field whose packet isn't declared can only begin too early.
fn is_outside(field: &FieldItem, packet: Option<&PacketItem>) -> bool
    ensures { result ≡ is_outside (field_of field.now)
        (option_map (λ p. packet_of p.now) packet.entry) }
{
    let offset = field.offset.value;
    match packet {
        Some(packet) => offset < 0 || packet.length.value < offset + field.kind.width() as i64,
        None => offset < 0,
    }
}

/// Whether the number is below 0.
fn is_negative(number: Number) -> bool
    ensures { result ≡ int_lt number.value (pos 0) }
{
    number.value < 0
}

impl Faults {
    /// Adds the fault of a mask, if one is written.
    #[tactic(auto, using(crate::proofs::After::both_met, crate::proofs::After::nothing_met))]
    fn check_mask(&mut self, kind: FieldType, mask: Option<Number>)
        ensures faults { first_of self.new ≡
            after (first_of self.old)
            (option_map_or (fault_outside 1 (full_mask kind) mask_range)
            (option_map number_of mask) []) }
        ensures names { (items : List model.Item) → NamesItsFault items self.old.first →
            NamesItsFault items self.new.first }
    {
        if let Some(mask) = mask {
            self.refuse_outside(mask, 1, kind.full_mask(), Check::MaskRange);
        }
    }

    /// Adds the fault of a stale age, if one is written.
    #[tactic(auto, using(crate::proofs::After::both_met, crate::proofs::After::nothing_met))]
    fn check_stale(&mut self, stale: Option<Number>)
        ensures faults { first_of self.new ≡
            after (first_of self.old)
            (option_map_or
            (λ (n : model.Number). fault_if (int_lt n.value (pos 0)) number_range n.at)
            (option_map number_of stale) []) }
        ensures names { (items : List model.Item) (field : model.FieldItem) →
            Contains items (model.Field field) → field.stale ≡ option_map number_of stale
            → NamesItsFault items self.old.first → NamesItsFault items self.new.first }
    {
        if let Some(age) = stale {
            self.refuse_if(is_negative(age), Check::NumberRange, age.at);
        }
    }

    /// Adds the faults of a field's packet, place, mask and stale age.
    #[tactic(auto, using(crate::proofs::After::both_met, crate::proofs::After::nothing_met))]
    pub fn check_field<'a>(&mut self, names: &Names<'_, 'a>, field: &FieldItem<'a>)
        ensures faults { first_of self.new ≡
            after (first_of self.old)
            (field_faults (items_of names.now.items.now) (field_of field.now)) }
        ensures names { (items : List model.Item) →
            Contains items (model.Field (field_of field.now)) → NamesItsFault items self.old.first →
            NamesItsFault items self.new.first }
    {
        let packet = names.packet(field.packet);
        self.refuse_if(packet.is_none(), Check::UnknownName, field.packet.at);
        self.refuse_if(
            is_outside(field, packet),
            Check::FieldOutside,
            field.offset.at,
        );
        self.check_mask(field.kind, field.mask);
        self.check_stale(field.stale);
    }
}
