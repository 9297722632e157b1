//! Checks of items.

ghost use Rattle.std.specs.Prelude.{◌≡◌, List};
ghost use Rattle.std.specs.List.{Contains};
ghost use Rattle.lc_model.specs.Text.Syntax as model;
ghost use Rattle.lc_model.specs.Text.Meaning.{faults, faults_of, name_faults, first_fault};
ghost use Rattle.rule_parser.specs.Syntax.{item_of, items_of};
ghost use Rattle.field_checker.specs.Faults.{NamesItsFault, after, first_of};

use crate::fault::Check;
use crate::faults::Faults;
use crate::index::declared_name;
use crate::names::Names;
use rule_parser::Item;

impl Faults {
    /// Adds the fault of a name that was declared before.
    fn check_name<'a>(&mut self, names: &Names<'_, 'a>, item: &Item<'a>)
        ensures faults { first_of self.new ≡
            after (first_of self.old)
            (name_faults (items_of names.now.items.now) (item_of item.now)) }
        ensures names { (items : List model.Item) → NamesItsFault items self.old.first →
            NamesItsFault items self.new.first }
    {
        let name = declared_name(item);
        self.refuse_if(
            names.is_declared_before(name),
            Check::DuplicateName,
            name.at,
        );
    }

    /// Adds the faults of an item.
    #[tactic(auto, using(crate::proofs::After::both_met, crate::proofs::After::nothing_met))]
    fn check_item<'a>(&mut self, names: &Names<'_, 'a>, item: &Item<'a>)
        ensures faults { first_of self.new ≡
            after (first_of self.old)
            (faults_of (items_of names.now.items.now) (item_of item.now)) }
        ensures names { (items : List model.Item) → Contains items (item_of item.now) →
            NamesItsFault items self.old.first → NamesItsFault items self.new.first }
    {
        self.check_name(names, item);
        match item {
            Item::Packet(packet) => self.check_packet(packet),
            Item::Field(field) => self.check_field(names, field),
            Item::Rule(rule) => self.check_rule(names, rule),
        }
    }

    /// Returns the first of the faults of all items.
    pub fn of(names: &Names) -> Faults
        ensures faults { first_of result ≡ first_fault (faults (items_of names.now.items.now)) }
        ensures names { NamesItsFault (items_of names.now.items.now) result.first }
    {
        let mut faults = Faults::none();
        for item in names.items {
            faults.check_item(names, item);
        }
        faults
    }
}
