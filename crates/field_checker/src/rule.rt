//! Checks of rules.

ghost use Rattle.std.specs.Prelude.{◌≡◌, List, [], option_map};
ghost use Rattle.std.specs.List.{Contains};
ghost use Rattle.std.specs.Option.{option_map_or};
ghost use Rattle.lc_model.specs.Text.Syntax as model;
ghost use Rattle.lc_model.specs.Text.Meaning.{compare_faults, condition_faults, report_faults, rule_faults};
ghost use Rattle.rule_parser.specs.Syntax.{comparison_of, expression_of, field_of, items_of, name_of, number_of, report_of, rule_of};
ghost use Rattle.field_checker.specs.Faults.{NamesItsFault, after, first_of};

use crate::fault::Check;
use crate::faults::Faults;
use crate::names::Names;
use crate::number::RuleNumber;
use rule_parser::{Comparison, Expression, ReportItem, RuleItem};

impl Faults {
    /// Adds the faults of the maxima of events, if they are written.
    #[tactic(auto, using(crate::proofs::After::both_met, crate::proofs::After::nothing_met))]
    fn check_report(&mut self, report: Option<ReportItem>)
        ensures faults { first_of self.new ≡
            after (first_of self.old)
            (option_map_or report_faults (option_map report_of report) []) }
        ensures names { (items : List model.Item) (rule : model.RuleItem) →
            Contains items (model.Rule rule) → rule.report ≡ option_map report_of report
            → NamesItsFault items self.old.first → NamesItsFault items self.new.first }
    {
        if let Some(report) = report {
            self.refuse_number(report.passive, RuleNumber::ReportPassive);
            self.refuse_number(report.pass_to_fail, RuleNumber::ReportPassToFail);
            self.refuse_number(report.fail_to_pass, RuleNumber::ReportFailToPass);
        }
    }

    /// Adds the fault of a comparison: the field that it names, or else its number.
    fn check_comparison<'a>(&mut self, names: &Names<'_, 'a>, comparison: &Comparison<'a>)
        ensures faults { first_of self.new ≡
            after (first_of self.old)
            (condition_faults (items_of names.now.items.now) (comparison_of comparison.now)) }
        ensures names { (items : List model.Item) → NamesItsFault items self.old.first →
            NamesItsFault items self.new.first }
    {
        let value = comparison.value;
        match names.field(comparison.field) {
            Some(field) => {
                let outside = !field.kind.has(value.value);
                self.refuse_if(outside, Check::ConstRange, value.at);
            }
            None => self.refuse_if(true, Check::UnknownName, comparison.field.at),
        }
    }

    /// Adds the faults of a condition's comparisons. The recursion is as deep as the condition.
    #[tactic(auto, using(crate::proofs::After::both_met, crate::proofs::After::nothing_met))]
    fn check_condition<'a>(&mut self, names: &Names<'_, 'a>, condition: &Expression<'a>)
        ensures faults { first_of self.new ≡
            after (first_of self.old)
            (condition_faults (items_of names.now.items.now) (expression_of condition.now)) }
        ensures names { (items : List model.Item) → NamesItsFault items self.old.first →
            NamesItsFault items self.new.first }
    {
        match condition {
            Expression::Compare(comparison) => self.check_comparison(names, comparison),
            Expression::Not(operand) => self.check_condition(names, operand),
            Expression::And(operands) | Expression::Or(operands) | Expression::Xor(operands) => {
                self.check_condition(names, &operands.0);
                self.check_condition(names, &operands.1);
            }
        }
    }

    /// Adds the faults of a rule's numbers and condition.
    #[tactic(auto, using(crate::proofs::After::both_met, crate::proofs::After::nothing_met))]
    pub fn check_rule<'a>(&mut self, names: &Names<'_, 'a>, rule: &RuleItem<'a>)
        ensures faults { first_of self.new ≡
            after (first_of self.old)
            (rule_faults (items_of names.now.items.now) (rule_of rule.now)) }
        ensures names { (items : List model.Item) → Contains items (model.Rule (rule_of rule.now)) →
            NamesItsFault items self.old.first → NamesItsFault items self.new.first }
    {
        self.refuse_number(rule.fails, RuleNumber::Fails);
        self.refuse_number(rule.sequence, RuleNumber::Sequence);
        self.refuse_number(rule.event_id, RuleNumber::EventId);
        self.check_report(rule.report);
        self.check_condition(names, &rule.condition);
    }
}
