//! The Limit Checker's mode and rules after a record.

ghost use Rattle.std.specs.Prelude.{◌<◌, length};
ghost use Rattle.run_stepper.specs.Stepping.{IsAtRest};

use lc_model::LcMode;
use limit_engine::Engine;
use run_stepper::Stepping;
use run_summary::{Stand, result_bit, state_bit};
use std::alloc::{AllocError, Global};

/// The Limit Checker's mode and rules after the newest record.
#[derive(Drop)]
pub struct Behind {
    /// The mode; `None` if no Limit Checker runs.
    pub mode: Option<LcMode>,
    /// Its rules, by number from 0.
    pub rules: Vec<Stand>,
    /// Whether `look` was called.
    pub looked: bool,
}

/// The result, state and failures of a rule of an engine.
fn stand_in(checker: &Engine, rule: usize) -> Stand
    requires { rule < length checker.now.points }
{
    let standing = checker.standing(rule);
    Stand {
        result: result_bit(standing.last),
        state: state_bit(standing.state),
        fails: checker.fails_in_a_row(rule),
    }
}

/// Appends all rules of an engine. The only error is a lack of memory.
fn stands_in(checker: &Engine, rules: &mut Vec<Stand>) -> Result<(), AllocError> {
    for rule in 0..checker.rule_count() {
        rules.push(stand_in(checker, rule))?;
    }
    Ok(())
}

/// Whether two rules have the same result, state and failures.
fn is_same(one: Stand, other: Stand) -> bool {
    one.result == other.result && one.state == other.state && one.fails == other.fails
}

/// Whether the rules of an engine are these.
fn is_standing(checker: &Engine, rules: &[Stand]) -> bool {
    if rules.len() != checker.rule_count() {
        return false;
    }
    for rule in 0..rules.len() {
        if !is_same(rules[rule], stand_in(checker, rule)) {
            return false;
        }
    }
    true
}

impl Behind {
    /// The state before the first record.
    pub fn new(alloc: Global) -> Behind {
        Behind {
            mode: None,
            rules: Vec::new(alloc),
            looked: false,
        }
    }

    /// Takes that no Limit Checker runs. Returns whether the rules changed, or this is the first look.
    fn look_at_none(&mut self) -> bool {
        let is_new = !self.looked || !self.rules.is_empty();
        self.mode = None;
        self.rules.clear();
        self.looked = true;
        is_new
    }

    /// Takes the mode and rules of an engine. Returns whether the rules changed, or this is the first look.
    fn look_at(&mut self, checker: &Engine) -> Result<bool, AllocError> {
        self.mode = Some(checker.mode());
        if self.looked && is_standing(checker, self.rules.as_slice()) {
            return Ok(false);
        }
        self.rules.clear();
        stands_in(checker, &mut self.rules)?;
        self.looked = true;
        Ok(true)
    }

    /// Takes the mode and rules after the last step. Returns whether the rules changed, or this is the first look. The only error is a
    /// lack of memory.
    pub fn look(&mut self, stepping: &Stepping) -> Result<bool, AllocError>
        requires { IsAtRest stepping.now }
    {
        match stepping.checker() {
            Some(checker) => self.look_at(checker),
            None => Ok(self.look_at_none()),
        }
    }
}
