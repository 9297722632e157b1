//! What a program in C may ask of a host that it feeds. Nothing changes by it.

ghost use Rattle.std.specs.Prelude.{◌≡◌, ◌<◌, ℕ, length, option_map, slice_get, Option, Some, IsSomeAnd};
ghost use Rattle.lc_model.specs.Kept.Summary.{Tally};
ghost use Rattle.lc_model.specs.LimitChecker.Steps.{Point};
ghost use Rattle.c_interface.specs.Asking.{TellsRule, engine_in, figures_of, mode_in, rule_in, rule_told, rules_in, text_number};
ghost use Rattle.c_interface.specs.Feeding.{IsFed};

use crate::handle::{Fed, Handle};
use flight_profile::{engine_on, text_in_force};
use lc_model::ApResult;
use limit_engine::Engine;

/// The code if no Limit Checker runs.
pub const NO_CHECKER: u32 = 245;

/// The code if the tables in force have no rule of the number.
pub const NO_RULE: u32 = 246;

/// The number of the text in force if there is none.
pub const NO_TEXT: u64 = u64::MAX;

/// How a rule stands, as C sees it.
#[repr(C)]
#[derive(Clone, Copy)]
pub struct RuleReading {
    /// Active (1), passive (2), disabled (3), off for good (4).
    pub state: u8,
    /// The last result: none yet (0), pass (1), fail (2), stale (3), error (4).
    pub result: u8,
    /// The failures in a row, up to 65,535.
    pub fails: u16,
    /// The samples while the rule was passive with enough failures in a row, up to 65,535.
    pub quiet: u16,
}

/// The figures of a host, as C sees them.
#[repr(C)]
#[derive(Clone, Copy)]
pub struct Figures {
    /// How many records were handled, up to 2^64 - 1.
    pub records: u64,
    /// How many bytes were written, up to 2^64 - 1.
    pub written: u64,
    /// The number of the rule text in force, from 0; `NO_TEXT` if there is none.
    pub text: u64,
    /// The mode of the Limit Checker: active (1), passive (2), disabled (3); 0 if none runs.
    pub mode: u32,
    /// How many rules are in force.
    pub rules: u32,
}

/// How the rule with this number stands.
fn rule_at(engine: &Engine, number: usize) -> RuleReading
    requires { number < length engine.now.points }
    ensures { option_map (λ (point : Point Tally). rule_told point)
        (slice_get engine.now.points number) ≡ Some result }
{
    let standing = engine.standing(number);
    RuleReading {
        state: standing.state.code(),
        result: ApResult::last_code(standing.last),
        fails: engine.fails_in_a_row(number),
        quiet: engine.quiet_samples(number),
    }
}

/// How the rule with this number stands; or the code of the refusal.
fn rule_of(fed: &Fed, number: u16) -> Result<RuleReading, u32>
    requires { IsFed fed.now }
    ensures { result ≡ rule_in (engine_in fed.now) number }
{
    let Some(engine) = engine_on(fed.host.host()) else {
        return Err(NO_CHECKER);
    };
    if number as usize >= engine.rule_count() {
        return Err(NO_RULE);
    }
    Ok(rule_at(engine, number as usize))
}

/// Tells how the rule with this number stands, and returns 0; or returns `NO_CHECKER` or `NO_RULE`, and writes nothing.
/// Condition: the handle holds a host.
pub fn tell_rule(handle: &mut Handle, rule: u16, told: &mut RuleReading) -> u32
    requires there { IsSomeAnd handle.old.value IsFed }
    ensures told { IsSomeAnd handle.old.value (λ fed.
        TellsRule (rule_in (engine_in fed) rule) told.old told.new result) }
    ensures same { handle.new.value ≡ handle.old.value }
{
    match rule_of(handle.lend(), rule) {
        Ok(found) => {
            *told = found;
            0
        }
        Err(code) => code,
    }
}

/// The number of the mode of a Limit Checker, and how many rules it has; 0 without one.
fn mode_and_rules(engine: Option<&Engine>) -> (u32, u32)
    ensures mode { result.0 ≡ mode_in (option_map (λ engine. engine.now) engine.entry) }
    ensures rules { result.1 ≡ rules_in (option_map (λ engine. engine.now) engine.entry) }
{
    match engine {
        None => (0, 0),
        Some(engine) => (engine.mode().code() as u32, engine.rule_count() as u32),
    }
}

/// The number of a text, or `NO_TEXT`.
fn number_of(text: Option<usize>) -> u64
    ensures { result ≡ text_number text }
{
    match text {
        None => NO_TEXT,
        Some(number) => number as u64,
    }
}

/// The figures of a host.
fn figures_in(fed: &Fed) -> Figures
    requires { IsFed fed.now }
    ensures { result ≡ figures_of fed.now }
{
    let (mode, rules) = mode_and_rules(engine_on(fed.host.host()));
    Figures {
        records: fed.host.records(),
        written: fed.written,
        text: number_of(text_in_force(fed.host.host(), fed.host.files())),
        mode,
        rules,
    }
}

/// Tells the figures of a host. Condition: the handle holds one.
pub fn tell_figures(handle: &mut Handle, told: &mut Figures)
    requires there { IsSomeAnd handle.old.value IsFed }
    ensures told { IsSomeAnd handle.old.value (λ fed. told.new ≡ figures_of fed) }
    ensures same { handle.new.value ≡ handle.old.value }
{
    *told = figures_in(handle.lend());
}
