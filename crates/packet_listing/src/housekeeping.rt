//! Housekeeping packets of the Limit Checker: 192 bytes.

ghost use Rattle.std.specs.Prelude.{◌≡◌, length, Some};
ghost use Rattle.packet_listing.specs.Words.{result_word, state_word};

use crate::display::TextField;
use crate::naming::RuleNames;
use lc_model::u16_at;
use std::fmt::{self, Display, Formatter, Write};

/// The length of a housekeeping packet in bytes.
pub const HOUSEKEEPING_SIZE: usize = 192;

/// A rule's name; its number if these rules lack it.
#[derive(Clone, Copy)]
struct NameOrNumber<'a> {
    rules: &'a [RuleNames<'a>],
    number: u16,
}

impl Display for NameOrNumber<'_> {
    fn fmt<W: Write>(&self, f: &mut Formatter<W>) -> fmt::Result {
        match self.rules.get(usize::from(self.number)) {
            Some(rule) => write!(f, "{}", TextField(rule.name)),
            None => write!(f, "{}", self.number),
        }
    }
}

/// Writes the mode and the number of rules, and then each rule's name or number, its state and its last result.
pub fn say_housekeeping<W: Write>(
    packet: &[u8],
    rules: &[RuleNames<'_>],
    f: &mut Formatter<W>,
) -> fmt::Result
    requires { length packet.now ≡ HOUSEKEEPING_SIZE }
{
    let mode = State(u16_at(packet, 12));
    let count = u16_at(packet, 14);
    write!(f, "LC housekeeping: {mode}, {count} rules")?;
    let mut sign = ':';
    for (number, standing) in (0..count).zip(&packet[16..]) {
        let rule = NameOrNumber {
            rules: &*rules,
            number,
        };
        let state = State(u16::from(*standing / 16));
        let result = Outcome(*standing % 16);
        write!(f, "{sign} {rule} {state} {result}")?;
        sign = ',';
    }
    Ok(())
}

/// A mode, or a rule's state, as a number of any value; it displays as its word, or as `state` and the number.
#[derive(Clone, Copy)]
struct State(u16);

impl Display for State {
    ghost output = { λ state. Some (state_word state.0) };

    fn fmt<W: Write>(&self, f: &mut Formatter<W>) -> fmt::Result {
        match self.0 {
            1 => write!(f, "active"),
            2 => write!(f, "passive"),
            3 => write!(f, "disabled"),
            4 => write!(f, "off"),
            number => write!(f, "state {number}"),
        }
    }
}

/// A rule's result as a number of any value; it displays as its word, or as `result` and the number.
#[derive(Clone, Copy)]
struct Outcome(u8);

impl Display for Outcome {
    ghost output = { λ outcome. Some (result_word outcome.0) };

    fn fmt<W: Write>(&self, f: &mut Formatter<W>) -> fmt::Result {
        match self.0 {
            0 => write!(f, "none"),
            1 => write!(f, "pass"),
            2 => write!(f, "fail"),
            3 => write!(f, "stale"),
            4 => write!(f, "error"),
            number => write!(f, "result {number}"),
        }
    }
}
