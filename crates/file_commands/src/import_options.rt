//! The options of `import`.

ghost use Rattle.std.specs.Prelude.{◌≡◌, ◌≤◌, is_some, nat_lt, IfOk, IfSome};
ghost use Rattle.file_commands.specs.Import.{AreAsked, is_of_headers, least_step, resync_by};

use crate::rows::ONE_OF_TWO;
use flight_tools_args::ImportWords;
use packet_archive::{Resync, Times};
use std::alloc::Global;
use text_lines::decimal_number;
use tool_faults::Fault;

/// The byte at which the time of this profile's telemetry begins, counted from 0.
const OWN_TIME: u32 = 6;

/// The most decimal digits of a part of a second.
const MOST_DIGITS: usize = 6;

/// The millionths of a second.
const MILLIONTHS: u64 = 1_000_000;

/// The shortest step in millionths of a second: the first that is no shorter than the resolution of a stream, 1/65,536 s.
const LEAST_STEP: u64 = 16;

/// What to write for a refused `--time-at`.
const TIME_AT_ADVICE: &str = "write an offset in bytes, from 0 to 65535";

/// What to write for a refused `--subtract`.
const SUBTRACT_ADVICE: &str = "write whole seconds, from 0 to 4294967295";

/// What to write for a refused `--step`.
const STEP_ADVICE: &str =
    "write seconds, 0.000016 or more, with at most six digits after the point";

/// What to write for a refused `--tick`.
const TICK_ADVICE: &str = "write whole seconds, 1 or more; leave --tick out for no ticks";

/// What to write for a refused `--only`.
const ONLY_ADVICE: &str = "write message ids separated by commas, for example 0x0883,0x0884";

/// What to write for a refused `--start`.
const START_ADVICE: &str = "write the number of a rule text, from 0 to 65535";

/// A decimal number, or a hexadecimal one after `0x`, of at most `most`.
fn number_in(word: &str, most: u32) -> Option<u32>
    ensures { IfSome result (λ number. number ≤ most) }
{
    let number = match word.strip_prefix("0x") {
        Some(digits) => u32::from_str_radix(digits, 16),
        None => u32::from_str_radix(word, 10),
    };
    match number {
        Ok(number) if number <= most => Some(number),
        _ => None,
    }
}

/// The value of a numeric option, or `default` if it isn't given. Error: `Value` for any other word.
fn number_of<'a>(
    option: &'a str,
    word: Option<&'a str>,
    most: u32,
    default: u32,
    advice: &'static str,
) -> Result<u32, Fault<'a>>
    requires { default ≤ most }
    ensures { IfOk result (λ number. number ≤ most) }
{
    match word {
        None => Ok(default),
        Some(word) => match number_in(word, most) {
            Some(number) => Ok(number),
            None => Err(Fault::Value(option, word, advice)),
        },
    }
}

/// A part of a second, in millionths, from one to six decimal digits.
fn part_in(digits: &str) -> Option<u64> {
    let mut part = decimal_number(MOST_DIGITS, digits.as_bytes())?;
    for _ in digits.len()..MOST_DIGITS {
        part = part.saturating_mul(10);
    }
    Some(part)
}

/// A step in millionths of a second, from seconds with up to six decimal digits after a point; `None` if it is shorter than a
/// 65,536th of a second, so that packets would share a moment.
fn step_in(word: &str) -> Option<u64>
    ensures { IfSome result (λ step. least_step ≤ step) }
{
    let (seconds, part) = match word.split_once('.') {
        Some((seconds, part)) => (seconds, part_in(part)?),
        None => (word, 0),
    };
    let whole = u64::from(number_in(seconds, u32::MAX)?);
    let step = whole.saturating_mul(MILLIONTHS).saturating_add(part);
    if step < LEAST_STEP { None } else { Some(step) }
}

/// The first option of an import that is about times in headers, if one is given.
fn header_option(wanted: ImportWords<'_>) -> Option<&'static str>
    ensures { is_some result ≡ is_of_headers wanted.entry }
{
    match (wanted.time_at, wanted.subtract) {
        (Some(_), _) => Some("--time-at"),
        (None, Some(_)) => Some("--subtract"),
        (None, None) => None,
    }
}

/// The source of the packets' times: the steps of an option, or the packets' headers. Error: `Value` for an invalid word, and for a step
/// beside an option that is about times in headers.
pub fn times_of<'a>(wanted: ImportWords<'a>) -> Result<Times, Fault<'a>>
    ensures { IfOk result (AreAsked wanted.entry) }
{
    match (wanted.step, header_option(wanted)) {
        (Some(_), Some(option)) => Err(Fault::Value("--step", option, ONE_OF_TWO)),
        (Some(word), None) => match step_in(word) {
            Some(step) => Ok(Times::Steps { step }),
            None => Err(Fault::Value("--step", word, STEP_ADVICE)),
        },
        (None, _) => Ok(Times::Header {
            at: number_of(
                "--time-at",
                wanted.time_at,
                65_535,
                OWN_TIME,
                TIME_AT_ADVICE,
            )? as u16,
            epoch: number_of("--subtract", wanted.subtract, u32::MAX, 0, SUBTRACT_ADVICE)?,
        }),
    }
}

/// The seconds from tick to tick, or 0 for no ticks if the option isn't given. Error: `Value` for a word that is no number, and for 0.
pub fn tick_of<'a>(word: Option<&'a str>) -> Result<u32, Fault<'a>>
    ensures { IfOk result (λ seconds. nat_lt 0 seconds ≡ is_some word.entry) }
{
    match word {
        None => Ok(0),
        Some(word) => match number_in(word, u32::MAX) {
            Some(seconds) if seconds > 0 => Ok(seconds),
            _ => Err(Fault::Value("--tick", word, TICK_ADVICE)),
        },
    }
}

/// The message ids of `--only`, separated by commas; empty if it isn't given.
pub fn ids_of<'a>(alloc: Global, word: Option<&'a str>) -> Result<Vec<u16>, Fault<'a>> {
    let mut ids = Vec::new(alloc);
    if let Some(word) = word {
        for id in word.split(',') {
            match number_in(id, 65_535) {
                Some(id) => ids.push(id as u16)?,
                None => return Err(Fault::Value("--only", word, ONLY_ADVICE)),
            }
        }
    }
    Ok(ids)
}

/// The number of the rule text with which the stream begins, from `--start`; `None` if it isn't given.
pub fn start_number<'a>(word: Option<&'a str>) -> Result<Option<u16>, Fault<'a>> {
    match word {
        None => Ok(None),
        Some(word) => match number_in(word, 65_535) {
            Some(number) => Ok(Some(number as u16)),
            None => Err(Fault::Value("--start", word, START_ADVICE)),
        },
    }
}

/// What an import does where no packet is in front: with `--resync` it skips bytes, and `is_more` says whether more bytes may come.
pub fn resync_by(is_asked: bool, is_more: bool) -> Resync
    ensures { result ≡ resync_by is_asked is_more }
{
    if !is_asked {
        Resync::Never
    } else if is_more {
        Resync::Within
    } else {
        Resync::AtEnd
    }
}
