//! The times that the options of a page name.

ghost use Rattle.std.specs.Prelude.{◌<◌, ◌≡◌, ◌^◌, IfErr, IfOk, IfSome, None, Ok};
ghost use Rattle.run_commands.specs.Times.{IsLeast};
ghost use Rattle.tool_faults.specs.Status.{status_of};

use lc_model::SUBSECONDS;
use run_page::Part;
use text_lines::{decimal_number, split_digits};
use tool_faults::Fault;

/// The options of a page, as written.
#[derive(Clone, Copy)]
pub struct PageTimes<'a> {
    /// The instant of second 0.
    pub epoch: Option<&'a str>,
    /// The seconds from which on records are shown.
    pub from: Option<&'a str>,
    /// The seconds before which records are shown.
    pub until: Option<&'a str>,
}

/// The parts of a second that a listing counts.
const PARTS: u64 = 100_000;

/// One to five digits after the point, in 1/100,000 s.
fn parts_of(digits: &[u8]) -> Option<u64>
    ensures { IfSome result (λ parts. parts < 100_000) }
{
    match digits.len() {
        1 => Some(decimal_number(1, digits)? * 10_000),
        2 => Some(decimal_number(2, digits)? * 1_000),
        3 => Some(decimal_number(3, digits)? * 100),
        4 => Some(decimal_number(4, digits)? * 10),
        _ => decimal_number(5, digits),
    }
}

/// The least time, in 1/65,536 s, at which a listing prints at least these seconds and 1/100,000 s.
fn least_ticks(seconds: u64, parts: u64) -> u64
    requires seconds { seconds < 2 ^ 32 }
    requires parts { parts < 100_000 }
    ensures { IsLeast seconds parts result }
{
    let ticks = u64::from(SUBSECONDS);
    seconds * ticks + (parts * ticks + PARTS - 1) / PARTS
}

/// The time of a word of an option: `104`, `104.5` or `104.00000`, below 2^32 s.
fn ticks_of(word: &[u8]) -> Option<u64> {
    let (whole, rest) = split_digits(word);
    let seconds = decimal_number(10, whole)?;
    let parts = match rest.split_first() {
        None => 0,
        Some((b'.', digits)) => parts_of(digits)?,
        Some(_) => return None,
    };
    if seconds > u64::from(u32::MAX) {
        return None;
    }
    Some(least_ticks(seconds, parts))
}

/// The time of an option, if it is given. Error: `Value` if its word is none.
fn time_of<'a>(option: &'static str, word: Option<&'a str>) -> Result<Option<u64>, Fault<'a>>
    ensures refused { IfErr result (λ fault. status_of fault ≡ 2) }
    ensures none { word.entry ≡ None → result ≡ Ok None }
{
    match word {
        None => Ok(None),
        Some(word) => match ticks_of(word.as_bytes()) {
            Some(ticks) => Ok(Some(ticks)),
            None => Err(Fault::Value(option, word, "write seconds, for example 104 or 104.00000")),
        },
    }
}

/// The part of a run that is shown. Errors: `Value` if a word names no time, or the part ends before it begins.
pub fn part_of<'a>(times: PageTimes<'a>) -> Result<Part, Fault<'a>>
    ensures refused { IfErr result (λ fault. status_of fault ≡ 2) }
    ensures whole { times.entry.from ≡ None → times.entry.until ≡ None →
        result ≡ Ok (record { from = None; until = None }) }
    ensures ordered { IfOk result
        (λ part. IfSome part.from (λ from. IfSome part.until (λ until. from < until))) }
{
    let from = time_of("--from", times.from)?;
    let until = time_of("--until", times.until)?;
    match (from, until) {
        (Some(begin), Some(end)) if end <= begin => {
            let word = times.until.unwrap_or("");
            Err(Fault::Value("--until", word, "write a later second than that of --from"))
        }
        _ => Ok(Part { from, until }),
    }
}
