//! Lists records and packets in the form that the words ask for: text or rows.

ghost use Rattle.std.specs.Prelude.{◌≡◌, ◌&&◌, ◌||◌, is_ok, not};

use crate::listing;
use crate::rows::{self, ONE_OF_TWO, rows_of};
use flight_tools_args::RowWords;
use packet_listing::rules_of_texts;
use scenarios::declared_in;
use std::fs::Files;
use std::io::Write;
use tool_faults::{Fault, rule_texts_of, texts_in};

/// Checks that a script isn't asked for beside rows. Error: `Value` if it is.
fn check_whole<'a>(whole: bool, form: RowWords<'a>) -> Result<(), Fault<'a>>
    ensures { is_ok result ≡ not (whole && (form.entry.csv || form.entry.json)) }
{
    match (whole, form.csv, form.json) {
        (true, true, _) => Err(Fault::Value("--whole", "--csv", ONE_OF_TWO)),
        (true, false, true) => Err(Fault::Value("--whole", "--json", ONE_OF_TWO)),
        _ => Ok(()),
    }
}

/// Lists the records of a stream as text, as a script if `whole`, or as rows; commands are in words, with the names of these
/// rule texts. Errors: `Value` for a script and rows at once; if the stream ends early, `Early` for text, and `Stream` with the place for
/// rows.
pub fn stream<'a, R: Files + AllocGlobal, W: Write>(
    rt: &R,
    file: &'a str,
    rules: &[&'a str],
    whole: bool,
    form: RowWords<'a>,
    out: &mut W,
) -> Result<(), Fault<'a>> {
    let rows = rows_of(form)?;
    check_whole(whole, form)?;
    let bytes = texts_in(rt, rules)?;
    let texts = rule_texts_of(rt.alloc(), rules, bytes.as_slice())?;
    let declared = declared_in(rt.alloc(), texts.as_slice())?;
    match rows {
        Some(rows) => rows::records(rt, file, &rows, &declared, out),
        None => listing::stream(rt, file, whole, &declared, out),
    }
}

/// Lists the packets of a file as text or as rows, with the names of these rule texts. Errors if bytes follow the last whole packet:
/// `Early` for text, `Packets` with the place for rows.
pub fn packets<'a, R: Files + AllocGlobal, W: Write>(
    rt: &R,
    file: &'a str,
    rules: &[&'a str],
    form: RowWords<'a>,
    out: &mut W,
) -> Result<(), Fault<'a>> {
    let rows = rows_of(form)?;
    let bytes = texts_in(rt, rules)?;
    let texts = rule_texts_of(rt.alloc(), rules, bytes.as_slice())?;
    let names = rules_of_texts(rt.alloc(), texts.as_slice())?;
    match rows {
        Some(rows) => rows::packets(rt, file, &rows, names.as_slice(), out),
        None => listing::packets(rt, file, names.as_slice(), out),
    }
}
