//! Lists a whole table file.

ghost use Rattle.std.specs.Prelude.{ℕ, ◌≡◌, ◌<◌, ◌≤◌, ◌++◌, true, IfOk, OnOk, codes};
ghost use Rattle.std.specs.Io.KnownBytes.{Appends};
ghost use Rattle.lc_model.specs.Codes.{table_entries};
ghost use Rattle.lc_model.specs.declared.kind.Kind.TheVariants.{Wdt, Adt};
ghost use Rattle.lc_model.specs.Tables.File.{opened};
ghost use Rattle.lc_model.specs.Tables.Image.{Watchpoints, all_words, entry_at, own_count, words_before_equal};
ghost use Rattle.lc_model.specs.Tables.Spelled.{spelled_term};
ghost use Rattle.table_validator.specs.Sound.{HasSoundActionpoints, IsSoundEquation, adt_layout};
ghost use Rattle.table_listing.specs.Formula.{IsTreeOf, formula_of};
ghost use Rattle.table_listing.specs.Judged.{is_sound_file, is_sound_image};
ghost use Rattle.table_listing.specs.Lines as line;
ghost use Rattle.table_listing.specs.Listed.{Adds, AreEntriesListed, IsActionpointListed, IsFileListed, IsImageListed, headers_shown, preamble_shown};

use crate::decompiler::decompile;
use crate::equation::Equation;
use crate::error::ListingError;
use crate::headers::{FileLine, PreambleLines, TableLine};
use crate::judged::{FaultLine, PREAMBLE, RefusalLine, kind_of_image};
use crate::lines::{ActionpointLine, WatchpointLine};
use lc_model::Kind;
use std::alloc::{AllocError, Global};
use std::io::Write;
use table_file::{ActionpointEntry, TableFile, preamble};
use table_validator::{ValidImage, validate};

/// The words of an entry's equation before EQUAL.
fn words_of(alloc: Global, entry: &ActionpointEntry) -> Result<Vec<u16>, AllocError>
    ensures { IfOk result (λ words. words.items ≡ words_before_equal (all_words entry.now)) }
{
    let mut words = Vec::new(alloc);
    for number in 0..entry.equation_length() {
        words.push(entry.word(number))?;
    }
    Ok(words)
}

/// The condition that an entry's equation spells.
fn condition_of(alloc: Global, entry: &ActionpointEntry) -> Result<Equation, AllocError>
    requires { (count : ℕ) × (count ≤ table_entries) ×
        IsSoundEquation count (words_before_equal (all_words entry.now)) }
    ensures { IfOk result
        (λ condition. IsTreeOf (words_before_equal (all_words entry.now)) (formula_of condition)) }
{
    let words = words_of(alloc, entry)?;
    decompile(alloc, words.as_slice())
}

/// Writes the line of a watchpoint.
fn list_watchpoint<W: Write>(
    valid: &ValidImage,
    number: u16,
    out: &mut W,
) -> Result<(), ListingError>
    requires kind { valid.now.kind ≡ Wdt }
    requires used { number < own_count valid.now.bytes }
    ensures { OnOk result (Appends (W.contents out.old) (W.contents out.new)
        (line.watchpoint_line number (spelled_term (entry_at Watchpoints valid.now.bytes number)) ++
        codes "\n")) }
{
    let term = valid.watchpoint(usize::from(number)).term();
    writeln!(out, "{}", WatchpointLine { number, term })?;
    Ok(())
}

/// Writes the line of an actionpoint.
fn list_actionpoint<W: Write>(
    alloc: Global,
    valid: &ValidImage,
    number: u16,
    out: &mut W,
) -> Result<(), ListingError>
    requires kind { valid.now.kind ≡ Adt }
    requires used { number < own_count valid.now.bytes }
    requires sound { HasSoundActionpoints valid.now.bytes }
    ensures { OnOk result
        (Adds (IsActionpointListed (entry_at (adt_layout valid.now.bytes) valid.now.bytes number)
        number) (W.contents out.old) (W.contents out.new)) }
{
    let entry = valid.actionpoint(usize::from(number));
    let condition = condition_of(alloc, &entry)?;
    let line = ActionpointLine {
        number,
        mode: entry.mode(),
        fails: entry.fails(),
        sequence: entry.sequence(),
        event_kind: entry.event_kind(),
        event_id: entry.event_id(),
        text: entry.text(),
        report: entry.report(),
        condition: &condition,
    };
    writeln!(out, "{line}")?;
    Ok(())
}

/// Writes the lines of all used entries of a watchpoint image.
fn list_watchpoints<W: Write>(valid: &ValidImage, out: &mut W) -> Result<(), ListingError>
    requires kind { valid.now.kind ≡ Wdt }
    ensures { OnOk result
        (Adds (AreEntriesListed Wdt valid.now.bytes) (W.contents out.old) (W.contents out.new)) }
{
    for number in 0..preamble::own_count(valid.image()) {
        list_watchpoint(valid, number, out)?;
    }
    Ok(())
}

/// Writes the lines of all used entries of an actionpoint image.
fn list_actionpoints<W: Write>(
    alloc: Global,
    valid: &ValidImage,
    out: &mut W,
) -> Result<(), ListingError>
    requires kind { valid.now.kind ≡ Adt }
    ensures { OnOk result
        (Adds (AreEntriesListed Adt valid.now.bytes) (W.contents out.old) (W.contents out.new)) }
{
    for number in 0..preamble::own_count(valid.image()) {
        list_actionpoint(alloc, valid, number, out)?;
    }
    Ok(())
}

/// Writes the lines of all used entries of an image.
fn list_entries<W: Write>(
    alloc: Global,
    valid: &ValidImage,
    out: &mut W,
) -> Result<(), ListingError>
    ensures { OnOk result
        (Adds (AreEntriesListed valid.now.kind valid.now.bytes) (W.contents out.old)
        (W.contents out.new)) }
{
    match valid.kind() {
        Kind::Wdt => list_watchpoints(valid, out),
        Kind::Adt => list_actionpoints(alloc, valid, out),
    }
}

/// Writes the lines of a file's two headers.
fn list_headers<W: Write>(file: &TableFile, out: &mut W) -> Result<(), ListingError>
    ensures { OnOk result
        (Appends (W.contents out.old) (W.contents out.new) (headers_shown file.now)) }
{
    writeln!(out, "{}", FileLine::of(file))?;
    writeln!(out, "{}", TableLine::of(file))?;
    Ok(())
}

/// Writes the lines of an image's preamble, if the image is long enough to have one.
fn list_preamble<W: Write>(image: &[u8], out: &mut W) -> Result<(), ListingError>
    ensures { OnOk result
        (Appends (W.contents out.old) (W.contents out.new) (preamble_shown image.now)) }
{
    if image.len() < PREAMBLE {
        return Ok(());
    }
    writeln!(out, "{}", PreambleLines::of(image))?;
    Ok(())
}

/// Writes an image's preamble, and then its entries or its fault; returns whether the image is sound.
fn list_image<W: Write>(alloc: Global, image: &[u8], out: &mut W) -> Result<bool, ListingError>
    ensures judged { IfOk result (λ sound. sound ≡ is_sound_image image.now) }
    ensures listed { IfOk result (λ sound. sound ≡ true →
        Adds (IsImageListed image.now) (W.contents out.old) (W.contents out.new)) }
{
    list_preamble(image, out)?;
    match validate(kind_of_image(image), image) {
        Ok(valid) => {
            list_entries(alloc, &valid, out)?;
            Ok(true)
        }
        Err(fault) => {
            writeln!(out, "{}", FaultLine(fault))?;
            Ok(false)
        }
    }
}

/// Lists a table file: headers, preamble and a line for each used entry (docs/TOOLS.md), or a last line with its fault.
/// Returns whether the file is sound. A kind other than 1 or 2 is judged by the image's length. Errors: `Memory`, or
/// `Write` if the writer refuses bytes; earlier lines stay written.
pub fn list_table<W: Write>(alloc: Global, file: &[u8], out: &mut W) -> Result<bool, ListingError>
    ensures judged { IfOk result (λ sound. sound ≡ is_sound_file file.now) }
    ensures listed { IfOk result (λ sound. sound ≡ true →
        Adds (IsFileListed (opened file.now)) (W.contents out.old) (W.contents out.new)) }
{
    match table_file::open(file) {
        Ok(file) => {
            list_headers(&file, out)?;
            list_image(alloc, file.image(), out)
        }
        Err(error) => {
            writeln!(out, "{}", RefusalLine(error))?;
            Ok(false)
        }
    }
}
