//! Images as bytes (this project's own layouts).

ghost use Rattle.std.specs.Prelude.{◌≡◌, ◌≤◌, ◌<◌, ◌++◌, [], ◌∷◌, length, IfErr, IfOk, IsTrue, OnOk, replicate};
ghost use Rattle.std.specs.List.{AllByRecursion, flat_map};
ghost use Rattle.lc_model.specs.Codes.{rule_text_size, table_entries};
ghost use Rattle.lc_model.specs.Bytes.{u16, zero_filled};
ghost use Rattle.lc_model.specs.Tables.Image.{Watchpoints, image_length, FitsWatchpoint, FitsEntry, preamble, blank_entry, term_bytes, entry_bytes, bits_32, fits_32_bits, wdt_image, adt_image, words_in};
ghost use Rattle.lc_model.specs.Tables.Equation.{equal_word};
ghost use Rattle.table_file.specs.Layout.{layout_of, layout_of_version};
ghost use Rattle.table_file.specs.Parts.{entry_numbers};
ghost use Rattle.table_file.specs.declared.error.FileError.TheVariants.{Memory};

use crate::error::FileError;
use crate::image::{AdtImage, TableEntry, WdtImage};
use crate::layout::Layout;
use crate::output::{push_u16, push_u32, push_words, push_zeros};
use lc_model::equation_words::EQUAL;
use lc_model::{TABLE_ENTRIES, Term};
use std::alloc::{AllocError, Global};

/// A comparison's number in 32 bits, in two's complement.
fn value_bits(term: &Term) -> u32
    requires { IsTrue (fits_32_bits term.now.kind term.now.value) }
    ensures { result ≡ bits_32 term.now.value }
{
    if term.value < 0 {
        (term.value + 0x1_0000_0000) as u32
    } else {
        term.value as u32
    }
}

/// Version, kind, counts and hash.
fn push_preamble(
    out: &mut Vec<u8>,
    layout: Layout,
    own_count: u16,
    watchpoint_count: u16,
    hash: &[u8; 32],
) -> Result<(), AllocError>
    ensures { OnOk result
        (out.new.items ≡ out.old.items ++ preamble (layout_of layout) own_count watchpoint_count
        hash.now) }
{
    push_u16(out, layout.version())?;
    push_u16(out, layout.kind().code())?;
    push_u16(out, own_count)?;
    push_u16(out, watchpoint_count)?;
    out.extend_from_slice(hash)?;
    Ok(())
}

/// A watchpoint's entry.
fn push_watchpoint(out: &mut Vec<u8>, term: &Term) -> Result<(), AllocError>
    requires { FitsWatchpoint term.now }
    ensures { OnOk result (out.new.items ≡ out.old.items ++ term_bytes term.now) }
{
    out.push(term.kind.code())?;
    out.push(term.op.code())?;
    push_u16(out, term.mid)?;
    push_u32(out, term.offset)?;
    push_u32(out, term.mask)?;
    push_u32(out, 0)?;
    push_u32(out, term.stale)?;
    push_u32(out, value_bits(term))?;
    Ok(())
}

/// An actionpoint's numbers, which stand before its text.
fn push_numbers(out: &mut Vec<u8>, entry: &TableEntry) -> Result<(), AllocError>
    ensures { OnOk result (out.new.items ≡ out.old.items ++ entry_numbers entry.now) }
{
    out.push(entry.mode.code())?;
    out.push(entry.report.passive)?;
    push_u16(out, entry.report.pass_to_fail)?;
    push_u16(out, entry.report.fail_to_pass)?;
    push_u16(out, entry.sequence)?;
    push_u16(out, entry.fails)?;
    push_u16(out, entry.event_kind.code())?;
    push_u16(out, entry.event_id)?;
    Ok(())
}

/// An event's text, filled up by zeros to 32 bytes.
fn push_text(out: &mut Vec<u8>, text: &[u8]) -> Result<(), AllocError>
    requires { length text.now ≤ rule_text_size }
    ensures { OnOk result (out.new.items ≡ out.old.items ++ zero_filled rule_text_size text.now) }
{
    out.extend_from_slice(text)?;
    push_zeros(out, 32 - text.len())?;
    Ok(())
}

/// An equation and EQUAL, filled up by zeros to the layout's words.
fn push_equation(out: &mut Vec<u8>, layout: Layout, words: &[u16]) -> Result<(), AllocError>
    requires { length words.now < words_in (layout_of layout) }
    ensures { OnOk result (out.new.items ≡ out.old.items
        ++ flat_map u16 (zero_filled (words_in (layout_of layout))
        (words.now ++ equal_word ∷ []))) }
{
    push_words(out, words)?;
    push_u16(out, EQUAL)?;
    push_zeros(out, 2 * (layout.words() - words.len() - 1))?;
    Ok(())
}

/// An actionpoint's entry.
fn push_actionpoint(out: &mut Vec<u8>, layout: Layout, entry: &TableEntry) -> Result<(), AllocError>
    requires { FitsEntry (layout_of layout) entry.now }
    ensures { OnOk result
        (out.new.items ≡ out.old.items ++ entry_bytes (layout_of layout) entry.now) }
{
    push_numbers(out, entry)?;
    push_text(out, entry.text.as_slice())?;
    push_equation(out, layout, entry.words.as_slice())?;
    Ok(())
}

/// Entries that aren't used.
fn push_blank_entries(out: &mut Vec<u8>, layout: Layout, count: usize) -> Result<(), AllocError>
    ensures { OnOk result
        (out.new.items ≡ out.old.items ++ flat_map (λ e. e)
        (replicate count (blank_entry (layout_of layout)))) }
{
    for _ in 0..count {
        out.push(0xFF)?;
        push_zeros(out, layout.entry_length() - 1)?;
    }
    Ok(())
}

/// The entries of watchpoints, and blank ones up to the end.
fn push_watchpoints(out: &mut Vec<u8>, terms: &[Term]) -> Result<(), AllocError>
    requires { AllByRecursion FitsWatchpoint terms.now }
    ensures { OnOk result (out.new.items ≡ out.old.items ++ flat_map term_bytes terms.now) }
{
    for term in terms {
        push_watchpoint(out, term)?;
    }
    Ok(())
}

/// The entries of actionpoints, in order.
fn push_actionpoints(
    out: &mut Vec<u8>,
    layout: Layout,
    entries: &[TableEntry],
) -> Result<(), AllocError>
    requires { AllByRecursion (FitsEntry (layout_of layout)) entries.now }
    ensures { OnOk result
        (out.new.items ≡ out.old.items ++ flat_map (entry_bytes (layout_of layout)) entries.now) }
{
    for entry in entries {
        push_actionpoint(out, layout, entry)?;
    }
    Ok(())
}

/// The image of a table of watchpoints, 4,264 bytes. Conditions: at most 176 watchpoints, each with a comparison value that
/// fits 32 bits, signed or unsigned like its type; it need not be in the type's range.
///
/// Errors: `Memory` alone.
pub fn encode_wdt(alloc: Global, image: &WdtImage) -> Result<Vec<u8>, FileError>
    requires few { length image.now.watchpoints.items ≤ table_entries }
    requires fit { AllByRecursion FitsWatchpoint image.now.watchpoints.items }
    ensures bytes { IfOk result
        (λ bytes. bytes.items ≡ wdt_image image.now.hash image.now.watchpoints.items) }
    ensures length { IfOk result (λ bytes. length bytes.items ≡ image_length Watchpoints) }
    ensures refused { IfErr result (λ error. error ≡ Memory) }
{
    let layout = Layout::Watchpoints;
    let terms = image.watchpoints.as_slice();
    let count = terms.len() as u16;
    let mut out = Vec::with_capacity(alloc, layout.image_length())?;
    push_preamble(&mut out, layout, count, count, &image.hash)?;
    push_watchpoints(&mut out, terms)?;
    push_blank_entries(&mut out, layout, TABLE_ENTRIES - terms.len())?;
    Ok(out)
}

/// The image of a table of actionpoints: 15,176 bytes of version 1, or 19,400 of version 2. Conditions: at most 176 entries,
/// each with at most 31 bytes of text, none of them zero, and at most 19 words in version 1, or 31 in version 2, of any values.
/// Readers take the first EQUAL for an equation's end.
///
/// Errors: `Memory` alone.
pub fn encode_adt(alloc: Global, image: &AdtImage) -> Result<Vec<u8>, FileError>
    requires few { length image.now.actionpoints.items ≤ table_entries }
    requires fit { AllByRecursion (FitsEntry (layout_of_version image.now.version))
        image.now.actionpoints.items }
    ensures bytes { IfOk result (λ bytes. bytes.items
        ≡ adt_image (layout_of_version image.now.version) image.now.hash image.now.watchpoint_count
        image.now.actionpoints.items) }
    ensures length { IfOk result
        (λ bytes. length bytes.items ≡ image_length (layout_of_version image.now.version)) }
    ensures refused { IfErr result (λ error. error ≡ Memory) }
{
    let layout = image.version.layout();
    let entries = image.actionpoints.as_slice();
    let count = entries.len() as u16;
    let mut out = Vec::with_capacity(alloc, layout.image_length())?;
    push_preamble(&mut out, layout, count, image.watchpoint_count, &image.hash)?;
    push_actionpoints(&mut out, layout, entries)?;
    push_blank_entries(&mut out, layout, TABLE_ENTRIES - entries.len())?;
    Ok(out)
}
