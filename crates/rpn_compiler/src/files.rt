//! The files of the two tables of a text.

ghost use Rattle.std.specs.Prelude.{◌≡◌, ◌≤◌, length, IfErr, IfOk};
ghost use Rattle.std.specs.List.{AllByRecursion};
ghost use Rattle.lc_model.specs.Codes.{table_entries};
ghost use Rattle.lc_model.specs.declared.kind.Kind.TheVariants as kinds;
ghost use Rattle.lc_model.specs.Tables.Compiling.{Compiles};
ghost use Rattle.lc_model.specs.Tables.InForce.{limits};
ghost use Rattle.lc_model.specs.Tables.File.{file_bytes, wrapped};
ghost use Rattle.lc_model.specs.Tables.Image.{FitsEntry, FitsWatchpoint, adt_image, wdt_image};
ghost use Rattle.table_file.specs.Layout.{layout_of_version};
ghost use Rattle.rpn_compiler.specs.declared.error.CompileError.TheVariants.{Memory};
ghost use Rattle.rpn_compiler.specs.Lowered.{IsLowered};
ghost use Rattle.rpn_compiler.specs.Pair.{AreTables};

use crate::error::CompileError;
use crate::images::entries;
use crate::lowered::Lowered;
use lc_model::{Kind, RuleSet};
use sha2::{Digest, Sha256};
use std::alloc::Global;
use table_file::{AdtImage, AdtVersion, WdtImage, encode_adt, encode_wdt, wrap};

/// The two tables of a rule text, each a complete file: a cFE file header (64 bytes), a table header (52 bytes) and the
/// image.
#[derive(Debug, Drop)]
pub struct TablePair {
    /// The file of the table of watchpoints, 4,380 bytes.
    pub wdt: Vec<u8>,
    /// The file of the table of actionpoints, of version 2: 19,516 bytes.
    pub adt: Vec<u8>,
    /// The number of used entries of the WDT, at most 176.
    pub watchpoints: u16,
    /// The number of used entries of the ADT, at most 176.
    pub rules: u16,
}

/// The file of a table of watchpoints. The error is a lack of memory.
fn wdt_file(alloc: Global, image: &WdtImage) -> Result<Vec<u8>, CompileError>
    requires few { length image.now.watchpoints.items ≤ table_entries }
    requires fit { AllByRecursion FitsWatchpoint image.now.watchpoints.items }
    ensures file { IfOk result
        (λ file. file.items ≡
        file_bytes (wrapped kinds.Wdt (wdt_image image.now.hash image.now.watchpoints.items))) }
    ensures refused { IfErr result (λ error. error ≡ Memory) }
{
    let bytes = encode_wdt(alloc, image).map_err(|_| CompileError::Memory)?;
    wrap(alloc, Kind::Wdt, bytes.as_slice()).map_err(|_| CompileError::Memory)
}

/// The file of a table of actionpoints. The error is a lack of memory.
fn adt_file(alloc: Global, image: &AdtImage) -> Result<Vec<u8>, CompileError>
    requires few { length image.now.actionpoints.items ≤ table_entries }
    requires fit { AllByRecursion (FitsEntry (layout_of_version image.now.version))
        image.now.actionpoints.items }
    ensures file { IfOk result (λ file. file.items ≡ file_bytes (wrapped kinds.Adt
        (adt_image (layout_of_version image.now.version) image.now.hash image.now.watchpoint_count
        image.now.actionpoints.items))) }
    ensures refused { IfErr result (λ error. error ≡ Memory) }
{
    let bytes = encode_adt(alloc, image).map_err(|_| CompileError::Memory)?;
    wrap(alloc, Kind::Adt, bytes.as_slice()).map_err(|_| CompileError::Memory)
}

/// The files of the two tables for the lowered rules of a text.
pub fn files(
    alloc: Global,
    text: &[u8],
    rules: &RuleSet,
    lowered: Lowered,
) -> Result<TablePair, CompileError>
    requires compiles { Compiles limits text.now rules.now.rules }
    requires lowered { IsLowered rules.now.rules lowered }
    ensures tables { IfOk result (AreTables text.now rules.now.rules) }
    ensures refused { IfErr result (λ error. error ≡ Memory) }
{
    let hash = Sha256::digest(text);
    let Lowered { terms, words } = lowered;
    let actionpoints = entries(alloc, rules.rules.as_slice(), words)?;
    let watchpoint_count = terms.len() as u16;
    let rule_count = actionpoints.len() as u16;
    let wdt = WdtImage {
        hash,
        watchpoints: terms,
    };
    let adt = AdtImage {
        version: AdtVersion::Two,
        hash,
        watchpoint_count,
        actionpoints,
    };
    Ok(TablePair {
        wdt: wdt_file(alloc, &wdt)?,
        adt: adt_file(alloc, &adt)?,
        watchpoints: watchpoint_count,
        rules: rule_count,
    })
}
