//! The validator's public call, and the type of images that have passed it.

ghost use Rattle.std.specs.Prelude.{◌≡◌, ◌<◌, IfOk};
ghost use Rattle.lc_model.specs.declared.kind.Kind.TheVariants.{Wdt, Adt};
ghost use Rattle.lc_model.specs.Tables.Image.{Watchpoints, IsSound, entry_at, fault_of, own_count, watchpoint_count};
ghost use Rattle.lc_model.specs.Tables.InForce.{layouts};
ghost use Rattle.table_validator.specs.Fault.{refusal};
ghost use Rattle.table_validator.specs.Sound.{adt_layout, HasSoundActionpoints, HasSoundWatchpoints, IsSoundActionpoint, IsSoundWatchpoint};

use crate::entry::entry_fault;
use crate::fault::{FaultCode, TableFault};
use crate::preamble::preamble_fault;
use lc_model::{Kind, TABLE_ENTRIES};
use std::marker::Model;
use table_file::{ActionpointEntry, Layout, WatchpointEntry};

/// A sound image, borrowed from the caller's bytes. Contracts see its kind and its bytes.
#[derive(Debug, Drop)]
pub struct ValidImage<'a> {
    layout: Layout,
    bytes: &'a [u8],
}

impl<'a> Model for ValidImage<'a> {
    ghost use Rattle.std.specs.Prelude.{◌≡◌, Some};
    ghost use Rattle.lc_model.specs.Tables.Image as model;
    ghost use Rattle.lc_model.specs.Tables.Image.{IsSound, kind_of};
    ghost use Rattle.lc_model.specs.Tables.InForce.{layouts};
    ghost use Rattle.table_file.specs.Layout.{layout_of};
    ghost use Rattle.table_validator.specs.Sound.{TableImage};

    ghost Value = { TableImage };

    ghost view = { λ v. record { kind = kind_of (layout_of v.layout); bytes = v.bytes.now } };

    ghost invariant = { λ v. IsSound layouts (kind_of (layout_of v.layout)) v.bytes.now
        × (model.layout_of layouts (kind_of (layout_of v.layout)) v.bytes.now ≡
        Some (layout_of v.layout)) };
}

impl<'a> ValidImage<'a> {
    /// Returns the kind of the image's table.
    pub fn kind(&self) -> Kind
        ensures { result ≡ self.now.kind }
    {
        self.layout.kind()
    }

    /// Returns the image's bytes as they were passed in, for the readers of `table_file`. Each used watchpoint has a
    /// valid type, comparison, message id, mask and value. Each used actionpoint has an equation that can be evaluated
    /// without further tests: known words, no operand missing, at most eight waiting.
    pub fn image(&self) -> &'a [u8]
        ensures bytes { result.now ≡ self.now.bytes }
        ensures sound { IsSound layouts self.now.kind self.now.bytes }
        ensures watchpoints { self.now.kind ≡ Wdt → HasSoundWatchpoints self.now.bytes }
        ensures actionpoints { self.now.kind ≡ Adt → HasSoundActionpoints self.now.bytes }
    {
        self.bytes
    }

    /// Returns the watchpoint entry `number`, counted from 0, of a watchpoint table. The entry must be used.
    pub fn watchpoint(&self, number: usize) -> WatchpointEntry<'a>
        requires kind { self.now.kind ≡ Wdt }
        requires used { number < own_count self.now.bytes }
        ensures entry { result ≡ entry_at Watchpoints self.now.bytes number }
        ensures sound { IsSoundWatchpoint result }
    {
        WatchpointEntry::of(self.image(), number)
    }

    /// Returns the actionpoint entry `number`, counted from 0, of an actionpoint table. The entry must be used.
    pub fn actionpoint(&self, number: usize) -> ActionpointEntry<'a>
        requires kind { self.now.kind ≡ Adt }
        requires used { number < own_count self.now.bytes }
        ensures entry { result ≡ entry_at (adt_layout self.now.bytes) self.now.bytes number }
        ensures sound { IsSoundActionpoint (watchpoint_count self.now.bytes) result }
    {
        ActionpointEntry::of(self.layout, self.image(), number)
    }
}

/// Returns an image that is known to be sound, without judging it again: only its length is read.
pub fn judged_before(kind: Kind, image: &[u8]) -> ValidImage<'_>
    requires sound { IsSound layouts kind image.now }
    ensures lends { result ≡ record { kind = kind; bytes = image.now } }
{
    ValidImage {
        layout: Layout::of_image(kind, image).unwrap(),
        bytes: image,
    }
}

/// Judges a table image; each entry is read once, without allocation. Sizes in bytes: 4,264 for watchpoints, 15,176 or
/// 19,400 for actionpoints (versions 1 and 2). The error is the image's one fault: length, version, kind, counts, then
/// the first entry with a fault, by its least code. Layout and codes: docs/FORMATS.md, this project's own.
pub fn validate(kind: Kind, image: &[u8]) -> Result<ValidImage<'_>, TableFault>
    // The result is the one that the definitions give for the image.
    ensures exact { refusal result ≡ fault_of layouts kind image.now }
    // A valid image is lent unchanged.
    ensures lends { IfOk result (λ valid. valid ≡ record { kind = kind; bytes = image.now }) }
{
    let Some(layout) = Layout::of_image(kind, image) else {
        return Err(TableFault::of_image(FaultCode::WrongSize));
    };
    if let Some(code) = preamble_fault(layout, image) {
        return Err(TableFault::of_image(code));
    }
    for number in 0..TABLE_ENTRIES {
        if let Some(code) = entry_fault(layout, image, number) {
            return Err(TableFault {
                code,
                entry: number as u16,
            });
        }
    }
    Ok(ValidImage {
        layout,
        bytes: image,
    })
}
