//! Images, entries and slots: each reader and each move by its name.

ghost use Rattle.std.specs.Prelude.{◌≡◌, ◌≤◌, length, IsTrue, is_some, IsSomeAnd};
ghost use Rattle.std.specs.List.{AllByRecursion};
ghost use Rattle.lc_model.specs.Codes.{table_entries};
ghost use Rattle.lc_model.specs.Services.Tables.{fits_at, slot_at, stored_image, table_at};
ghost use Rattle.lc_model.specs.Tables.Slot.{Activated, Asked, waiting_at};
ghost use Rattle.lc_model.specs.Tables.Image.{FitsEntry, FitsWatchpoint};
ghost use Rattle.table_file.specs.Layout.{layout_of_version};

use lc_model::{FieldType, Kind};
use std::alloc::Global;
use table_file::{
    ActionpointEntry, AdtImage, AdtVersion, FileError, TableFile, WatchpointEntry, WdtImage,
    encode_adt, encode_wdt,
};
use table_validator::{TableFault, ValidImage, validate};
use tbl_service::{Slot, Stage, Tables};

/// The image of these watchpoints. Conditions: at most 176, each of which fits its entry.
pub fn watchpoint_image(alloc: Global, image: &WdtImage) -> Result<Vec<u8>, FileError>
    requires few { length image.now.watchpoints.items ≤ table_entries }
    requires fit { AllByRecursion FitsWatchpoint image.now.watchpoints.items }
{
    encode_wdt(alloc, image)
}

/// The image of these actionpoints. Conditions: at most 176, each of which fits its entry.
pub fn actionpoint_image(alloc: Global, image: &AdtImage) -> Result<Vec<u8>, FileError>
    requires few { length image.now.actionpoints.items ≤ table_entries }
    requires fit { AllByRecursion (FitsEntry (layout_of_version image.now.version))
        image.now.actionpoints.items }
{
    encode_adt(alloc, image)
}

/// The numbers of both headers.
pub fn header_numbers(file: &TableFile<'_>) -> [u32; 11] {
    [
        file.content_type(),
        file.subtype(),
        file.header_length(),
        file.spacecraft(),
        file.processor(),
        file.application(),
        file.seconds(),
        file.subseconds(),
        file.reserved(),
        file.offset(),
        file.number_of_bytes(),
    ]
}

/// The texts of both headers.
pub fn header_texts<'a>(file: &TableFile<'a>) -> (&'a [u8], &'a [u8]) {
    (file.description(), file.name())
}

/// The numbers of an entry of watchpoints.
pub fn watchpoint_numbers(entry: &WatchpointEntry<'_>) -> [u32; 7] {
    [
        entry.type_code() as u32,
        entry.operator_code() as u32,
        entry.message_id() as u32,
        entry.offset(),
        entry.mask(),
        entry.stale(),
        entry.value_bits(),
    ]
}

/// The comparison value of an entry, read as this type.
pub fn comparison_value(entry: &WatchpointEntry<'_>, kind: FieldType) -> i64 {
    entry.value(kind)
}

/// The numbers of an entry of actionpoints.
pub fn actionpoint_numbers(entry: &ActionpointEntry<'_>) -> [u16; 5] {
    [
        entry.state_code() as u16,
        entry.sequence(),
        entry.fails(),
        entry.event_code(),
        entry.event_id(),
    ]
}

/// The version of actionpoint tables with this number, and its number again.
pub fn version_numbered(number: u16) -> Option<u16> {
    AdtVersion::numbered(number).map(|version| version.number())
}

/// The number of an image's fault and its entry, or nothing.
pub fn fault_of(kind: Kind, image: &[u8]) -> Option<(u8, u16)> {
    let judged: Result<ValidImage<'_>, TableFault> = validate(kind, image);
    judged.err().map(|fault| (fault.code.number(), fault.entry))
}

/// The image that waits at a registered slot, and its state.
pub fn waiting(tables: &Tables, slot: Slot) -> Option<(Stage, &[u8])>
    requires { IsTrue (is_some (table_at slot tables.now.places)) }
{
    tables.pending(slot)
}

/// The image in use at a registered slot.
pub fn in_use(tables: &Tables, slot: Slot) -> Option<&[u8]>
    requires { IsTrue (is_some (table_at slot tables.now.places)) }
{
    tables.active(slot)
}

/// The owner's verdict. Conditions: the slot is registered, and the owner is asked.
pub fn judge(tables: &mut Tables, slot: Slot, valid: bool)
    requires registered { IsTrue (is_some (table_at slot tables.old.places)) }
    requires asked { IsTrue (is_some (waiting_at Asked (slot_at slot tables.old))) }
{
    tables.set_verdict(slot, valid);
}

/// The waiting image comes into use. Conditions: the slot is registered, and its image activated.
pub fn take(tables: &mut Tables, slot: Slot)
    requires registered { IsTrue (is_some (table_at slot tables.old.places)) }
    requires activated { IsTrue (is_some (waiting_at Activated (slot_at slot tables.old))) }
{
    tables.take(slot);
}

/// A file's image comes into use. Conditions: the slot is registered, the file opens, and its image has one of the table's sizes.
pub fn install(tables: &mut Tables, slot: Slot, file: &[u8])
    requires registered { IsTrue (is_some (table_at slot tables.old.places)) }
    requires fits { IsSomeAnd (stored_image file.now tables.old)
        (λ image. IsTrue (fits_at slot tables.old image)) }
{
    tables.install(slot, file);
}
