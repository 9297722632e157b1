//! The faults of an image's entries, used or unused.

ghost use Rattle.std.specs.Prelude.{◌≡◌, ◌<◌, length, option_map};
ghost use Rattle.lc_model.specs.Codes.{table_entries};
ghost use Rattle.lc_model.specs.Tables.Image.{image_length, entry_code};
ghost use Rattle.table_file.specs.Layout.{layout_of};
ghost use Rattle.table_validator.specs.Fault.{code_number};

use crate::actionpoint::actionpoint_fault;
use crate::fault::FaultCode;
use crate::watchpoint::watchpoint_fault;
use table_file::{ActionpointEntry, Layout, WatchpointEntry, entry_bytes, is_blank, preamble};

/// Returns the least code among the faults of entry `number`, counted from 0; `None` if it has none. An unused entry
/// has one fault, `NotBlank`.
pub fn entry_fault(layout: Layout, image: &[u8], number: usize) -> Option<FaultCode>
    requires whole { length image.now ≡ image_length (layout_of layout) }
    requires within { number < table_entries }
    ensures { option_map code_number result ≡ entry_code (layout_of layout) image.now number }
{
    if number >= preamble::own_count(image) as usize {
        if is_blank(layout, entry_bytes(layout, image, number)) {
            return None;
        }
        return Some(FaultCode::NotBlank);
    }
    match layout {
        Layout::Watchpoints => watchpoint_fault(&WatchpointEntry::of(image, number)),
        Layout::Actionpoints | Layout::WideActionpoints => {
            let entry = ActionpointEntry::of(layout, image, number);
            actionpoint_fault(&entry, preamble::watchpoint_count(image))
        }
    }
}
