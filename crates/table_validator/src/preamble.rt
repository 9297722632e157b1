//! The faults of an image's preamble.

ghost use Rattle.std.specs.Prelude.{◌≡◌, ◌≤◌, Bool, false, not, ◌||◌, ◌&&◌, ◌==◌, nat_lt, length, option_map};
ghost use Rattle.lc_model.specs.declared.kind.Kind.TheVariants.{Wdt};
ghost use Rattle.lc_model.specs.Codes.{is_kind, table_entries};
ghost use Rattle.lc_model.specs.Tables.Image as model;
ghost use Rattle.lc_model.specs.Tables.Image.{kind_of, preamble_length, preamble_code};
ghost use Rattle.table_file.specs.Layout.{layout_of};
ghost use Rattle.table_validator.specs.Fault.{code_number};

use crate::fault::FaultCode;
use lc_model::TABLE_ENTRIES;
use table_file::{Layout, preamble};

/// Whether a count is over 176, or the two counts of a watchpoint table differ.
fn has_wrong_counts(layout: Layout, image: &[u8]) -> bool
    requires { preamble_length ≤ length image.now }
    ensures { result ≡ (nat_lt table_entries (model.own_count image.now)
        || nat_lt table_entries (model.watchpoint_count image.now)
        || (is_kind (kind_of (layout_of layout)) Wdt
        && not (model.own_count image.now == model.watchpoint_count image.now))) }
{
    let own = preamble::own_count(image);
    let watchpoints = preamble::watchpoint_count(image);
    let differ = match layout {
        Layout::Watchpoints => own != watchpoints,
        Layout::Actionpoints | Layout::WideActionpoints => false,
    };
    own as usize > TABLE_ENTRIES || watchpoints as usize > TABLE_ENTRIES || differ
}

/// Returns the preamble's first fault, in the order version, kind, counts; `None` if it has none.
pub fn preamble_fault(layout: Layout, image: &[u8]) -> Option<FaultCode>
    requires { preamble_length ≤ length image.now }
    ensures { option_map code_number result ≡ preamble_code (layout_of layout) image.now }
{
    if preamble::version(image) != layout.version() {
        return Some(FaultCode::WrongVersion);
    }
    if preamble::kind_code(image) != layout.kind().code() {
        return Some(FaultCode::WrongKind);
    }
    if has_wrong_counts(layout, image) {
        return Some(FaultCode::WrongCounts);
    }
    None
}
