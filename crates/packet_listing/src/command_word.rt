//! The word of the command that an event reports as done.

use crate::text_front::number_in;

/// The sender of the events of the host's own services.
const HOST: &[u8] = b"HOST";

/// The sender of the Limit Checker's events.
pub const LIMIT_CHECKER: &[u8] = b"LC";

/// The end of an event's text after the code of a command that was done.
const DONE: &[u8] = b" done";

/// The word of a command to the table services, by its code.
fn table_word(code: usize) -> Option<&'static str> {
    match code {
        1 => Some("load"),
        2 => Some("validate"),
        3 => Some("activate"),
        4 => Some("abort"),
        _ => None,
    }
}

/// The word of a command to the event services, by its code.
fn event_word(code: usize) -> Option<&'static str> {
    match code {
        1 => Some("filter"),
        2 => Some("reset filters"),
        3 => Some("types on"),
        4 => Some("types off"),
        _ => None,
    }
}

/// The word of a command to the executive services, by its code.
fn app_word(code: usize) -> Option<&'static str> {
    match code {
        1 => Some("start"),
        2 => Some("stop"),
        3 => Some("restart"),
        4 => Some("reload"),
        _ => None,
    }
}

/// The word of a command to the Limit Checker, by its code.
fn lc_word(code: usize) -> Option<&'static str> {
    match code {
        0 => Some("no operation"),
        2 => Some("mode"),
        3 => Some("state"),
        4 => Some("state off"),
        _ => None,
    }
}

/// The code in a text of the form `front`, code, ` done`; `None` for a text of another form.
fn done_code(front: &[u8], text: &[u8]) -> Option<usize> {
    let (code, rest) = number_in(text.strip_prefix(front)?)?;
    if rest == DONE { Some(code) } else { None }
}

/// The word of the command that an event reports as done: `state` for `command 3 done`. `None` for any other event, and for a code
/// without a word.
pub fn command_word(sender: &[u8], id: u16, text: &[u8]) -> Option<&'static str> {
    if sender == LIMIT_CHECKER {
        return match id {
            8 => lc_word(done_code(b"command ", text)?),
            _ => None,
        };
    }
    if sender != HOST {
        return None;
    }
    match id {
        4 => table_word(done_code(b"table command ", text)?),
        6 => event_word(done_code(b"event command ", text)?),
        8 => app_word(done_code(b"app command ", text)?),
        _ => None,
    }
}
