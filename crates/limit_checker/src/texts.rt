//! The texts of the Limit Checker's events (this project's own).

ghost use Rattle.std.specs.Prelude.{◌≡◌, ◌<◌, ◌≤◌, ◌++◌, [], ◌∷◌, length, codes, if◌then◌else◌};
ghost use Rattle.lc_model.specs.declared.rule.EventKind.TheVariants.{Information, Error};
ghost use Rattle.lc_model.specs.Codes.{rule_text_size};
ghost use Rattle.lc_model.specs.Name.{lc_name, name_size};
ghost use Rattle.lc_model.specs.Rule.{Actionpoint};
ghost use Rattle.lc_model.specs.Events.Request as request;
ghost use Rattle.lc_model.specs.Events.Request.{Event};

use event_service::EventText;

/// Event 1, of type information: the application started.
pub(crate) fn application_started(has_tables: bool) -> EventText
    ensures { Event lc_name 1 Information result ≡
        request.lc_started (if has_tables then codes "with tables" else codes "without tables") }
{
    if has_tables {
        EventText::of(b"started with tables")
    } else {
        EventText::of(b"started without tables")
    }
}

/// Event 2, of type information: new tables are in force.
pub(crate) fn tables_adopted() -> EventText
    ensures { Event lc_name 2 Information result ≡ request.tables_adopted }
{
    EventText::of(b"tables adopted")
}

/// Event 3, of type information: enough failures, but the Limit Checker is passive.
pub(crate) fn failed_lc_passive(point: u16) -> EventText
    ensures { Event lc_name 3 Information result ≡ request.failed_lc_passive point }
{
    about_point(point, b" failed, LC passive")
}

/// Event 4, of type information: enough failures of a rule that is passive.
pub(crate) fn failed_passive(point: u16) -> EventText
    ensures { Event lc_name 4 Information result ≡ request.failed_passive point }
{
    about_point(point, b" failed, passive")
}

/// Event 5, of type information: a failure directly after a pass.
pub(crate) fn turned_to_fail(point: u16) -> EventText
    ensures { Event lc_name 5 Information result ≡ request.turned_to_fail point }
{
    about_point(point, b" pass to fail")
}

/// Event 6, of type information: a pass directly after a failure.
pub(crate) fn turned_to_pass(point: u16) -> EventText
    ensures { Event lc_name 6 Information result ≡ request.turned_to_pass point }
{
    about_point(point, b" fail to pass")
}

/// Event 7, of type error: a watchpoint found no field in a packet of this message id.
pub(crate) fn short_packet(mid: u16) -> EventText
    ensures { Event lc_name 7 Error result ≡ request.short_packet mid }
{
    let mut text = EventText::of(b"short packet ");
    text.push_hex(mid);
    text
}

/// Event 8, of type information: a command was executed.
pub(crate) fn command_done(code: u8) -> EventText
    ensures { Event lc_name 8 Information result ≡ request.lc_command_done code }
{
    let mut text = EventText::of(b"command");
    text.push_number(u32::from(code));
    text.push(b" done");
    text
}

/// Event 9, of type error: why a command or a request was refused, in at most two numbers.
pub(crate) fn command_refused(numbers: &[u16]) -> EventText
    requires { length numbers.now ≤ 2 }
    ensures { Event lc_name 9 Error result ≡ request.lc_command_refused numbers.now }
{
    let mut text = EventText::of(b"command refused");
    text.push_numbers(numbers);
    text
}

/// Event 10, of type information: an image of this kind is valid.
pub(crate) fn table_valid(kind: u16) -> EventText
    ensures { Event lc_name 10 Information result ≡ request.table_valid kind }
{
    let mut text = EventText::of(b"table");
    text.push_number(u32::from(kind));
    text.push(b" valid");
    text
}

/// Event 11, of type error: the fault of an image of this kind, and its entry.
pub(crate) fn table_invalid(kind: u16, code: u16, entry: u16) -> EventText
    ensures { Event lc_name 11 Error result ≡ request.table_invalid kind code entry }
{
    let mut text = EventText::of(b"table");
    text.push_number(u32::from(kind));
    text.push(b" invalid");
    text.push_numbers(&[code, entry]);
    text
}

/// A rule's own event: its text of at most 31 bytes, its number, its failures in a row, and the sequence that it requests.
pub(crate) fn rule_failed(own: &[u8], point: u16, run: u16, sequence: u16) -> EventText
    requires { length own.now < rule_text_size }
    ensures { (rule : Actionpoint) → rule.text ≡ own.now → rule.sequence ≡ sequence →
        Event lc_name rule.event_id rule.event_kind result ≡ request.rule_failed rule point run }
{
    let mut text = EventText::of(own);
    text.push(b": AP =");
    text.push_number(u32::from(point));
    text.push(b", FailCount =");
    text.push_number(u32::from(run));
    text.push(b", RTS =");
    text.push_number(u32::from(sequence));
    text
}

/// A text about the rule with this number.
fn about_point(point: u16, what: &[u8]) -> EventText
    requires { length what.now ≤ name_size }
    ensures { result ≡ request.numbered (codes "actionpoint") (point ∷ []) ++ what.now }
{
    let mut text = EventText::of(b"actionpoint");
    text.push_number(u32::from(point));
    text.push(what);
    text
}
