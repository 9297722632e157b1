//! The texts of the counter's events (this project's own).

ghost use Rattle.std.specs.Prelude.{◌≡◌, ◌≤◌, length};
ghost use Rattle.lc_model.specs.declared.rule.EventKind.TheVariants.{Information, Error};
ghost use Rattle.lc_model.specs.Name.{counter_name};
ghost use Rattle.lc_model.specs.Events.Request as request;
ghost use Rattle.lc_model.specs.Events.Request.{Event};

use event_service::EventText;

/// Event 1, of type information: the number of commands since the start, up to 4,294,967,295.
pub(crate) fn command_count(accepted: u32) -> EventText
    ensures { Event counter_name 1 Information result ≡ request.counted accepted }
{
    let mut text = EventText::of(b"count");
    text.push_number(accepted);
    text
}

/// Event 2, of type error: why a command is refused, in at most two numbers.
pub(crate) fn command_refused(numbers: &[u16]) -> EventText
    requires { length numbers.now ≤ 2 }
    ensures { Event counter_name 2 Error result ≡ request.counter_refused numbers.now }
{
    let mut text = EventText::of(b"command refused");
    text.push_numbers(numbers);
    text
}
