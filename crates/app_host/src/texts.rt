//! The texts of the host's own events (this project's own).

ghost use Rattle.std.specs.Prelude.{◌≡◌, ◌≤◌, ◌<◌, List, [], ◌∷◌, length};
ghost use Rattle.lc_model.specs.declared.rule.EventKind.TheVariants.{Information, Error};
ghost use Rattle.lc_model.specs.Name.{host_name};
ghost use Rattle.lc_model.specs.Events.Request as request;
ghost use Rattle.lc_model.specs.Events.Request.{Event};
ghost use Rattle.app_host.specs.Texts.{service_titled};

use event_service::EventText;

/// The services of the host that have commands.
#[derive(Clone, Copy)]
pub(crate) enum Service {
    Tables,
    Events,
    Applications,
}

impl Service {
    fn title(self) -> &'static [u8]
        ensures text { result.now ≡ (service_titled self).title }
        ensures size { length result.now ≤ 13 }
    {
        match self {
            Service::Tables => b"table command",
            Service::Events => b"event command",
            Service::Applications => b"app command",
        }
    }

    /// The id of the event for a command that was executed.
    pub(crate) fn done_id(self) -> u16
        ensures { result ≡ (service_titled self).done }
    {
        match self {
            Service::Tables => 4,
            Service::Events => 6,
            Service::Applications => 8,
        }
    }

    /// The id of the event for a command that was refused.
    pub(crate) fn refused_id(self) -> u16
        ensures { result ≡ (service_titled self).refused }
    {
        match self {
            Service::Tables => 5,
            Service::Events => 7,
            Service::Applications => 9,
        }
    }
}

/// Event 1, of type error: the fault for which a packet of a stream is refused.
pub(crate) fn bad_packet(reason: u16) -> EventText
    ensures { Event host_name 1 Error result ≡ request.bad_packet reason }
{
    let mut text = EventText::of(b"bad packet");
    text.push_number(u32::from(reason));
    text
}

/// Event 2, of type information.
pub(crate) fn file_stored() -> EventText
    ensures { Event host_name 2 Information result ≡ request.file_stored }
{
    EventText::of(b"file stored")
}

/// Event 3, of type error: why a file is not stored, in at most two numbers.
pub(crate) fn file_refused(numbers: &[u16]) -> EventText
    requires { length numbers.now ≤ 2 }
    ensures { Event host_name 3 Error result ≡ request.file_refused numbers.now }
{
    let mut text = EventText::of(b"file refused");
    text.push_numbers(numbers);
    text
}

/// The service's event of type information: a command with this function code was executed.
pub(crate) fn command_done(service: Service, code: u8) -> EventText
    ensures { Event host_name (service_titled service).done Information result ≡
        request.command_done (service_titled service) code }
{
    let mut text = EventText::of(service.title());
    text.push_number(u32::from(code));
    text.push(b" done");
    text
}

/// The service's event of type error: why a command is refused, in at most two numbers.
pub(crate) fn command_refused(service: Service, numbers: &[u16]) -> EventText
    requires { length numbers.now ≤ 2 }
    ensures { Event host_name (service_titled service).refused Error result ≡
        request.command_refused (service_titled service) numbers.now }
{
    let mut text = EventText::of(service.title());
    text.push(b" refused");
    text.push_numbers(numbers);
    text
}
