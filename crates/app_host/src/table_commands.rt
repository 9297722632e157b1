//! Commands to the table services (cFE user's guide, table services).

ghost use Rattle.std.specs.Prelude.{◌≡◌, ◌≤◌, ℕ, List, length, OnErr};
ghost use Rattle.lc_model.specs.Packet.{function_code, payload, command_header_size};
ghost use Rattle.lc_model.specs.Command.{table_command};
ghost use Rattle.lc_model.specs.Services.Tables.{table_commanded};
ghost use Rattle.tbl_service.specs.Error.{answered};
ghost use Rattle.app_host.specs.Hosted.{shown};
ghost use Rattle.app_host.specs.Whole.{IsWhole, IsQuiet};
ghost use Rattle.app_host.specs.Told.{ObeysTables};
ghost use Rattle.app_host.specs.Response.{obeying_tables, RespondsCounted};
ghost use Rattle.app_host.specs.Obeyed.{obeyed_by};
ghost use Rattle.app_host.specs.ObeyedTables.{command_by, command_of, tables_by};

use crate::app::App;
use crate::error::WriteFault;
use crate::host::Host;
use crate::numbers::{Numbers, of_tables};
use crate::texts::{self, Service};
use host_refinement::table_commands_go_by_names;
use lc_model::packet::function_code;
use lc_model::{ByteSink, EventKind, name_in};
use tbl_service::{TableError, Tables};

/// The action of a command on the file or the table that it names.
#[derive(Clone, Copy)]
enum Action {
    /// Loads a file.
    Load,
    /// Asks for the validation of a table's waiting image.
    Validate,
    /// Activates a table's waiting image.
    Activate,
    /// Drops a table's waiting image.
    Abort,
}

/// The action of a function code.
fn action_of(code: u8) -> Option<Action>
    ensures { (bytes : List ℕ) → table_command code bytes ≡ command_by result bytes }
{
    match code {
        1 => Some(Action::Load),
        2 => Some(Action::Validate),
        3 => Some(Action::Activate),
        4 => Some(Action::Abort),
        _ => None,
    }
}

/// Does the action on the file or the table of this name.
fn act(tables: &mut Tables, action: Action, name: &[u8]) -> Result<(), TableError>
    ensures answer { answered result tables.new ≡ table_commanded (command_of action name.now)
        tables.old }
    ensures refused { OnErr result (tables.new ≡ tables.old) }
{
    match action {
        Action::Load => tables.load(name),
        Action::Validate => tables.request_validate(name),
        Action::Activate => tables.request_activate(name),
        Action::Abort => tables.abort(name),
    }
}

/// Executes a command to the table services, whose payload is a name of 40 bytes. It is refused with 151 for its code, 152 for
/// its length, and then with the services' own refusals; a refused command changes nothing.
pub(crate) fn obey(tables: &mut Tables, packet: &[u8]) -> Result<(), Numbers>
    requires { command_header_size ≤ length packet.now }
    ensures answer { obeyed_by result tables.new ≡
        tables_by (table_command (function_code packet.now) (payload packet.now)) tables.old }
    ensures refused { OnErr result (tables.new ≡ tables.old) }
{
    let payload = &packet[8..];
    let Some(action) = action_of(function_code(packet)) else {
        return Err(Numbers::one(151));
    };
    if payload.len() != 40 {
        return Err(Numbers::one(152));
    }
    match act(tables, action, name_in(payload)) {
        Ok(()) => Ok(()),
        Err(error) => Err(of_tables(error)),
    }
}

impl<B: App> Host<B> {
    /// Executes or refuses a command to the table services, and sends `HOST`'s event.
    #[inline(never)]
    pub(crate) fn obey_tables<W: ByteSink>(
        &mut self,
        packet: &[u8],
        out: &mut W,
    ) -> Result<u64, WriteFault>
        requires whole { IsWhole (shown B.meaning self.old) }
        requires quiet { IsQuiet (shown B.meaning self.old) }
        requires none_yet { self.old.calls ≡ 0 }
        requires headers { command_header_size ≤ length packet.now }
        ensures handled { ObeysTables packet.now
            (shown B.meaning self.old) (shown B.meaning self.new)
            (W.sink out.old) (W.sink out.new) result }
        ensures own { RespondsCounted self.old.services.moment
            (obeying_tables packet.now (shown B.meaning self.old)
            (tables_by (table_command (function_code packet.now) (payload packet.now))
            self.old.services.tables)) (shown B.meaning self.old) (shown B.meaning self.new)
            (W.sink out.old).gained (W.sink out.new).gained result }
    {
        // For the proof: a table command acts by the names of tables; tables and files are within their bounds, and no name is
        // used twice.
        table_commands_go_by_names();
        self.services.tables.is_service();
        let obeyed = obey(&mut self.services.tables, packet);
        // The same holds after the call.
        self.services.tables.is_service();
        match obeyed {
            Ok(()) => {
                let text = texts::command_done(Service::Tables, function_code(packet));
                self.tell_alone(4, EventKind::Information, &text, out)
            }
            Err(numbers) => {
                let text = texts::command_refused(Service::Tables, numbers.as_slice());
                self.tell_alone(5, EventKind::Error, &text, out)
            }
        }
    }
}
