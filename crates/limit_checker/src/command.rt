//! Commands to the application (cFS Limit Checker user's guide; codes, layouts and refusals are this project's own).

ghost use Rattle.std.specs.Prelude.{◌≡◌, ◌≤◌, length};
ghost use Rattle.lc_model.specs.Command.{lc_command};
ghost use Rattle.lc_model.specs.Packet.{function_code, payload, command_header_size};
ghost use Rattle.limit_checker.specs.Commands.{answered, own_commanded, read_of, refusal_number};
ghost use Rattle.limit_engine.specs.States.{outcome, unless_refused};

use lc_model::packet::function_code;
use lc_model::{CommandRefusal, u16_at};
use limit_engine::{Engine, StateRefusal};

/// The bytes of a command's headers.
const HEADERS: usize = 8;

/// A command, as it is read from a packet.
#[derive(Clone, Copy)]
pub(crate) enum Command {
    NoOperation,
    SetMode { number: u16 },
    SetState { index: u16, number: u16 },
    TurnPermanentlyOff { index: u16 },
}

/// Why a command is refused.
#[derive(Clone, Copy)]
pub(crate) enum Refused {
    /// Its code or its length is not valid.
    Unread(CommandRefusal),
    /// It cannot be executed.
    Unobeyed(StateRefusal),
}

impl Refused {
    /// The number of the refusal, 151 to 155.
    pub(crate) fn code(self) -> u8
        ensures { result ≡ refusal_number self }
    {
        match self {
            Refused::Unread(refusal) => refusal.code(),
            Refused::Unobeyed(refusal) => refusal.code(),
        }
    }
}

/// The command of a packet: code 0 without a payload, and codes 2, 3 and 4 with one of four bytes. Errors, the first that
/// holds: `UnknownFunction`, `WrongLength`.
fn read(packet: &[u8]) -> Result<Command, CommandRefusal>
    requires { command_header_size ≤ length packet.now }
    ensures { read_of result ≡ lc_command (function_code packet.now) (payload packet.now) }
{
    let code = function_code(packet);
    let size = packet.len() - HEADERS;
    match code {
        0 if size == 0 => Ok(Command::NoOperation),
        2 if size == 4 => Ok(Command::SetMode {
            number: u16_at(packet, HEADERS),
        }),
        3 if size == 4 => Ok(Command::SetState {
            index: u16_at(packet, HEADERS),
            number: u16_at(packet, HEADERS + 2),
        }),
        4 if size == 4 => Ok(Command::TurnPermanentlyOff {
            index: u16_at(packet, HEADERS),
        }),
        0 | 2 | 3 | 4 => Err(CommandRefusal::WrongLength),
        _ => Err(CommandRefusal::UnknownFunction),
    }
}

/// Executes the command of a packet. A refused one changes nothing.
pub(crate) fn obey(engine: &mut Engine, packet: &[u8]) -> Result<(), Refused>
    requires { command_header_size ≤ length packet.now }
    ensures answer { answered result ≡ outcome (own_commanded packet.now engine.old) }
    ensures after { engine.new ≡ unless_refused (own_commanded packet.now engine.old) engine.old }
{
    let done = match read(packet).map_err(Refused::Unread)? {
        Command::NoOperation => Ok(()),
        Command::SetMode { number } => engine.set_mode(number),
        Command::SetState { index, number } => engine.set_state(index, number),
        Command::TurnPermanentlyOff { index } => engine.turn_permanently_off(index),
    };
    done.map_err(Refused::Unobeyed)
}
