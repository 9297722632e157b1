//! The application `COUNTER`: how it starts, counts commands and retires.

ghost use Rattle.std.specs.Prelude.{◌≡◌, ◌≤◌, ◌<◌, None, [], ◌∷◌, length};
ghost use Rattle.lc_model.specs.Packet.{function_code, payload, command_header_size};
ghost use Rattle.lc_model.specs.Command.{answer_of, bare_request};

use crate::texts;
use app_host::laws::seats_are_kept_by_the_rules;
use app_host::{App, Services};
use lc_model::packet::{function_code, message_id};
use lc_model::{CommandRefusal, EventKind, Seat, mids};

/// The application's name, as its events show it.
const NAME: &[u8] = b"COUNTER";

/// The function code of the command that the application counts.
const COUNT: u8 = 1;

/// The length of that command in bytes: its headers, without payload.
const COUNT_SIZE: usize = 8;

/// The counter application. It counts its commands (message id 0x18C1, code 1, no payload) since its start, up to
/// 4,294,967,295. Event 1 reports the count; event 2 reports a refusal: 151 for another code, 152 for another length.
#[derive(Debug, Drop)]
pub struct Counter {
    seat: Option<Seat>,
    count: u32,
}

impl Counter {
    /// Creates a counter without a seat and with count 0.
    pub fn new() -> Counter
        ensures seat { result.seat ≡ None }
        ensures count { result.count ≡ 0 }
    {
        Counter {
            seat: None,
            count: 0,
        }
    }
}

impl App for Counter {
    ghost use Rattle.lc_model.specs.Name.{counter_name};
    ghost use Rattle.lc_model.specs.Kept.Summary.{CounterState};

    ghost meaning = { λ c.
        record { called = counter_name; state = CounterState c.count; seat = c.seat } };

    fn name(&self) -> &[u8] {
        NAME
    }

    fn start(&mut self, seat: Seat, services: &mut Services) {
        // For the proof: each call of the services keeps the rules of the interface.
        seats_are_kept_by_the_rules();
        services.open(seat, NAME, &[mids::COUNTER]);
        self.count = 0;
        self.seat = Some(seat);
    }

    fn on_packet(&mut self, services: &mut Services, packet: &[u8]) {
        // For the proof: each call of the services keeps the rules of the interface.
        seats_are_kept_by_the_rules();
        if message_id(packet) != mids::COUNTER {
            return;
        }
        match check_command(packet) {
            Ok(()) => {
                self.count = self.count.saturating_add(1);
                let text = texts::command_count(self.count);
                services.tell(self.seat, 1, EventKind::Information, text.as_bytes());
            }
            Err(refusal) => {
                let text = texts::command_refused(&[u16::from(refusal.code())]);
                services.tell(self.seat, 2, EventKind::Error, text.as_bytes());
            }
        }
    }

    fn retire(&mut self, services: &mut Services) {
        // For the proof: each call of the services keeps the rules of the interface.
        seats_are_kept_by_the_rules();
        if let Some(seat) = self.seat.take() {
            services.close(seat);
        }
    }
}

/// Whether a counter command is the one that is counted. Errors: `UnknownFunction`, `WrongLength`.
fn check_command(command: &[u8]) -> Result<(), CommandRefusal>
    requires { command_header_size ≤ length command.now }
    ensures { answer_of result ≡ bare_request 1 (function_code command.now) (payload command.now) }
{
    if function_code(command) != COUNT {
        return Err(CommandRefusal::UnknownFunction);
    }
    if command.len() != COUNT_SIZE {
        return Err(CommandRefusal::WrongLength);
    }
    Ok(())
}
