//! The parts of the application, and how they handle packets (cFS Limit Checker user's guide), over the services that
//! applications share.

ghost use Rattle.std.specs.Prelude.{◌≡◌, ◌+◌, ◌≤◌, true, [], ◌∷◌, length, map, None, IfOk, IfSome};
ghost use Rattle.lc_model.specs.Events.Outgoing.{housekeeping_size};
ghost use Rattle.lc_model.specs.Events.Request.{Housekeeping};
ghost use Rattle.lc_model.specs.Kept.Next.{by_counts};
ghost use Rattle.lc_model.specs.LimitChecker.Steps.{standing};
ghost use Rattle.app_host.specs.Telling.{Tells};
ghost use Rattle.limit_checker.specs.Sending.{MaySend};
ghost use Rattle.lc_model.specs.Packet.{message_id, lc_command_mid, sample_mid, is_telemetry_mid};
ghost use Rattle.lc_model.specs.Name.{lc_name};
ghost use Rattle.lc_model.specs.Kept.Call.{next_retire};
ghost use Rattle.lc_model.specs.Kept.Summary.{LcState};
ghost use Rattle.lc_model.specs.Services.Interface.{IsRetired, outgoing_room};
ghost use Rattle.app_host.specs.Calls.{LeavesEmpty};
ghost use Rattle.app_host.specs.Shared.{held_by, shared};
ghost use Rattle.limit_engine.specs.Engine.{without_tables};
ghost use Rattle.limit_checker.specs.Application.{IsHome, MayHave, Answers};
ghost use Rattle.limit_checker.specs.Capacities.{checker_capacities};

use crate::asked::AskedList;
use crate::capacities::CheckerCapacities;
use crate::telling::tell;
use crate::{command, reacting, standings, texts};
use app_host::Services;
use app_host::laws::seats_are_kept_by_the_rules;
use app_host::sending::telling_goes_on;
use lc_model::packet::{function_code, message_id};
use lc_model::{EventKind, Seat, sample_request};
use limit_engine::Engine;
use std::alloc::{AllocError, Global};

/// The parts of the application: its engine, the seat that it holds, and room for the result of a sample.
#[derive(Debug, Drop)]
pub(crate) struct Application {
    pub(crate) engine: Engine,
    pub(crate) seat: Option<Seat>,
    asked: AskedList,
}

impl Application {
    /// Creates an active Limit Checker without tables, on no seat. It allocates all memory that it ever needs; out of memory
    /// is the only error.
    pub(crate) fn new(alloc: Global) -> Result<Application, AllocError>
        ensures own { IfOk result (λ lc. lc.engine ≡ without_tables) }
        ensures seat { IfOk result (λ lc. lc.seat ≡ None) }
    {
        Ok(Application {
            engine: Engine::new(alloc)?,
            seat: None,
            asked: AskedList::new(alloc)?,
        })
    }

    pub(crate) fn capacities(&self) -> CheckerCapacities
        ensures { result ≡ checker_capacities }
    {
        CheckerCapacities {
            engine: self.engine.capacities(),
            asked: self.asked.capacity(),
        }
    }

    /// Executes a command (message id 0x18A4, event 8), or refuses it (event 9).
    pub(crate) fn command(&mut self, services: &mut Services, packet: &[u8])
        requires home { IsHome self.old.seat self.old.engine services.old }
        requires given { MayHave self.old.seat packet.now services.old }
        requires kind { message_id packet.now ≡ lc_command_mid }
        ensures seat { self.new.seat ≡ self.old.seat }
        ensures answers { Answers self.old.seat self.old.engine self.new.engine packet.now
            services.old services.new }
    {
        // For the proof: each call of the services keeps the rules of the interface.
        seats_are_kept_by_the_rules();
        match command::obey(&mut self.engine, packet) {
            Ok(()) => {
                let text = texts::command_done(function_code(packet));
                tell(
                    services,
                    self.seat,
                    8,
                    EventKind::Information,
                    text.as_bytes(),
                );
            }
            Err(refused) => {
                let text = texts::command_refused(&[u16::from(refused.code())]);
                tell(services, self.seat, 9, EventKind::Error, text.as_bytes());
            }
        }
    }

    /// Compares a telemetry packet (message ids 0x0800 to 0x0FFF); event 7 if it is too short for a watchpoint of its id.
    pub(crate) fn telemetry(&mut self, services: &mut Services, packet: &[u8])
        requires home { IsHome self.old.seat self.old.engine services.old }
        requires given { MayHave self.old.seat packet.now services.old }
        requires kind { is_telemetry_mid (message_id packet.now) ≡ true }
        ensures seat { self.new.seat ≡ self.old.seat }
        ensures answers { Answers self.old.seat self.old.engine self.new.engine packet.now
            services.old services.new }
    {
        // For the proof: each call of the services keeps the rules of the interface, and the requests of several calls are sent
        // in order.
        seats_are_kept_by_the_rules();
        telling_goes_on();
        if self.engine.telemetry(packet) {
            let text = texts::short_packet(message_id(packet));
            services.tell(self.seat, 7, EventKind::Error, text.as_bytes());
        }
    }

    /// Handles a sample request (message id 0x18A6): sends the requests and events of its rules, in order; or refuses it (event
    /// 9).
    pub(crate) fn sample(&mut self, services: &mut Services, packet: &[u8])
        requires home { IsHome self.old.seat self.old.engine services.old }
        requires given { MayHave self.old.seat packet.now services.old }
        requires kind { message_id packet.now ≡ sample_mid }
        ensures seat { self.new.seat ≡ self.old.seat }
        ensures answers { Answers self.old.seat self.old.engine self.new.engine packet.now
            services.old services.new }
    {
        // For the proof: each call of the services keeps the rules of the interface.
        seats_are_kept_by_the_rules();
        match sample_request(packet) {
            Ok(request) => {
                let rules = self.engine.rule_count();
                self.asked.sample(&mut self.engine, &request);
                reacting::tell_all(&self.engine, self.asked.as_slice(), &self.seat, services);
            }
            Err(refusal) => {
                let text = texts::command_refused(&[u16::from(refusal.code())]);
                tell(services, self.seat, 9, EventKind::Error, text.as_bytes());
            }
        }
    }

    /// Sends housekeeping: the mode, and the state and result of each rule (message id 0x08A7). Condition: room for 192 bytes.
    pub(crate) fn tell_standing(&self, services: &mut Services)
        requires sends { MaySend self.now.seat services.old }
        requires room { length services.old.outgoing + housekeeping_size ≤ outgoing_room }
        ensures told { Tells self.now.seat lc_name
            (Housekeeping self.now.engine.mode (map (standing by_counts) self.now.engine.points) ∷
            []) services.old services.new }
        ensures size { length services.new.outgoing ≡
            length services.old.outgoing + housekeeping_size }
    {
        let standings = standings::standings(&self.engine);
        services.send_housekeeping(self.engine.mode(), standings.as_slice());
    }

    /// Closes the seat with its pipe, event sender and tables. Condition: no output waits.
    pub(crate) fn leave(&mut self, services: &mut Services)
        requires home { IsHome self.old.seat self.old.engine services.old }
        requires idle { services.old.outgoing ≡ [] }
        ensures seat { self.new.seat ≡ None }
        ensures own { self.new.engine ≡ self.old.engine }
        ensures rules { IfSome self.old.seat
            (λ seat. IsRetired seat lc_name (held_by services.old) (held_by services.new)) }
        ensures exact { IfSome self.old.seat
            (λ seat. IfSome (next_retire (LcState self.old.engine) (shared services.old))
            (LeavesEmpty seat services.old services.new)) }
    {
        // For the proof: each call of the services keeps the rules of the interface, and tables and files are within their
        // bounds, and no name is used twice.
        seats_are_kept_by_the_rules();
        services.tables.is_service();
        if let Some(seat) = self.seat.take() {
            services.close(seat);
        }
    }
}
