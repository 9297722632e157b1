//! Handles one record.

ghost use Rattle.std.specs.Prelude.{◌≡◌, ◌≤◌, false, true, length, None, IfSome, IsSome};
ghost use Rattle.lc_model.specs.Packet.{stream_fault, command_header_size};
ghost use Rattle.lc_model.specs.Host.React.{Packet};
ghost use Rattle.app_host.specs.Boxes.{BoxHasGone};
ghost use Rattle.app_host.specs.Hosted.{shown};
ghost use Rattle.app_host.specs.Whole.{IsWhole, IsQuiet};
ghost use Rattle.app_host.specs.Response.{response_to, response_to_packet, routed_to, RespondsCounted};
ghost use Rattle.app_host.specs.Step.{input_by, IsNamed, StepHasBegun, HandlesInput, IsBetween, Counts, without_count};
ghost use Rattle.app_host.specs.Stepped.{HasStepped};

use crate::app::App;
use crate::error::WriteFault;
use crate::host::Host;
use lc_model::packet::{message_id, stream_fault};
use lc_model::{Body, ByteSink, Moment, Record, mids};

impl<B: App> Host<B> {
    /// Handles a record, and writes its output: after each call of an application what that call sent, and each event of `HOST`.
    /// It allocates no memory.
    ///
    /// Condition: a file's name has at most 40 bytes.
    ///
    /// Errors: `WriteFault` with the number of this step's bytes that the writer took; what was done before that write stands,
    /// and the host is closed. A closed host does nothing and returns `sent: 0`.
    pub fn step<W: ByteSink>(&mut self, entry: &Record<'_>, out: &mut W) -> Result<(), WriteFault>
        requires between { IsBetween (shown B.meaning self.old) }
        requires named { IsNamed entry.now.body }
        ensures between { IsBetween (shown B.meaning self.new) }
        ensures stepped { HasStepped B.meaning entry.now self.old self.new (W.sink out.old)
            (W.sink out.new) result }
    {
        match self.step_counted(entry, out) {
            Ok(_total) => Ok(()),
            Err(fault) => Err(fault),
        }
    }

    /// Handles a record as `step` does, and returns the number of bytes written.
    #[inline(always)]
    pub fn step_counted<W: ByteSink>(
        &mut self,
        entry: &Record<'_>,
        out: &mut W,
    ) -> Result<u64, WriteFault>
        requires between { IsBetween (shown B.meaning self.old) }
        requires named { IsNamed entry.now.body }
        ensures between { IsBetween (shown B.meaning self.new) }
        ensures stepped { HasStepped B.meaning entry.now self.old self.new (W.sink out.old)
            (W.sink out.new) (without_count result) }
        ensures counted { (shown B.meaning self.old).is_closed ≡ false →
            RespondsCounted entry.now.moment (response_to entry.now.body (shown B.meaning self.old))
            (shown B.meaning self.old) (shown B.meaning self.new) (W.sink out.old).gained
            (W.sink out.new).gained result }
        ensures count { (shown B.meaning self.old).is_closed ≡ false →
            Counts entry.now.moment (input_by entry.now.body) (shown B.meaning self.old) result }
    {
        if self.closed {
            return Err(WriteFault { sent: 0 });
        }
        self.begin_step(entry.moment);
        self.handle(&entry.body, out)
    }

    /// Begins a step: the services get its moment, and no call is counted yet.
    #[inline(always)]
    fn begin_step(&mut self, moment: Moment)
        requires whole { IsWhole (shown B.meaning self.old) }
        ensures begun { StepHasBegun moment (shown B.meaning self.old) (shown B.meaning self.new) }
        ensures boxes { self.new.seats ≡ self.old.seats }
    {
        // For the proof: tables and files are within their bounds, and no name is used twice.
        self.services.tables.is_service();
        self.services.moment = moment;
        self.calls = 0;
    }

    /// Handles the record's body.
    #[inline(always)]
    fn handle<W: ByteSink>(&mut self, body: &Body<'_>, out: &mut W) -> Result<u64, WriteFault>
        requires whole { IsWhole (shown B.meaning self.old) }
        requires quiet { IsQuiet (shown B.meaning self.old) }
        requires none_yet { self.old.calls ≡ 0 }
        requires named { IsNamed body.now }
        ensures handled { HandlesInput (input_by body.now) (shown B.meaning self.old)
            (shown B.meaning self.new) (W.sink out.old) (W.sink out.new) result }
        ensures own { RespondsCounted self.old.services.moment
            (response_to body.now (shown B.meaning self.old)) (shown B.meaning self.old)
            (shown B.meaning self.new) (W.sink out.old).gained (W.sink out.new).gained result }
        ensures gone { IfSome (response_to body.now (shown B.meaning self.old)).leaves
            (BoxHasGone B.meaning self.old.seats self.old.services) }
    {
        match *body {
            Body::Packet(bytes) => self.take_packet(bytes, out),
            Body::Tick => self.tick(out),
            Body::File { name, bytes } => self.store_file(name, bytes, out),
        }
    }

    /// A packet is refused, executed as a command to a service, or passed on to the applications.
    #[inline(always)]
    fn take_packet<W: ByteSink>(&mut self, packet: &[u8], out: &mut W) -> Result<u64, WriteFault>
        requires whole { IsWhole (shown B.meaning self.old) }
        requires quiet { IsQuiet (shown B.meaning self.old) }
        requires none_yet { self.old.calls ≡ 0 }
        ensures handled { HandlesInput (Packet packet.now) (shown B.meaning self.old)
            (shown B.meaning self.new) (W.sink out.old) (W.sink out.new) result }
        ensures own { RespondsCounted self.old.services.moment
            (response_to_packet packet.now (shown B.meaning self.old)) (shown B.meaning self.old)
            (shown B.meaning self.new) (W.sink out.old).gained (W.sink out.new).gained result }
        ensures gone { IfSome (response_to_packet packet.now (shown B.meaning self.old)).leaves
            (BoxHasGone B.meaning self.old.seats self.old.services) }
    {
        match stream_fault(packet) {
            Some(_) => self.refuse_faulty(packet, out),
            None => self.route(packet, out),
        }
    }

    /// Refuses a packet with one of the faults 1 to 7. Few packets have one, so its reason is found in this cold function.
    #[cold]
    #[inline(never)]
    fn refuse_faulty<W: ByteSink>(&mut self, packet: &[u8], out: &mut W) -> Result<u64, WriteFault>
        requires whole { IsWhole (shown B.meaning self.old) }
        requires quiet { IsQuiet (shown B.meaning self.old) }
        requires none_yet { self.old.calls ≡ 0 }
        requires faulty { IsSome (stream_fault packet.now) }
        ensures handled { HandlesInput (Packet packet.now) (shown B.meaning self.old)
            (shown B.meaning self.new) (W.sink out.old) (W.sink out.new) result }
        ensures own { RespondsCounted self.old.services.moment
            (response_to_packet packet.now (shown B.meaning self.old)) (shown B.meaning self.old)
            (shown B.meaning self.new) (W.sink out.old).gained (W.sink out.new).gained result }
        ensures gone { IfSome (response_to_packet packet.now (shown B.meaning self.old)).leaves
            (BoxHasGone B.meaning self.old.seats self.old.services) }
    {
        match stream_fault(packet) {
            Some(reason) => self.refuse_packet(reason, out),
            None => unreachable!(),
        }
    }

    /// Executes a packet as a command to a service, or passes it on to the applications. Condition: it has none of the faults 1
    /// to 7.
    #[inline(always)]
    fn route<W: ByteSink>(&mut self, packet: &[u8], out: &mut W) -> Result<u64, WriteFault>
        requires whole { IsWhole (shown B.meaning self.old) }
        requires quiet { IsQuiet (shown B.meaning self.old) }
        requires none_yet { self.old.calls ≡ 0 }
        requires good { stream_fault packet.now ≡ None }
        requires headers { command_header_size ≤ length packet.now }
        ensures handled { HandlesInput (Packet packet.now) (shown B.meaning self.old)
            (shown B.meaning self.new) (W.sink out.old) (W.sink out.new) result }
        ensures own { RespondsCounted self.old.services.moment
            (routed_to packet.now (shown B.meaning self.old)) (shown B.meaning self.old)
            (shown B.meaning self.new) (W.sink out.old).gained (W.sink out.new).gained result }
        ensures gone { IfSome (routed_to packet.now (shown B.meaning self.old)).leaves
            (BoxHasGone B.meaning self.old.seats self.old.services) }
    {
        match message_id(packet) {
            mids::EVENT_SERVICES => self.obey_events(packet, out),
            mids::TABLE_SERVICES => self.obey_tables(packet, out),
            mids::EXECUTIVE_SERVICES => self.obey_orders(packet, out),
            _ => self.pass_on(packet, out),
        }
    }
}
