//! The events of the host itself.

ghost use Rattle.std.specs.Prelude.{◌≡◌, []};
ghost use Rattle.lc_model.specs.Name.{host_name};
ghost use Rattle.lc_model.specs.Events.Request.{Event, bad_packet};
ghost use Rattle.app_host.specs.Hosted.{shown};
ghost use Rattle.app_host.specs.Whole.{AreSeated, IsWhole, IsQuiet};
ghost use Rattle.app_host.specs.Told.{HasTold, TellsAlone};
ghost use Rattle.app_host.specs.Response.{only_telling, RespondsCounted};

use crate::app::App;
use crate::error::WriteFault;
use crate::host::Host;
use crate::texts;
use event_service::EventText;
use lc_model::{ByteSink, EventKind};

impl<B: App> Host<B> {
    /// Requests an event of `HOST`; if it is sent, its packet waits to be written.
    pub(crate) fn tell(&mut self, id: u16, kind: EventKind, text: &EventText)
        requires seated { AreSeated (shown B.meaning self.old).seats
            (shown B.meaning self.old).services }
        requires idle { self.old.services.outgoing ≡ [] }
        ensures { HasTold (Event host_name id kind text.now) (shown B.meaning self.old)
            (shown B.meaning self.new) }
    {
        // For the proof: tables and files are within their bounds, and no name is used twice.
        self.services.tables.is_service();
        self.services.tell(None, id, kind, text.as_bytes());
    }

    /// Sends an event of `HOST` and writes it; the record leads to nothing else.
    pub(crate) fn tell_alone<W: ByteSink>(
        &mut self,
        id: u16,
        kind: EventKind,
        text: &EventText,
        out: &mut W,
    ) -> Result<u64, WriteFault>
        requires whole { IsWhole (shown B.meaning self.old) }
        requires quiet { IsQuiet (shown B.meaning self.old) }
        requires none_yet { self.old.calls ≡ 0 }
        ensures handled { TellsAlone (Event host_name id kind text.now) (shown B.meaning self.old)
            (shown B.meaning self.new) (W.sink out.old) (W.sink out.new) result }
        ensures own { RespondsCounted self.old.services.moment
            (only_telling (Event host_name id kind text.now) (shown B.meaning self.old))
            (shown B.meaning self.old) (shown B.meaning self.new) (W.sink out.old).gained
            (W.sink out.new).gained result }
    {
        self.tell(id, kind, text);
        self.flush(out, 0)
    }

    /// Refuses a packet of a stream, with this fault.
    #[inline(never)]
    pub(crate) fn refuse_packet<W: ByteSink>(
        &mut self,
        reason: u8,
        out: &mut W,
    ) -> Result<u64, WriteFault>
        requires whole { IsWhole (shown B.meaning self.old) }
        requires quiet { IsQuiet (shown B.meaning self.old) }
        requires none_yet { self.old.calls ≡ 0 }
        ensures handled { TellsAlone (bad_packet reason) (shown B.meaning self.old)
            (shown B.meaning self.new) (W.sink out.old) (W.sink out.new) result }
        ensures own { RespondsCounted self.old.services.moment
            (only_telling (bad_packet reason) (shown B.meaning self.old)) (shown B.meaning self.old)
            (shown B.meaning self.new) (W.sink out.old).gained (W.sink out.new).gained result }
    {
        let text = texts::bad_packet(u16::from(reason));
        self.tell_alone(1, EventKind::Error, &text, out)
    }
}
