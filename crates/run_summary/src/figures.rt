//! The counts of a run.

use crate::brought::Brought;
use lc_model::EventKind;

/// The counts of a run. They stop at 2^64 - 1.
#[derive(Clone, Copy)]
pub struct Figures {
    /// Records of the stream.
    pub records: u64,
    /// Records with a packet that isn't a command, or with bytes that aren't a packet.
    pub telemetry: u64,
    /// Records with a command.
    pub commands: u64,
    /// Ticks.
    pub ticks: u64,
    /// Raw files and halves of rule texts.
    pub files: u64,
    /// Packets that the run wrote.
    pub packets: u64,
    /// Requests for command sequences among them.
    pub requests: u64,
    /// Housekeeping packets among them.
    pub housekeeping: u64,
    /// Critical events among them.
    pub critical: u64,
    /// Error events among them.
    pub error: u64,
    /// Information events among them.
    pub info: u64,
    /// Debug events among them.
    pub debug: u64,
    /// Other packets among them.
    pub other: u64,
}

/// Adds one to a count.
pub(crate) fn count(number: &mut u64) {
    *number = number.saturating_add(1);
}

impl Figures {
    /// All counts at zero.
    pub(crate) fn new() -> Figures {
        Figures {
            records: 0,
            telemetry: 0,
            commands: 0,
            ticks: 0,
            files: 0,
            packets: 0,
            requests: 0,
            housekeeping: 0,
            critical: 0,
            error: 0,
            info: 0,
            debug: 0,
            other: 0,
        }
    }

    /// All counts at zero, except the packets.
    pub(crate) fn after(packets: u64) -> Figures {
        let mut figures = Figures::new();
        figures.packets = packets;
        figures
    }

    /// Counts a record.
    pub(crate) fn take(&mut self, brought: Brought<'_>) {
        count(&mut self.records);
        match brought {
            Brought::Telemetry(_) => count(&mut self.telemetry),
            Brought::Tick => count(&mut self.ticks),
            Brought::Command => count(&mut self.commands),
            Brought::File => count(&mut self.files),
        }
    }

    /// Counts an event of this type.
    pub(crate) fn take_event(&mut self, kind: EventKind) {
        match kind {
            EventKind::Debug => count(&mut self.debug),
            EventKind::Information => count(&mut self.info),
            EventKind::Error => count(&mut self.error),
            EventKind::Critical => count(&mut self.critical),
        }
    }
}
