//! The message ids that the host knows (CCSDS 133.0-B, cFE user's guide; the numbers are this project's own).

ghost use Rattle.std.specs.Prelude.{◌≡◌};
ghost use Rattle.lc_model.specs.Packet.{is_telemetry_mid};

/// The first message id of telemetry with a secondary header.
pub const FIRST_TELEMETRY: u16 = 0x0800;

/// The last message id of telemetry with a secondary header.
pub const LAST_TELEMETRY: u16 = 0x0FFF;

/// Event packets, out.
pub const EVENT: u16 = 0x0808;

/// Housekeeping of the Limit Checker, out.
pub const LC_HOUSEKEEPING: u16 = 0x08A7;

/// Sequence requests, out.
pub const SEQUENCE: u16 = 0x18A9;

/// Ticks, inside the host.
pub const TICK: u16 = 0x18C0;

/// Commands to the event services.
pub const EVENT_SERVICES: u16 = 0x1801;

/// Commands to the table services.
pub const TABLE_SERVICES: u16 = 0x1804;

/// Commands to the executive services.
pub const EXECUTIVE_SERVICES: u16 = 0x1806;

/// Commands to the Limit Checker.
pub const LC_COMMAND: u16 = 0x18A4;

/// Requests for the Limit Checker's housekeeping.
pub const LC_HOUSEKEEPING_REQUEST: u16 = 0x18A5;

/// Requests to sample the Limit Checker's rules.
pub const SAMPLE: u16 = 0x18A6;

/// Commands to the counter.
pub const COUNTER: u16 = 0x18C1;

/// Whether a message id is telemetry's, 0x0800 to 0x0FFF.
pub fn is_telemetry(mid: u16) -> bool
    ensures { result ≡ is_telemetry_mid mid }
{
    FIRST_TELEMETRY <= mid && mid <= LAST_TELEMETRY
}
