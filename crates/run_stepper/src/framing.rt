//! The limits of records in a stream (this project's own format): kind, moment, length and body.

ghost use Rattle.std.specs.Prelude.{◌≡◌, ◌<◌, ◌≤◌, length};
ghost use Rattle.run_stepper.specs.Trace.{moment_in, size_in_front};

use lc_model::Moment;
use lc_model::stream::{self, HEADER, body_size};

/// The size in bytes of the record in front, by its header, or of the rest of the stream if that is shorter.
pub fn record_size(rest: &[u8]) -> usize
    requires { 0 < length rest.now }
    ensures exact { result ≡ size_in_front rest.now }
    ensures some { 0 < result }
    ensures within { result ≤ length rest.now }
{
    if rest.len() < HEADER {
        return rest.len();
    }
    body_size(rest).saturating_add(HEADER).min(rest.len())
}

/// The moment of a record; second 0 if its header is cut short.
pub fn moment_of(record: &[u8]) -> Moment
    ensures { result ≡ moment_in «record».now }
{
    if record.len() < HEADER {
        return Moment {
            seconds: 0,
            subseconds: 0,
        };
    }
    stream::moment_of(record)
}
