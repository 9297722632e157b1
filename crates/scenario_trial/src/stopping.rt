//! The place at which a run stops before the end of its stream.

ghost use Rattle.std.specs.Prelude.{◌≡◌};
ghost use Rattle.scenario_trial.specs.Arrivals.{is_whole};

use run_stepper::Ending;
use stream_script::{Front, ScriptStream, front_of};

/// Whether a run went to the end of its stream.
pub fn is_whole(ending: Ending) -> bool
    ensures { result ≡ is_whole ending }
{
    match ending {
        Ending::Whole { records: _ } => true,
        Ending::NoRecord { n: _ } => false,
        Ending::Cut { n: _ } => false,
        Ending::Bound => false,
    }
}

/// The number of records that were handled before the run stopped.
fn records_before(ending: Ending) -> u64 {
    match ending {
        Ending::Whole { records } => records,
        Ending::NoRecord { n } => n.saturating_sub(1),
        Ending::Cut { n } => n.saturating_sub(1),
        Ending::Bound => u64::MAX,
    }
}

/// The size in bytes of the first records of a stream, up to this number of them.
fn size_of_records(stream: &[u8], count: u64) -> usize {
    let mut rest = stream;
    for _ in 0..count {
        let Front::Record { kind: _, size } = front_of(rest) else {
            break;
        };
        let Some((_, behind)) = rest.split_at_checked(size) else {
            break;
        };
        rest = behind;
    }
    stream.len().saturating_sub(rest.len())
}

/// The line of a script, from 1, whose record stopped the run: the last line that begins at the end of the handled records, or before
/// it.
pub fn stop_line(said: &ScriptStream, ending: Ending) -> usize {
    let size = size_of_records(said.stream.as_slice(), records_before(ending));
    said.starts.iter().filter(|start| **start <= size).count()
}
