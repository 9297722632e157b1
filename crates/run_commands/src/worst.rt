//! The worst status of several trials.

ghost use Rattle.std.specs.Prelude.{◌≡◌};
ghost use Rattle.run_commands.specs.Worst.{IsWorse, IsWorst, answer_by, badness};

use tool_faults::Fault;

/// How bad a status is: worst is 5 (memory), then 3 (a file or a device), 4 (a stream), any other, 6 (nothing was sampled), and 0.
fn badness(status: u8) -> u8
    ensures { result ≡ badness status }
{
    match status {
        5 => 5,
        3 => 4,
        4 => 3,
        6 => 1,
        0 => 0,
        _ => 2,
    }
}

/// The worse of two statuses.
fn worse_status(one: u8, other: u8) -> u8
    ensures { IsWorse one other result }
{
    if badness(other) > badness(one) {
        other
    } else {
        one
    }
}

/// The worst of several statuses, or 0 if there are none.
pub fn worst_of(statuses: &[u8]) -> u8
    ensures { IsWorst statuses.now result }
{
    let mut worst = 0u8;
    for status in statuses {
        worst = worse_status(worst, *status);
    }
    worst
}

/// The result of trials with this worst status, whose faults are already written.
pub fn reported(status: u8) -> Result<(), Fault<'static>>
    ensures { result ≡ answer_by status }
{
    if status == 0 {
        Ok(())
    } else {
        Err(Fault::Reported(status))
    }
}
