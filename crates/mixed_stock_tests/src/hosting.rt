//! A host of boxes of any applications.

ghost use Rattle.std.specs.Prelude.{◌≡◌, ℕ, None};
ghost use Rattle.app_host.specs.Hosted.{object_at, shown};
ghost use Rattle.app_host.specs.Step.{IsBetween, IsNamed};
ghost use Rattle.app_host.specs.Whole.{IsWhole};

use app_host::{App, Host};
use app_host_tests::named::LetterApp;
use flight_profile::{Counter, LimitChecker, Schedule, Scheduler};
use lc_model::{Body, ByteSink, Moment, Record};
use std::alloc::{AllocError, Global};

/// The moment of all records.
const NOW: Moment = Moment {
    seconds: 100,
    subseconds: 0,
};

/// The command that the counter counts.
const COUNT: &[u8] = &[0x18, 0xC1, 0xC0, 0, 0, 1, 1, 0];

/// The names of the four.
const NAMES: [&[u8]; 4] = [b"LC", b"SCH", b"COUNTER", b"A"];

/// A command to the executive services that starts this application.
fn start(name: &[u8]) -> [u8; 28] {
    let mut packet = [0; 28];
    packet[..7].copy_from_slice(&[0x18, 0x06, 0xC0, 0, 0, 21, 1]);
    for (place, byte) in packet[8..].iter_mut().zip(name) {
        *place = *byte;
    }
    packet
}

/// The host handles a record, and returns how many calls of applications that took. Condition: a file's name has at most 40
/// bytes.
fn handle<B: App, W: ByteSink>(host: &mut Host<B>, body: Body<'_>, out: &mut W) -> Option<u32>
    requires between { IsBetween (shown B.meaning host.old) }
    requires named { IsNamed body }
    ensures { IsBetween (shown B.meaning host.new) }
{
    let answer = host.step(&Record { moment: NOW, body }, out);
    answer.ok().map(|_| host.calls())
}

/// Retires all applications that run, and returns how many came back. Nothing runs then.
fn retire_all<B: App>(host: &mut Host<B>) -> usize
    requires whole { IsWhole (shown B.meaning host.old) }
    ensures whole { IsWhole (shown B.meaning host.new) }
    ensures nobody { (seat : ℕ) → object_at seat (shown B.meaning host.new).seats ≡ None }
{
    let returned = host.retire_all();
    returned.iter().filter(|place| place.is_some()).count()
}

/// Makes a host with a Limit Checker, a scheduler, a counter and an application of another kind in stock; starts all four, gives
/// the counter its command, and ticks; then all four retire, and the host is closed. Returns how many calls of applications each of
/// these six records took, whether all four ran, and how many retired. Out of memory is the only error.
fn play<W: ByteSink>(
    alloc: Global,
    schedule: &Schedule,
    out: &mut W,
) -> Result<([Option<u32>; 6], bool, usize), AllocError> {
    let mut stock: Vec<Box<dyn App>> = Vec::new(alloc);
    stock.push(Box::new(alloc, LimitChecker::new(alloc)?)?)?;
    stock.push(Box::new(alloc, Scheduler::new(alloc, schedule)?)?)?;
    stock.push(Box::new(alloc, Counter::new())?)?;
    stock.push(Box::new(alloc, LetterApp::new(0))?)?;
    match Host::new(alloc, stock) {
        Err(_) => Err(AllocError),
        Ok(mut host) => {
            let calls = [
                handle(&mut host, Body::Packet(&start(NAMES[0])), out),
                handle(&mut host, Body::Packet(&start(NAMES[1])), out),
                handle(&mut host, Body::Packet(&start(NAMES[2])), out),
                handle(&mut host, Body::Packet(&start(NAMES[3])), out),
                handle(&mut host, Body::Packet(COUNT), out),
                handle(&mut host, Body::Tick, out),
            ];
            let all = all_run(&host);
            let retired = retire_all(&mut host);
            host.close();
            Ok((calls, all, retired))
        }
    }
}

/// Whether all four run. The host is one of boxes of any applications.
fn all_run(host: &Host) -> bool {
    NAMES.iter().all(|name| host.running(name))
}

mod tests {
    use super::play;
    use flight_profile::parse_schedule;
    use lc_model::Limited;

    /// A sample of all rules, and a housekeeping request, by turns.
    const SCHEDULE: &[u8] = b"slots 2\n0 sample 0 175 age\n1 housekeeping";

    #[test]
    fn four_kinds_run_side_by_side(rt: HostRuntime) {
        let schedule = parse_schedule(rt.alloc(), SCHEDULE).expect(&rt, "a schedule");
        let mut room = [0; 1_300];
        let mut out = Limited::new(&mut room, 1_300);
        let (calls, all, retired) = play(rt.alloc(), &schedule, &mut out).expect(&rt, "memory");
        assert!(rt; all, "all four run");
        assert_eq!(rt; retired, 4, "all four retire");
        // At the tick: the scheduler and the one of another kind, the Limit Checker for the sample, and that other one again for
        // each of the eight packets that it published.
        let wanted = [Some(0), Some(0), Some(0), Some(0), Some(1), Some(11)];
        assert_eq!(rt; calls, wanted, "calls");
        assert_eq!(rt;
            out.bytes().len(),
            6 * 168 + 9,
            "bytes: six events and nine letters"
        );
    }
}
