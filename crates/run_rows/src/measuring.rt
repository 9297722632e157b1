//! How a call is measured.

use std::time::Instant;

/// The number of measurements of each call; the least time counts.
const RUNS: u32 = 50;

/// Work whose time is measured.
pub trait Work {
    /// Does the work once and returns its amount: bytes, items, packets or words.
    fn once(&mut self) -> anyhow::Result<usize>;
}

/// Does the work 50 times and prints its amount and the least time of one, in nanoseconds.
/// The error is the work's, the clock's or the output's.
pub fn measure<W: Work>(rt: &HostRuntime, work: &mut W) -> anyhow::Result<()> {
    let mut done = 0;
    let mut least = u128::MAX;
    for _ in 0..RUNS {
        let start = Instant::now(rt)?;
        done = work.once()?;
        least = least.min(start.elapsed(rt)?.as_nanos());
    }
    println!(rt; "{done} in {least} nanoseconds")?;
    Ok(())
}
