//! Measures the calls of the Limit Checker's engine: telemetry packets, and samples of all rules.

use crate::engine::engine_with;
use crate::measuring::{Work, measure};
use lc_model::{ALL_RULES, SampleRequest, TABLE_ENTRIES};
use limit_engine::{Asked, Engine};

/// The length of a packet in bytes.
const PACKET: usize = 16;

/// How often one measurement sees the packets, or samples all rules.
const ROUNDS: usize = 1_000;

/// Gives one packet to the engine. It isn't inlined, so that the compiler knows nothing of the packet.
#[inline(never)]
fn see(engine: &mut Engine, packet: &[u8]) {
    engine.telemetry(packet);
}

/// Gives each packet to the engine, one for every 16 bytes.
fn see_all(engine: &mut Engine, packets: &[u8]) {
    for packet in packets.chunks(PACKET) {
        see(engine, packet);
    }
}

/// The work of seeing packets; its amount is their number.
#[derive(Drop)]
struct Seeing<'a> {
    engine: Engine,
    packets: &'a [u8],
}

impl Work for Seeing<'_> {
    fn once(&mut self) -> anyhow::Result<usize> {
        for _ in 0..ROUNDS {
            see_all(&mut self.engine, self.packets);
        }
        Ok((self.packets.len() / PACKET).saturating_mul(ROUNDS))
    }
}

/// Measures `Engine::telemetry` with the tables of `text`, over packets of 16 bytes each; prints packets and time.
/// The error is the text's or the system's.
pub fn measure_telemetry(rt: &HostRuntime, text: &[u8], packets: &[u8]) -> anyhow::Result<()> {
    let engine = engine_with(rt.alloc(), text)?;
    measure(rt, &mut Seeing { engine, packets })
}

/// The work of sampling all rules; its amount is the number of words evaluated, EQUAL included.
#[derive(Drop)]
struct Sampling {
    engine: Engine,
    asked: Vec<Asked>,
}

impl Sampling {
    /// Samples all rules once.
    #[inline(never)]
    fn sample_all(&mut self) {
        let request = SampleRequest {
            first: ALL_RULES,
            last: ALL_RULES,
            ages: false,
        };
        self.asked.clear();
        if TABLE_ENTRIES <= self.asked.capacity() {
            self.engine.sample(&request, &mut self.asked);
        }
    }
}

impl Work for Sampling {
    fn once(&mut self) -> anyhow::Result<usize> {
        for _ in 0..ROUNDS {
            self.sample_all();
        }
        Ok(self.engine.steps().saturating_mul(ROUNDS))
    }
}

/// Measures samples of all rules of `text` after the packets, of 16 bytes each, are seen; prints words and time.
/// The error is the text's or the system's.
pub fn measure_samples(rt: &HostRuntime, text: &[u8], packets: &[u8]) -> anyhow::Result<()> {
    let mut engine = engine_with(rt.alloc(), text)?;
    see_all(&mut engine, packets);
    let asked = Vec::with_capacity(rt.alloc(), TABLE_ENTRIES)?;
    measure(rt, &mut Sampling { engine, asked })
}
