//! What the Limit Checker's engine reports of its work over a row: it is given the tables of the first rule text, and then the
//! telemetry and the sample requests of the stream.

ghost use Rattle.std.specs.Prelude.{◌≡◌, ◌≤◌, vec_capacity};

use crate::engine::engine_with;
use flight_core::{Found, Records};
use lc_model::{Body, Record, TABLE_ENTRIES, mids, packet, sample_request};
use limit_engine::{Asked, Engine};
use std::alloc::Global;

/// The engine sees a packet of telemetry, or takes a sample request.
fn see(engine: &mut Engine, packet: &[u8], asked: &mut Vec<Asked>)
    requires { TABLE_ENTRIES ≤ vec_capacity asked.old }
    ensures { vec_capacity asked.new ≡ vec_capacity asked.old }
{
    if packet.len() < 8 {
        return;
    }
    match packet::message_id(packet) {
        mids::FIRST_TELEMETRY..=mids::LAST_TELEMETRY => {
            engine.telemetry(packet);
        }
        mids::SAMPLE => {
            if let Ok(request) = sample_request(packet) {
                asked.clear();
                engine.sample(&request, asked);
            }
        }
        _ => {}
    }
}

/// How many words the last sample evaluated, and with how many message ids the last packet of telemetry was compared.
pub fn effort(alloc: Global, text: &[u8], stream: &[u8]) -> anyhow::Result<(usize, usize)> {
    let mut engine = engine_with(alloc, text)?;
    let mut asked = Vec::with_capacity(alloc, TABLE_ENTRIES)?;
    let mut records = Records::new(alloc, 1)?;
    if records.feed(stream) < stream.len() {
        anyhow::bail!(
            "a stream of {} bytes is too long for its effort",
            stream.len()
        );
    }
    for _ in 0..stream.len() {
        match records.next() {
            Some(
                Found::Record(
                    Record {
                        moment: _,
                        body: Body::Packet(packet),
                    },
                ),
            ) => {
                see(&mut engine, packet, &mut asked);
            }
            Some(_) => {}
            None => break,
        }
    }
    Ok((engine.steps(), engine.probes()))
}
