//! The packets that each record of a stream led to.

ghost use Rattle.std.specs.Prelude.{◌≡◌, ◌++◌, ◌∷◌, [], IfOk};
ghost use Rattle.run_stepper.specs.declared.ending.Ending.TheVariants as ended;
ghost use Rattle.run_stepper.specs.Steps.{part_of};
ghost use Rattle.run_stepper.specs.Trace.{arrived_by, arrived_from, has_record};
ghost use Rattle.run_stepper.specs.Watching.{step_shown};

use crate::ending::Ending;
use crate::framing::moment_of;
use crate::stepping::Stepping;
use lc_model::Moment;
use lc_model::packet::first_packet;
use std::alloc::{AllocError, Global};
use std::marker::Model;

/// A record's moment, and the packets that it led to, one after the other.
#[derive(Drop)]
struct Led {
    moment: Moment,
    packets: Vec<u8>,
}

impl Model for Led {
    ghost use Rattle.run_stepper.specs.Trace.{Part};

    ghost Value = { Part };

    ghost view = { λ led. record { moment = led.moment; packets = led.packets.items } };
}

impl Led {
    /// Copies these packets of a record at this moment. The only error is out of memory.
    fn of(alloc: Global, moment: Moment, packets: &[u8]) -> Result<Led, AllocError>
        ensures { IfOk result (λ led. led ≡ record { moment = moment; packets = packets.now }) }
    {
        Ok(Led {
            moment,
            packets: Vec::from_slice(alloc, packets)?,
        })
    }
}

/// A packet of a run, with the record that led to it.
#[derive(Drop)]
pub struct Came<'a> {
    /// The number of the record, from 0.
    pub place: usize,
    /// The moment of the record.
    pub moment: Moment,
    /// All bytes of the packet.
    pub packet: &'a [u8],
}

impl<'a> Model for Came<'a> {
    ghost use Rattle.run_stepper.specs.Trace.{Arrived};

    ghost Value = { Arrived };

    ghost view = { λ came. record { place = came.place; moment = came.moment; packet = came.packet.now } };
}

/// A run over a stream: the packets that each record led to, up to the first fault, and how the stream ended. An observer fills it.
#[derive(Drop)]
pub struct Trace {
    parts: Vec<Led>,
    ending: Ending,
}

impl Model for Trace {
    ghost use Rattle.run_stepper.specs.Trace.{Traced};

    ghost Value = { Traced };

    ghost view = { λ t. record { parts = t.parts.items; ending = t.ending } };
}

/// Appends the packets of the record with this number. The only error is out of memory.
fn push_packets<'a>(came: &mut Vec<Came<'a>>, place: usize, led: &'a Led) -> Result<(), AllocError>
    ensures { IfOk result (λ _. came.new.items ≡ came.old.items ++ arrived_by place led.now) }
{
    let mut rest = led.packets.as_slice();
    while let Some((packet, behind)) = first_packet(rest) {
        came.push(Came {
            place,
            moment: led.moment,
            packet,
        })?;
        rest = behind;
    }
    Ok(())
}

impl Trace {
    /// A trace without a record, of a stream that ended whole.
    pub fn new(alloc: Global) -> Trace
        ensures { result ≡ record { parts = []; ending = ended.Whole 0 } }
    {
        Trace {
            parts: Vec::new(alloc),
            ending: Ending::Whole { records: 0 },
        }
    }

    /// Adds the record that was handled last: its moment, and the packets that it led to. The only error is out of memory.
    pub fn add(&mut self, alloc: Global, stepping: &Stepping) -> Result<(), AllocError>
        ensures { IfOk result (λ _. self.new ≡ record {
          parts = self.old.parts ++ part_of (step_shown stepping.now) ∷ [];
          ending = self.old.ending;
        }) }
    {
        let moment = moment_of(stepping.last_record());
        let led = Led::of(alloc, moment, stepping.packets())?;
        self.parts.push(led)?;
        Ok(())
    }

    /// Stores how the stream ended.
    pub fn end(&mut self, ending: Ending)
        ensures { self.new ≡ record { parts = self.old.parts; ending = ending } }
    {
        self.ending = ending;
    }

    /// How the stream ended.
    pub fn ending(&self) -> Ending
        ensures { result ≡ self.now.ending }
    {
        self.ending
    }

    /// Whether some record was in one of these seconds, both ends included.
    pub fn has_record(&self, first: u32, last: u32) -> bool
        ensures { result ≡ has_record first last self.now.parts }
    {
        self.parts.iter().any(|led| first <= led.moment.seconds && led.moment.seconds <= last)
    }

    /// All packets of the run, each with its record, in order. The only error is out of memory.
    pub fn came(&self, alloc: Global) -> Result<Vec<Came<'_>>, AllocError>
        ensures { IfOk result (λ came. came.items ≡ arrived_from 0 self.now.parts) }
    {
        let mut came = Vec::new(alloc);
        for place in 0..self.parts.len() {
            push_packets(&mut came, place, &self.parts[place])?;
        }
        Ok(came)
    }
}
