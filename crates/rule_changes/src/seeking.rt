//! Looks for a situation in which one condition is true and another one is not.

ghost use Rattle.std.specs.Prelude.{IfOk, IfSome};
ghost use Rattle.lc_model.specs.Condition.{condition_of};
ghost use Rattle.rule_changes.specs.Situations.{ShowsOnlyFirst};

use crate::known::{KNOWN_MID, known_number};
use crate::situation::{Situation, shows_only_first};
use lc_model::packet::{LONGEST_PACKET, TELEMETRY_HEADERS, padded_message_id};
use lc_model::{Cond, Term};
use rule_analysis::{Decision, Field, but_not, decide, lay_out};
use std::alloc::{AllocError, Global};

/// The most steps of the search among situations in which all fields are known.
const KNOWN_STEPS: u32 = 1 << 14;

/// Why a comparison is not known, if its packet has others that are.
#[derive(Clone, Copy, PartialEq, Eq)]
enum Way {
    /// It is too old if it can be; the packet is never cut.
    Age,
    /// The packet ends before its field if it can; else it is too old.
    Cut,
}

/// Values of fields, and which comparisons are known.
#[derive(Clone, Copy)]
struct ChosenValues<'c> {
    terms: &'c [Term],
    fields: &'c [Field],
    bits: &'c [u32],
}

/// The place after the last byte of the term's field.
fn end_of(term: &Term) -> usize {
    (term.offset as usize).saturating_add(term.kind.width())
}

impl<'c> ChosenValues<'c> {
    /// Whether the term has to be known; `None` if either will do.
    fn is_known(self, term: &Term) -> Option<bool> {
        let number = known_number(self.terms, term);
        let at = self.fields.iter().position(|field| {
            field.mid == KNOWN_MID && field.offset as usize == number
        })?;
        let bits = self.bits.get(at)?;
        Some(*bits & 1 == 1)
    }

    /// Whether some term that reads packets of this message id has to be known (or unknown, for `known` false).
    fn needs(self, mid: u16, known: bool) -> bool {
        self.terms.iter().any(|term| term.mid == mid && self.is_known(term) == Some(known))
    }

    /// The place after the last field of these packets that has to be known.
    fn known_end(self, mid: u16) -> usize {
        let mut end = 0;
        for term in self.terms {
            if term.mid == mid && self.is_known(term) == Some(true) {
                end = end_of(term).max(end);
            }
        }
        end
    }

    /// The agings after which those terms are too old that have to be unknown in packets of this message id of this size.
    fn agings(self, mid: u16, size: usize) -> u32 {
        let mut agings = 0;
        for term in self.terms {
            if term.mid == mid && end_of(term) <= size && self.is_known(term) == Some(false) {
                agings = term.stale.max(agings);
            }
        }
        agings
    }

    /// Appends the fields of packets that have bits (or have none, for `chosen` false), each with its bits (or 0).
    fn push_fields(
        self,
        chosen: bool,
        fields: &mut Vec<Field>,
        bits: &mut Vec<u32>,
    ) -> Result<(), AllocError> {
        for at in 0..self.fields.len() {
            let field = self.fields[at];
            let own = self.bits.get(at);
            if field.mid != KNOWN_MID && own.is_some() == chosen {
                fields.push(field)?;
                bits.push(own.copied().unwrap_or(0))?;
            }
        }
        Ok(())
    }

    /// Packets with all fields. Those with chosen bits are laid over the others.
    fn packets(self, alloc: Global) -> Result<Vec<Vec<u8>>, AllocError> {
        let mut fields = Vec::new(alloc);
        let mut bits = Vec::new(alloc);
        self.push_fields(false, &mut fields, &mut bits)?;
        self.push_fields(true, &mut fields, &mut bits)?;
        lay_out(alloc, &fields, &bits)
    }

    /// Adds a packet to the situation, so that those of its comparisons are known that have to be, if it can be had so.
    fn add(self, packet: Vec<u8>, way: Way, situation: &mut Situation) -> Result<(), AllocError> {
        let mid = padded_message_id(&packet);
        if !self.needs(mid, false) {
            return Ok(situation.recent.push(packet)?);
        }
        if !self.needs(mid, true) {
            return Ok(());
        }
        let mut packet = packet;
        if way == Way::Cut {
            cut(&mut packet, self.known_end(mid));
        }
        let agings = self.agings(mid, packet.len());
        if agings == 0 {
            return Ok(situation.recent.push(packet)?);
        }
        situation.agings = agings.max(situation.agings);
        Ok(situation.earlier.push(packet)?)
    }

    /// A situation with these values, in which packets don't come, are cut or are old where comparisons have to be unknown.
    fn situation(self, alloc: Global, way: Way) -> Result<Situation, AllocError> {
        let mut situation = Situation {
            recent: Vec::new(alloc),
            agings: 0,
            earlier: Vec::new(alloc),
        };
        for packet in self.packets(alloc)? {
            self.add(packet, way, &mut situation)?;
        }
        Ok(situation)
    }
}

/// Cuts a packet after this many bytes, but not its headers, and writes the new length into its header.
fn cut(packet: &mut Vec<u8>, size: usize) {
    let size = size.max(TELEMETRY_HEADERS);
    if size >= packet.len() || size > LONGEST_PACKET {
        return;
    }
    packet.truncate(size);
    packet[4] = ((size - 7) / 256) as u8;
    packet[5] = ((size - 7) % 256) as u8;
}

/// A situation with recent packets alone, in which all fields are known, the first condition is true and the second one is not.
fn with_known_fields(
    alloc: Global,
    first: &Cond,
    second: &Cond,
) -> Result<Option<Situation>, AllocError>
    ensures { IfOk result (λ found. IfSome found
        (ShowsOnlyFirst (condition_of first.now) (condition_of second.now))) }
{
    let question = but_not(alloc, first, second)?;
    let mut steps = KNOWN_STEPS;
    let Decision::Holds { fields, bits } = decide(alloc, &question, &mut steps)? else {
        return Ok(None);
    };
    let situation = Situation {
        recent: lay_out(alloc, &fields, &bits)?,
        agings: 0,
        earlier: Vec::new(alloc),
    };
    if shows_only_first(first, second, &situation) {
        Ok(Some(situation))
    } else {
        Ok(None)
    }
}

/// A situation in which the first condition is true and the second one is not; `None` if none is found. `fields` and `bits` are values
/// of the fields of `terms` with which that is so, where each field and each known-comparison is free; there may be none.
pub(crate) fn seek(
    alloc: Global,
    first: &Cond,
    second: &Cond,
    terms: &[Term],
    fields: &[Field],
    bits: &[u32],
) -> Result<Option<Situation>, AllocError>
    ensures { IfOk result (λ found. IfSome found
        (ShowsOnlyFirst (condition_of first.now) (condition_of second.now))) }
{
    if let Some(situation) = with_known_fields(alloc, first, second)? {
        return Ok(Some(situation));
    }
    let values = ChosenValues {
        terms,
        fields,
        bits,
    };
    for way in [Way::Age, Way::Cut] {
        let situation = values.situation(alloc, way)?;
        if shows_only_first(first, second, &situation) {
            return Ok(Some(situation));
        }
    }
    Ok(None)
}
