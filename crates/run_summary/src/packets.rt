//! Takes the packets that a record led to into the account.

use crate::about::{is, rule_of};
use crate::account::Account;
use crate::asking::{
    Ask, Askers, Asks, ask_at, askers_in, askers_of, asks_in, row_asked, samples_of,
};
use crate::bands::How;
use crate::figures::count;
use crate::holds::{Hold, hold_of};
use crate::place::{Place, Stand, stand_in};
use crate::plans::planned_at;
use crate::recent::{FieldValues, values_around};
use crate::samples::Sample;
use crate::sent::{Request, SeenEvent};
use lc_model::packet::{COUNT_END, first_packet};
use lc_model::u16_at;
use packet_listing::{Event, Sent, read_packet};
use std::alloc::AllocError;

/// The sequence count of a packet.
fn count_of(packet: &[u8]) -> u16 {
    if packet.len() < 4 {
        return 0;
    }
    u16_at(packet, 2) % COUNT_END
}

impl<'a> Account<'a> {
    /// Whether tables come into force with one of these packets.
    fn is_adoption_in(&self, packets: &[u8]) -> bool {
        let mut rest = packets;
        for _ in 0..packets.len() {
            let Some((packet, behind)) = first_packet(rest) else {
                return false;
            };
            let is_one = match read_packet(packet) {
                Some(Sent::Event(event)) => is(event.sender, b"LC")
                    && (event.id == 1 || event.id == 2),
                Some(Sent::Housekeeping { .. }) => self.bands.has_changed(),
                _ => false,
            };
            if is_one {
                return true;
            }
            rest = behind;
        }
        false
    }

    /// The requests among the packets of a record in which this number of samples was requested, with what tells their rules. The only
    /// error is a lack of memory.
    fn asks(&self, packets: &[u8], stands: &[Stand], samples: usize) -> Result<Asks, AllocError> {
        let all = asks_in(self.alloc, packets)?;
        if all.is_empty() {
            return Ok(Asks {
                all,
                askers: None,
                is_in_order: false,
            });
        }
        let askers = askers_in(self.alloc, self.lanes, self.before.as_slice(), stands)?;
        let are_all = askers.len() == all.len() && !self.is_adoption_in(packets);
        Ok(Asks {
            all,
            askers: if are_all { Some(askers) } else { None },
            is_in_order: samples == 1,
        })
    }

    /// How often a rule failed in a row at a request, if it is known.
    fn fails_at(
        &self,
        asks: &Asks,
        ask: Ask,
        rule: Option<usize>,
        stands: &[Stand],
    ) -> Option<u16> {
        let Some(rule) = rule else {
            return None;
        };
        if ask.fails.is_some() || asks.askers.is_none() || !asks.is_in_order {
            return ask.fails;
        }
        Some(stand_in(stands, rule).fails)
    }

    /// What holds back the event of a rule if it doesn't come, if the rule is known.
    fn hold_by(&self, rule: Option<usize>) -> Option<Hold> {
        match rule {
            None => None,
            Some(rule) => {
                let text = self.bands.text();
                hold_of(planned_at(self.plans.as_slice(), text, rule), self.types)
            }
        }
    }

    /// The rule that made the request of this number in its record, or those that may have.
    fn askers(&self, asks: &Asks, number: usize) -> Result<Askers, AllocError> {
        let plans = self.plans.as_slice();
        askers_of(
            self.alloc,
            plans,
            self.bands.text(),
            self.lanes,
            asks,
            number,
        )
    }

    /// The samples that counted for a request of this rule, if there is room for them.
    fn samples_asked(
        &mut self,
        asks: &Asks,
        rule: Option<usize>,
    ) -> Result<Vec<Sample>, AllocError> {
        let text = self.bands.text();
        let certain = if asks.askers.is_some() { rule } else { None };
        let row = row_asked(self.rows.as_slice(), certain);
        samples_of(self.alloc, row, text, &mut self.sending)
    }

    /// The newest values of the fields that a rule compares.
    fn values_asked(&self, rule: Option<usize>) -> Result<Vec<FieldValues>, AllocError> {
        let parts = match rule {
            Some(rule) => self.parts(self.bands.text(), rule),
            None => &[],
        };
        values_around(self.alloc, parts, self.recent.as_slice())
    }

    /// Takes the request of this number in its record. The only error is a lack of memory.
    fn request(
        &mut self,
        packet: &[u8],
        place: Place,
        asks: &Asks,
        number: usize,
        stands: &[Stand],
    ) -> Result<(), AllocError> {
        let ask = ask_at(asks, number);
        let askers = self.askers(asks, number)?;
        let rule = askers.rule;
        let hold = self.hold_by(rule);
        let counted = self.fails_at(asks, ask, rule, stands);
        let samples = self.samples_asked(asks, rule)?;
        let around = self.values_asked(rule)?;
        count(&mut self.figures.requests);
        let request = Request {
            packet: self.figures.packets,
            place,
            rule,
            text: self.bands.text(),
            sequence: ask.sequence,
            count: count_of(packet),
            event: None,
            hold,
            counted,
            are_more: askers.are_more,
            one_of: askers.one_of,
            samples,
            around,
        };
        self.sending.request(request)
    }

    /// Takes the tables in force from an event with this sender, id and text, if it reports any.
    fn take_in_force(
        &mut self,
        sender: &[u8],
        id: u16,
        text: &[u8],
        place: Place,
    ) -> Result<(), AllocError> {
        if !is(sender, b"LC") {
            return Ok(());
        }
        if id == 2 {
            return self.enforce(place, How::Adopted);
        }
        if id == 1 {
            if is(text, b"started with tables") {
                return self.enforce(place, How::Started);
            }
            return self.enforce(place, How::None);
        }
        Ok(())
    }

    /// Keeps an event.
    fn tell_event(&mut self, place: Place, event: Event<'_>) -> Result<(), AllocError> {
        let number = self.figures.packets;
        let sender = Vec::from_slice(self.alloc, event.sender)?;
        let text = Vec::from_slice(self.alloc, event.text)?;
        self.sending.event(SeenEvent {
            packet: number,
            place,
            rule: rule_of(event.sender, event.id, event.text),
            sender,
            id: event.id,
            kind: event.kind,
            text,
        })
    }

    /// Takes an event. The only error is a lack of memory.
    fn event(&mut self, place: Place, event: Event<'_>) -> Result<(), AllocError> {
        self.figures.take_event(event.kind);
        self.take_in_force(event.sender, event.id, event.text, place)?;
        self.tell_event(place, event)
    }

    /// Takes that tables were adopted, if `is_adoption`. The only error is a lack of memory.
    fn adopt_if(&mut self, place: Place, is_adoption: bool) -> Result<(), AllocError> {
        if is_adoption {
            return self.enforce(place, How::Adopted);
        }
        Ok(())
    }

    /// Takes a housekeeping packet, with which every adoption ends. The only error is a lack of memory.
    fn housekeep(&mut self, place: Place) -> Result<(), AllocError> {
        count(&mut self.figures.housekeeping);
        let has_changed = self.bands.has_changed();
        self.adopt_if(place, has_changed)
    }

    /// Takes the content of a packet. `number` counts the requests of the record before it. The only error is a lack of memory.
    fn add_sent(
        &mut self,
        sent: Sent<'_>,
        packet: &[u8],
        place: Place,
        asks: &Asks,
        number: &mut usize,
        stands: &[Stand],
    ) -> Result<(), AllocError> {
        match sent {
            Sent::Request(_) => {
                let this = *number;
                *number = this.saturating_add(1);
                self.request(packet, place, asks, this, stands)
            }
            Sent::Event(event) => self.event(place, event),
            Sent::Housekeeping { .. } => self.housekeep(place),
        }
    }

    /// Takes a packet. The only error is a lack of memory.
    fn read(
        &mut self,
        packet: &[u8],
        place: Place,
        asks: &Asks,
        number: &mut usize,
        stands: &[Stand],
    ) -> Result<(), AllocError> {
        count(&mut self.figures.packets);
        match read_packet(packet) {
            Some(sent) => self.add_sent(sent, packet, place, asks, number, stands),
            None => {
                count(&mut self.figures.other);
                Ok(())
            }
        }
    }

    /// Takes all packets that a record led to, in which this number of samples was requested, and the rules after it. The only error is a
    /// lack of memory.
    pub fn write(
        &mut self,
        packets: &[u8],
        place: Place,
        stands: &[Stand],
        samples: usize,
    ) -> Result<(), AllocError> {
        let asks = self.asks(packets, stands, samples)?;
        let mut rest = packets;
        let mut number = 0usize;
        for _ in 0..packets.len() {
            let Some((packet, behind)) = first_packet(rest) else {
                return Ok(());
            };
            self.read(packet, place, &asks, &mut number, stands)?;
            rest = behind;
        }
        Ok(())
    }
}
