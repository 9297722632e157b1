//! The account of a run, taken record by record. Its memory doesn't grow with the run.

use crate::asking::has_asked;
use crate::bands::{Bands, How};
use crate::brought::{Brought, read_record};
use crate::ends::Ends;
use crate::figures::Figures;
use crate::holds::{ALL_ON, TypesOn};
use crate::place::{ABSENT, Place, Stand, stand_in};
use crate::plans::{Part, RulePlans, parts_at, plans_of};
use crate::recent::{Recent, drop_values, no_values, take_values};
use crate::samples::FailRun;
use crate::seen::{FieldRange, NO_FIELDS, Seen, all_unseen, count_all_anew, forget_all, see_all};
use crate::sent::Sending;
use crate::texts::{fields_of, rule_count};
use crate::uplinks::{UPLINKS, Uplink, keep_uplink};
use lc_model::LcMode;
use rpn_compiler::RuleText;
use std::alloc::{AllocError, Global};

/// The account of a run up to its newest record.
#[derive(Drop)]
pub struct Account<'a> {
    pub(crate) alloc: Global,
    /// The rule texts, by number from 0.
    pub texts: Vec<RuleText<'a>>,
    pub(crate) plans: Vec<RulePlans>,
    /// The number of rules in the text with the most rules.
    pub lanes: usize,
    /// What is known of each field that the texts' rules compare.
    pub seen: Vec<Seen<'a>>,
    /// Where the fields lie of which the newest record brought values.
    pub came: FieldRange,
    pub(crate) recent: Vec<Recent>,
    pub(crate) rows: Vec<FailRun>,
    /// The rules before the newest record.
    pub(crate) before: Vec<Stand>,
    /// The changes of tables and modes.
    pub bands: Bands,
    pub(crate) types: TypesOn,
    /// The requests and events that are kept.
    pub sending: Sending,
    /// The ground commands, files and halves of rule texts that are kept.
    pub uplinks: Ends<Uplink>,
    /// The counts of the run.
    pub figures: Figures,
}

/// The number of rules in the text with the most rules.
fn most_rules(texts: &[RuleText<'_>]) -> usize {
    let mut most = 0usize;
    for text in texts {
        most = most.max(rule_count(text));
    }
    most
}

/// Empty rows of failures for `lanes` rules. The only error is a lack of memory.
fn no_rows(alloc: Global, lanes: usize) -> Result<Vec<FailRun>, AllocError> {
    let mut rows = Vec::new(alloc);
    for _ in 0..lanes {
        rows.push(FailRun::new(alloc))?;
    }
    Ok(rows)
}

/// `ABSENT` for `lanes` rules. The only error is a lack of memory.
fn no_stands(alloc: Global, lanes: usize) -> Result<Vec<Stand>, AllocError> {
    let mut stands = Vec::new(alloc);
    for _ in 0..lanes {
        stands.push(ABSENT)?;
    }
    Ok(stands)
}

/// Takes a record's samples into the rows of failures, rule by rule. The only error is a lack of memory.
fn take_rows(
    alloc: Global,
    place: Place,
    stands: &[Stand],
    plans: &[RulePlans],
    text: Option<usize>,
    seen: &[Seen<'_>],
    before: &[Stand],
    is_sampled: bool,
    rows: &mut Vec<FailRun>,
) -> Result<(), AllocError> {
    for rule in 0..rows.len() {
        let parts = parts_at(plans, text, rule);
        let stand = stand_in(stands, rule);
        let is_asked = is_sampled && has_asked(stand, stand_in(before, rule));
        rows[rule].take(alloc, place, stand, is_asked, parts, seen)?;
    }
    Ok(())
}

/// Stores the rules' results and states, one by one.
fn take_stands(stands: &[Stand], before: &mut [Stand]) {
    for rule in 0..before.len() {
        before[rule] = stand_in(stands, rule);
    }
}

impl<'a> Account<'a> {
    /// The account before the first record of a run of these texts. The only error is a lack of memory.
    pub fn new(alloc: Global, texts: Vec<RuleText<'a>>) -> Result<Account<'a>, AllocError> {
        let fields = fields_of(alloc, texts.as_slice())?;
        let lanes = most_rules(texts.as_slice());
        let plans = plans_of(alloc, texts.as_slice(), fields.as_slice())?;
        let rows = no_rows(alloc, lanes)?;
        let before = no_stands(alloc, lanes)?;
        let seen = all_unseen(alloc, fields.as_slice())?;
        let recent = no_values(alloc, fields.len())?;
        Ok(Account {
            alloc,
            texts,
            plans,
            lanes,
            seen,
            came: NO_FIELDS,
            recent,
            rows,
            before,
            bands: Bands::new(alloc),
            types: ALL_ON,
            sending: Sending::new(alloc),
            uplinks: Ends::new(alloc, UPLINKS, UPLINKS),
            figures: Figures::new(),
        })
    }

    /// The comparisons of the rule with this number in the text with this number, from left to right; empty if there is no such rule.
    pub fn parts(&self, text: Option<usize>, rule: usize) -> &[Part] {
        parts_at(self.plans.as_slice(), text, rule)
    }

    /// Takes a record: counts and keeps what it brings. Call it before `show`, `sample`, `write` and `stand` for that record. `came` and
    /// `Seen::come_in` then tell the field values that it brought. The only error is a lack of memory.
    pub fn add_record(&mut self, bytes: &[u8], place: Place) -> Result<(), AllocError> {
        let brings = read_record(bytes);
        self.figures.take(brings);
        if brings.is_uplink() {
            let text = self.bands.text();
            keep_uplink(self.alloc, &mut self.uplinks, place, text, bytes)?;
        }
        self.bring(brings, place)
    }

    /// Keeps what a record brings. The mode is that after the record before, since no telemetry changes it.
    fn bring(&mut self, brings: Brought<'_>, place: Place) -> Result<(), AllocError> {
        match brings {
            Brought::Telemetry(packet) => {
                let is_taken = self.bands.is_watching();
                self.came = see_all(&mut self.seen, packet, place, is_taken);
                take_values(self.seen.as_slice(), self.came, place, &mut self.recent)
            }
            Brought::Tick | Brought::Command | Brought::File => {
                self.came = NO_FIELDS;
                Ok(())
            }
        }
    }

    /// Takes what the host shows after the record: the number of the text in force, and the types of events that are on for the Limit
    /// Checker. Call it after `add_record` and before `sample` and `write`, where these may have changed.
    pub fn show(&mut self, force: Option<usize>, types: TypesOn) {
        self.types = types;
        self.bands.show(force);
    }

    /// Takes the record's samples, by the rules after it; `is_sampled`: whether it requested any. Call it before `write`. The only error is a lack of memory.
    pub fn sample(
        &mut self,
        place: Place,
        stands: &[Stand],
        is_sampled: bool,
    ) -> Result<(), AllocError> {
        let text = self.bands.text();
        take_rows(
            self.alloc,
            place,
            stands,
            self.plans.as_slice(),
            text,
            self.seen.as_slice(),
            self.before.as_slice(),
            is_sampled,
            &mut self.rows,
        )
    }

    /// Takes that tables came into force, and clears what comparisons meet. The only error is a lack of memory.
    pub(crate) fn enforce(&mut self, place: Place, how: How) -> Result<(), AllocError> {
        forget_all(&mut self.seen);
        self.bands.enforce(place, how)
    }

    /// Takes a change of the tables in force that no packet of the record reported.
    fn take_left(&mut self, place: Place, how: Option<How>) -> Result<(), AllocError> {
        match how {
            None => self.bands.begin(place),
            Some(how) => self.enforce(place, how),
        }
    }

    /// Takes the mode and the rules after a record. Call it after `write`. The only error is a lack of memory.
    pub fn stand(
        &mut self,
        place: Place,
        mode: Option<LcMode>,
        stands: &[Stand],
    ) -> Result<(), AllocError> {
        take_stands(stands, &mut self.before);
        self.stand_again(place, mode)
    }

    /// Takes the mode after a record that left all rules as they were. Then `sample` would do nothing, and `stand` would do the same as
    /// this. The only error is a lack of memory.
    pub fn stand_again(&mut self, place: Place, mode: Option<LcMode>) -> Result<(), AllocError> {
        let how = self.bands.how_left(mode);
        self.take_left(place, how)?;
        self.bands.take_mode(place, mode)
    }

    /// Begins a part of a run: drops the requests, events, commands and changes so far, and keeps what is known. The figures and the
    /// packets of fields count the part alone, but the number of packets that the run wrote goes on.
    pub fn begin_anew(&mut self) {
        count_all_anew(&mut self.seen);
        drop_values(&mut self.recent);
        let packets = self.figures.packets;
        self.sending = Sending::new(self.alloc);
        self.uplinks = Ends::new(self.alloc, UPLINKS, UPLINKS);
        self.figures = Figures::after(packets);
        self.bands.begin_anew();
    }
}
