//! Watches the run of the old text, and runs the new one beside it.

ghost use Rattle.std.specs.Prelude.{◌≡◌, ◌+◌, ◌++◌, ◌∷◌, [], ℕ, List, IfOk, OnOk};
ghost use Rattle.run_stepper.specs.Stepping.{IsAtRest, host_in, written_by};
ghost use Rattle.run_comparison.specs.Comparing.{HasCompared, HasFound, with_met};

use crate::asked::Asked;
use crate::beside::RunBeside;
use crate::forces::Forces;
use crate::met::{MetRecord, met_record};
use crate::texts::Sides;
use lc_model::packet::first_packet;
use packet_listing::{Sent, read_packet};
use run_account::RunAccount;
use run_stepper::{Observer, Stepping, WatchError};
use schedules::Schedule;
use std::alloc::{AllocError, Global};

/// What a run led to so far: the number of its events, and what it looked at.
#[derive(Drop)]
pub struct RunSoFar<'s> {
    /// Up to 2^64 - 1.
    pub events: u64,
    pub account: RunAccount<'s>,
}

/// The findings so far.
#[derive(Drop)]
pub struct Found<'s> {
    alloc: Global,
    keeps_all: bool,
    number: u64,
    pub records: Vec<MetRecord>,
    pub asked: Asked,
    pub old_run: RunSoFar<'s>,
    pub new_run: RunSoFar<'s>,
}

/// The observer of the old text's run: it has the new text's run take the same records, and compares what both lead to.
pub struct Comparing<'s> {
    beside: RunBeside,
    found: Found<'s>,
}

/// The number of events among packets that follow one another.
fn event_count(packets: &[u8]) -> u64 {
    let mut count = 0u64;
    let mut rest = packets;
    while let Some((packet, others)) = first_packet(rest) {
        if let Some(Sent::Event(_)) = read_packet(packet) {
            count = count.saturating_add(1);
        }
        rest = others;
    }
    count
}

/// Adds a record, if it is kept.
fn keep_met(records: &mut Vec<MetRecord>, met: Option<MetRecord>) -> Result<(), AllocError>
    ensures { OnOk result (records.new.items ≡ with_met records.old.items met) }
{
    match met {
        Some(met) => {
            records.push(met)?;
            Ok(())
        }
        None => Ok(()),
    }
}

impl RunSoFar<'_> {
    /// Takes the record that the run handled last.
    fn take(&mut self, stepping: &Stepping)
        requires { IsAtRest stepping.now }
    {
        self.events = self.events.saturating_add(event_count(stepping.packets()));
        self.account.add(stepping);
    }
}

impl<'s> Found<'s> {
    /// Nothing is found, and no record was handled. Out of memory is the only error.
    pub fn new(
        alloc: Global,
        sides: Sides<'_, '_>,
        schedule: &'s Schedule,
        keeps_all: bool,
    ) -> Result<Found<'s>, AllocError>
        ensures found { IfOk result (λ found. HasFound found [] []) }
        ensures keeps { IfOk result (λ found. found.keeps_all ≡ keeps_all) }
    {
        Ok(Found {
            alloc,
            keeps_all,
            number: 0,
            records: Vec::new(alloc),
            asked: Asked::nothing(alloc),
            old_run: RunSoFar {
                events: 0,
                account: RunAccount::new(alloc, sides.old.texts, schedule)?,
            },
            new_run: RunSoFar {
                events: 0,
                account: RunAccount::new(alloc, sides.new.texts, schedule)?,
            },
        })
    }

    /// The texts in force in both runs after the records so far.
    fn forces(&self) -> Forces {
        Forces {
            old: self.old_run.account.text_in_force(),
            new: self.new_run.account.text_in_force(),
        }
    }

    /// Takes the record that both runs handled last.
    pub fn show(&mut self, old: &Stepping, new: &Stepping) -> Result<(), WatchError>
        requires old { IsAtRest old.now }
        requires new { IsAtRest new.now }
        ensures found { (olds news : List (List ℕ)) → HasFound self.old olds news → OnOk result
            (HasFound self.new (olds ++ written_by old.now ∷ []) (news ++ written_by new.now ∷ [])) }
        ensures keeps { self.new.keeps_all ≡ self.old.keeps_all }
    {
        let Some(number) = self.number.checked_add(1) else {
            return Err(WatchError::Bound);
        };
        let forces = self.forces();
        let met = met_record(self.alloc, number, old, new, self.keeps_all, forces)?;
        keep_met(&mut self.records, met)?;
        self.asked.take(self.alloc, old.packets(), new.packets())?;
        self.number = number;
        self.old_run.take(old);
        self.new_run.take(new);
        Ok(())
    }
}

impl<'s> Comparing<'s> {
    /// The observer with this run of the new text, to which nothing has come.
    pub fn new(beside: RunBeside, found: Found<'s>) -> Comparing<'s>
        ensures beside { result.beside ≡ beside }
        ensures found { result.found ≡ found.entry }
    {
        Comparing { beside, found }
    }

    /// Ends the run of the new text, and returns what was found.
    pub fn end(self) -> Found<'s>
        ensures { result ≡ self.entry.found }
    {
        let Comparing { beside, found } = self;
        beside.close();
        found
    }
}

impl Observer for Comparing<'_> {
    ghost has_seen = { λ first it taken steps.
        HasCompared first.beside it.beside first.found it.found steps };

    fn read(&mut self, _piece: &[u8]) {}

    fn show(&mut self, stepping: &Stepping) -> Result<(), WatchError> {
        self.beside.step(stepping.last_record())?;
        self.found.show(stepping, self.beside.stepping())
    }
}
