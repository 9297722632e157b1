//! The data of a page, record by record.

ghost use Rattle.run_stepper.specs.Stepping.{IsAtRest};

use crate::behind::Behind;
use crate::clock::{RecordClock, ticks_in};
use crate::entry::value_entry;
use crate::lanes::Lanes;
use crate::lists::Lists;
use crate::sampling::sample_count;
use lc_model::EventKind;
use rpn_compiler::RuleText;
use run_account::{Requests, RunAccount, may_change};
use run_stepper::Stepping;
use run_summary::{Account, FieldRange, Place, Seen, TypesOn};
use schedules::Schedule;
use std::alloc::{AllocError, Global};

/// The data of a page about a part of a run, up to its newest record.
#[derive(Drop)]
pub struct Telling<'a, 's> {
    schedule: &'s Schedule,
    /// The place of the last record.
    before: Place,
    /// Whether the next record is the first that is shown.
    is_anew: bool,
    pub(crate) clock: RecordClock,
    pub(crate) lanes: Lanes,
    pub(crate) lists: Lists,
    pub(crate) behind: Behind,
    pub(crate) account: Account<'a>,
}

/// Adds the new values of the fields that the packet at this place brought, which lie in this range.
fn tell_values(
    seen: &[Seen<'_>],
    range: FieldRange,
    place: Place,
    lists: &mut Lists,
) -> Result<(), AllocError> {
    let Some(seen) = seen.get(range.first..range.end) else {
        return Ok(());
    };
    for (index, seen) in seen.iter().enumerate() {
        if let Some(met) = seen.come_in(place) {
            lists.value(range.first.saturating_add(index), value_entry(place, met))?;
        }
    }
    Ok(())
}

/// The types of events that the host has on for the Limit Checker.
fn types_of(stepping: &Stepping) -> TypesOn {
    TypesOn {
        debug: stepping.is_type_on(EventKind::Debug),
        information: stepping.is_type_on(EventKind::Information),
        error: stepping.is_type_on(EventKind::Error),
        critical: stepping.is_type_on(EventKind::Critical),
    }
}

/// Takes what may have changed with a record: the run's text in force, and the types of events that are on for the Limit Checker.
fn show(account: &mut Account<'_>, stepping: &Stepping, record: &[u8], force: Option<usize>) {
    if may_change(record, stepping.packets()) {
        account.show(force, types_of(stepping));
    }
}

impl<'a, 's> Telling<'a, 's> {
    /// The data before the first record of a run of these texts under this schedule. The only error is a lack of memory.
    pub(crate) fn new(
        alloc: Global,
        texts: Vec<RuleText<'a>>,
        schedule: &'s Schedule,
    ) -> Result<Telling<'a, 's>, AllocError> {
        let account = Account::new(alloc, texts)?;
        let lists = Lists::new(alloc, account.lanes, account.seen.len())?;
        let lanes = Lanes::new(alloc, schedule, account.lanes)?;
        Ok(Telling {
            schedule,
            before: Place { record: 1, time: 0 },
            is_anew: true,
            clock: RecordClock::new(),
            lanes,
            lists,
            behind: Behind::new(alloc),
            account,
        })
    }

    /// Takes a record that requested this number of samples, and after which rules changed, or the first record.
    fn take_new(&mut self, place: Place, written: &[u8], samples: usize) -> Result<(), AllocError> {
        let stands = self.behind.rules.as_slice();
        self.account.sample(place, stands, samples > 0)?;
        self.account.write(written, place, stands, samples)?;
        self.account.stand(place, self.behind.mode, stands)?;
        self.lists.stand(place, stands)
    }

    /// Takes a record that requested this number of samples, and after which no rule changed: no sample counts, and the rules before the
    /// next record are known.
    fn take_same(
        &mut self,
        place: Place,
        written: &[u8],
        samples: usize,
    ) -> Result<(), AllocError> {
        let stands = self.behind.rules.as_slice();
        self.account.write(written, place, stands, samples)?;
        self.account.stand_again(place, self.behind.mode)
    }

    /// Takes the results of a record. `run` is the account of the run up to it. The only error is a lack of memory.
    fn take_samples(&mut self, place: Place, run: &RunAccount<'_>) -> Result<(), AllocError> {
        let schedule = self.schedule;
        if self.is_anew {
            self.lanes.begin_anew(place);
            self.before = place;
            self.is_anew = false;
        }
        let before = self.before;
        self.before = place;
        self.lanes
            .take(schedule, run.results(), run.clock(), before, place)
    }

    /// Looks at the rules after a record, if they may differ from those before it. Returns whether they do, or are looked at first.
    fn look(&mut self, stepping: &Stepping, may_differ: bool) -> Result<bool, AllocError>
        requires { IsAtRest stepping.now }
    {
        if may_differ || !self.behind.looked {
            return self.behind.look(stepping);
        }
        Ok(false)
    }

    /// Takes a record that was handled and requested these samples. `run` is the account of the run up to it.
    pub(crate) fn take(
        &mut self,
        stepping: &Stepping,
        record: &[u8],
        requests: Requests<'_>,
        run: &RunAccount<'_>,
    ) -> Result<(), AllocError>
        requires { IsAtRest stepping.now }
    {
        let place = self.clock.next(run.records(), ticks_in(record));
        let samples = sample_count(requests);
        self.take_samples(place, run)?;
        self.account.add_record(record, place)?;
        let came = self.account.came;
        tell_values(self.account.seen.as_slice(), came, place, &mut self.lists)?;
        let may_differ = !requests.is_nothing() || may_change(record, stepping.packets());
        let is_new = self.look(stepping, may_differ)?;
        show(&mut self.account, stepping, record, run.text_in_force());
        if is_new {
            return self.take_new(place, stepping.packets(), samples);
        }
        self.take_same(place, stepping.packets(), samples)
    }

    /// Begins the part that is shown: drops what was taken so far, except what the account knows. The only error is a lack of memory.
    pub(crate) fn begin_anew(&mut self, alloc: Global) -> Result<(), AllocError> {
        let lanes = self.lists.lanes();
        self.lists = Lists::new(alloc, lanes, self.account.seen.len())?;
        self.behind = Behind::new(alloc);
        self.clock.begin_anew();
        self.account.begin_anew();
        self.is_anew = true;
        Ok(())
    }
}
