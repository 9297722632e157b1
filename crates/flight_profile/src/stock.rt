//! Spares of a run.

ghost use Rattle.std.specs.Prelude.{◌≡◌, ◌++◌, ◌∷◌, [], None, IfOk, OnOk};
ghost use Rattle.lc_model.specs.Name.{lc_name};
ghost use Rattle.lc_model.specs.Tables.HalvesAndBytes.{as_bytes};
ghost use Rattle.lc_model.specs.Tables.InForce.{layouts};
ghost use Rattle.host_refinement.specs.Keeping.{IsSpare};
ghost use Rattle.app_host.specs.Hosted.{member_of, objects_in};
ghost use Rattle.app_host.specs.Whole.{AreSpares};
ghost use Rattle.flight_core.specs.Run.{IsOfProfile};
ghost use Rattle.flight_profile.specs.Members.{meaning_of};
ghost use Rattle.flight_profile.specs.Stock.{names_of, own_names};

use crate::members::Member;
use app_host::App;
use command_counter::Counter;
use limit_checker::LimitChecker;
use schedules::Schedule;
use std::alloc::{AllocError, Global};
use tick_scheduler::Scheduler;

/// Adds a spare under this name. Conditions: that is its name, it holds no seat, and it is of this profile with this schedule;
/// and so are those that are there. Out of memory is the only error.
pub fn add<B: App>(
    stock: &mut Vec<B>,
    schedule: &Schedule,
    name: &[u8],
    app: B,
) -> Result<(), AllocError>
    requires spares { AreSpares (objects_in B.meaning stock.old.items) }
    requires profile { IsOfProfile schedule.now (objects_in B.meaning stock.old.items) }
    requires free { (B.meaning app).seat ≡ None }
    requires named { (B.meaning app).called ≡ name.now }
    requires kind { IsSpare (as_bytes layouts) schedule.now (member_of (B.meaning app)) }
    ensures spares { OnOk result (AreSpares (objects_in B.meaning stock.new.items)) }
    ensures profile { OnOk result
        (IsOfProfile schedule.now (objects_in B.meaning stock.new.items)) }
    ensures names { OnOk result
        (names_of (objects_in B.meaning stock.new.items) ≡ names_of
        (objects_in B.meaning stock.old.items) ++
        name.now ∷ []) }
{
    stock.push(app)?;
    Ok(())
}

/// Adds a Limit Checker. Conditions and error are those of `add`.
#[inline(never)]
fn add_checker(
    alloc: Global,
    stock: &mut Vec<Box<Member>>,
    schedule: &Schedule,
) -> Result<(), AllocError>
    requires spares { AreSpares (objects_in meaning_of stock.old.items) }
    requires profile { IsOfProfile schedule.now (objects_in meaning_of stock.old.items) }
    ensures spares { OnOk result (AreSpares (objects_in meaning_of stock.new.items)) }
    ensures profile { OnOk result
        (IsOfProfile schedule.now (objects_in meaning_of stock.new.items)) }
    ensures names { OnOk result
        (names_of (objects_in meaning_of stock.new.items) ≡ names_of
        (objects_in meaning_of stock.old.items) ++ lc_name ∷ []) }
{
    let app = Box::new(alloc, Member::Checker(LimitChecker::new(alloc)?))?;
    add(stock, schedule, b"LC", app)
}

/// The stock of this profile: four Limit Checkers, two schedulers with this schedule, and two counters. Out of memory is the only
/// error.
#[inline(never)]
pub fn own_stock(alloc: Global, schedule: &Schedule) -> Result<Vec<Box<Member>>, AllocError>
    ensures spares { IfOk result (λ stock. AreSpares (objects_in meaning_of stock.items)) }
    ensures profile { IfOk result
        (λ stock. IsOfProfile schedule.now (objects_in meaning_of stock.items)) }
    ensures names { IfOk result
        (λ stock. names_of (objects_in meaning_of stock.items) ≡ own_names) }
{
    let mut stock: Vec<Box<Member>> = Vec::new(alloc);
    add_checker(alloc, &mut stock, schedule)?;
    add_checker(alloc, &mut stock, schedule)?;
    add_checker(alloc, &mut stock, schedule)?;
    add_checker(alloc, &mut stock, schedule)?;
    let scheduler = Box::new(alloc, Member::Scheduler(Scheduler::new(alloc, schedule)?))?;
    add(&mut stock, schedule, b"SCH", scheduler)?;
    let other_scheduler = Box::new(alloc, Member::Scheduler(Scheduler::new(alloc, schedule)?))?;
    add(&mut stock, schedule, b"SCH", other_scheduler)?;
    let counter = Box::new(alloc, Member::Counter(Counter::new()))?;
    add(&mut stock, schedule, b"COUNTER", counter)?;
    let other_counter = Box::new(alloc, Member::Counter(Counter::new()))?;
    add(&mut stock, schedule, b"COUNTER", other_counter)?;
    Ok(stock)
}
