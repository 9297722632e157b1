//! Adoption: tables come into force if an image is activated and matches that of the other table (cFS Limit Checker user's
//! guide, tables).

ghost use Rattle.std.specs.Prelude.{◌≡◌, ◌||◌, true, IfSome, IsSomeAnd, IsTrue, is_some, if◌then◌else◌, option_map};
ghost use Rattle.lc_model.specs.declared.kind.Kind.TheVariants.{Wdt, Adt};
ghost use Rattle.lc_model.specs.LimitChecker.Steps.{pair_to_adopt};
ghost use Rattle.lc_model.specs.Tables.Half.{IsMatch};
ghost use Rattle.lc_model.specs.Tables.InForce.{layouts};
ghost use Rattle.lc_model.specs.Tables.Slot as model;
ghost use Rattle.lc_model.specs.Tables.Slot.{Activated, taken, waiting_at};
ghost use Rattle.lc_model.specs.Tables.Spelled.{spelled_rules, spelled_terms};
ghost use Rattle.lc_model.specs.Kept.GoesWith.{subscriptions_of};
ghost use Rattle.lc_model.specs.Kept.Summary.{LcState};
ghost use Rattle.lc_model.specs.Services.Bus.{Queue, pipe_at, with_pipe};
ghost use Rattle.lc_model.specs.Services.Tables.{slot_at, slot_changed, table_at};
ghost use Rattle.app_host.specs.Resubscribing.{mids_of};
ghost use Rattle.app_host.specs.Shared.{on_board};
ghost use Rattle.limit_checker.specs.Housekeeping.{both_taken, own_adopted, pair_at, MayRenew};
ghost use Rattle.limit_checker.specs.Adoption.{are_matching, pair_of, HasSoundSlot, IsSoundPair};
ghost use Rattle.limit_engine.specs.Engine.{with_tables};

use app_host::{Services, subscribe_to, unsubscribe_from};
use lc_model::{Kind, Seat, Term, mids};
use limit_engine::Engine;
use packet_bus::Bus;
use table_file::preamble;
use table_validator::{ValidImage, judged_before};
use tbl_service::{Slot, Stage, Tables};

/// The message ids of commands, housekeeping requests and sample requests.
pub(crate) const REQUESTS: [u16; 3] = [
    mids::LC_COMMAND,
    mids::LC_HOUSEKEEPING_REQUEST,
    mids::SAMPLE,
];

/// The image with which a table would be adopted: the activated one, or else the active one.
fn candidate(tables: &Tables, slot: Slot) -> Option<&[u8]>
    requires { IsTrue (is_some (table_at slot tables.now.places)) }
    ensures { option_map (λ image. image.now) result ≡ model.candidate (slot_at slot tables.now) }
{
    match tables.pending(slot) {
        Some((Stage::Activated, image)) => Some(image),
        _other => tables.active(slot),
    }
}

/// Whether an activated image waits.
fn is_activated(tables: &Tables, slot: Slot) -> bool
    requires { IsTrue (is_some (table_at slot tables.now.places)) }
    ensures { result ≡ is_some (waiting_at Activated (slot_at slot tables.now)) }
{
    match tables.pending(slot) {
        Some((Stage::Activated, _image)) => true,
        _other => false,
    }
}

/// Whether at least one of the two tables has an activated image.
fn is_one_activated(tables: &Tables, wdt: Slot, adt: Slot) -> bool
    requires wdt { IsTrue (is_some (table_at wdt tables.now.places)) }
    requires adt { IsTrue (is_some (table_at adt tables.now.places)) }
    ensures { result ≡
        (is_some (waiting_at Activated (slot_at wdt tables.now)) || is_some
        (waiting_at Activated (slot_at adt tables.now))) }
{
    is_activated(tables, wdt) || is_activated(tables, adt)
}

/// The image with which a table would be adopted; it was validated before.
fn sound_candidate<'a>(tables: &'a Tables, slot: Slot, kind: Kind) -> Option<ValidImage<'a>>
    requires registered { IsTrue (is_some (table_at slot tables.now.places)) }
    requires sound { HasSoundSlot kind (slot_at slot tables.now) }
    ensures image { option_map (λ valid. valid.bytes) result ≡
        model.candidate (slot_at slot tables.now) }
    ensures kind { IfSome result (λ valid. valid.kind ≡ kind) }
{
    match candidate(tables, slot) {
        None => None,
        Some(image) => Some(judged_before(kind, image)),
    }
}

/// Whether a WDT and an ADT match: they have equal hashes and equal watchpoint counts.
pub(crate) fn belong_together(wdt: &ValidImage<'_>, adt: &ValidImage<'_>) -> bool
    requires wdt { wdt.now.kind ≡ Wdt }
    requires adt { adt.now.kind ≡ Adt }
    ensures { result ≡ are_matching wdt.now.bytes adt.now.bytes }
{
    preamble::hash(wdt.image()) == preamble::hash(adt.image())
        && preamble::watchpoint_count(wdt.image()) == preamble::watchpoint_count(adt.image())
}

/// The pair that is adopted, if there is one: the activated image of each table, or else its active one. At least one of them
/// is activated, and the two match.
fn pair_to_adopt<'a>(
    tables: &'a Tables,
    wdt: Slot,
    adt: Slot,
) -> Option<(ValidImage<'a>, ValidImage<'a>)>
    requires wdt { IsTrue (is_some (table_at wdt tables.now.places)) }
    requires adt { IsTrue (is_some (table_at adt tables.now.places)) }
    requires sound_wdt { HasSoundSlot Wdt (slot_at wdt tables.now) }
    requires sound_adt { HasSoundSlot Adt (slot_at adt tables.now) }
    ensures pair { option_map pair_of result ≡ pair_to_adopt on_board (slot_at wdt tables.now)
        (slot_at adt tables.now) }
    ensures sound { IfSome result IsSoundPair }
{
    if !is_one_activated(tables, wdt, adt) {
        return None;
    }
    let Some(wdt_image) = sound_candidate(tables, wdt, Kind::Wdt) else {
        return None;
    };
    let Some(adt_image) = sound_candidate(tables, adt, Kind::Adt) else {
        return None;
    };
    if belong_together(&wdt_image, &adt_image) {
        Some((wdt_image, adt_image))
    } else {
        None
    }
}

/// Makes an activated image active, if there is one.
fn take_activated(tables: &mut Tables, slot: Slot)
    requires { IsTrue (is_some (table_at slot tables.old.places)) }
    ensures { tables.new ≡ slot_changed taken slot tables.old }
{
    if is_activated(tables, slot) {
        tables.take(slot);
    }
}

/// Whether the watchpoints of a table have the same message ids as these, in the same order.
fn has_ids_of(wdt: &ValidImage<'_>, terms: &[Term]) -> bool
    requires { wdt.now.kind ≡ Wdt }
    ensures { result ≡ true → mids_of (spelled_terms wdt.now.bytes) ≡ mids_of terms.now }
{
    if preamble::own_count(wdt.image()) as usize != terms.len() {
        return false;
    }
    for number in 0..terms.len() {
        if wdt.watchpoint(number).message_id() != terms[number].mid {
            return false;
        }
    }
    true
}

/// Puts a pair of tables in force: the pipe is then subscribed only to the message ids of requests and of the new watchpoints.
/// New tables mostly watch the same packets as the old ones; then no subscription changes.
fn put_in_force(
    engine: &mut Engine,
    bus: &mut Bus,
    seat: Seat,
    wdt: &ValidImage<'_>,
    adt: &ValidImage<'_>,
)
    requires wdt { wdt.now.kind ≡ Wdt }
    requires adt { adt.now.kind ≡ Adt }
    requires matching { IsMatch wdt.now.bytes adt.now.bytes }
    requires pipe { IsSomeAnd (pipe_at seat bus.old)
        (λ (queue : Queue). queue.subscriptions ≡ subscriptions_of (LcState engine.old)) }
    ensures engine { engine.new ≡ with_tables (spelled_terms wdt.now.bytes)
        (spelled_rules layouts wdt.now.bytes adt.now.bytes) engine.old }
    ensures bus { IfSome (pipe_at seat bus.old)
        (λ (queue : Queue). bus.new ≡ with_pipe seat bus.old
        (record queue { subscriptions = subscriptions_of (LcState engine.new) })) }
{
    if has_ids_of(wdt, engine.watchpoints()) {
        engine.adopt(wdt, adt);
        return;
    }
    unsubscribe_from(bus, seat, &REQUESTS, engine.watchpoints());
    engine.adopt(wdt, adt);
    subscribe_to(bus, seat, &REQUESTS, engine.watchpoints());
}

/// Adopts the pair of images of a seat (`pair_to_adopt`), and returns whether there is one: the engine has these tables,
/// without any history, activated images become active, and the pipe is then subscribed only to the message ids of requests and
/// of the new watchpoints.
pub(crate) fn adopt(engine: &mut Engine, services: &mut Services, seat: Seat) -> bool
    requires { MayRenew seat engine.old services.old }
    ensures answer { result ≡ is_some (pair_at seat services.old.tables) }
    ensures engine { engine.new ≡ own_adopted (pair_at seat services.old.tables) engine.old }
    ensures tables { services.new.tables ≡
        (if result then both_taken seat services.old.tables else services.old.tables) }
    ensures bus { IfSome (pipe_at seat services.old.bus)
        (λ (queue : Queue). services.new.bus ≡ with_pipe seat services.old.bus
        (record queue { subscriptions = subscriptions_of (LcState engine.new) })) }
    ensures rest { services.new ≡
        record services.old { tables = services.new.tables; bus = services.new.bus } }
{
    let wdt_slot = Slot::new(seat, 0);
    let adt_slot = Slot::new(seat, 1);
    let Some((wdt, adt)) = pair_to_adopt(&services.tables, wdt_slot, adt_slot) else {
        return false;
    };
    put_in_force(engine, &mut services.bus, seat, &wdt, &adt);
    take_activated(&mut services.tables, wdt_slot);
    take_activated(&mut services.tables, adt_slot);
    true
}
