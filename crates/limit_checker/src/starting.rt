//! The start of the application on a seat (cFS Limit Checker user's guide, tables; the default files are this project's own).

ghost use Rattle.std.specs.Prelude.{◌≡◌, ◌<◌, ◌∷◌, [], IfSome, is_some, option_map};
ghost use Rattle.lc_model.specs.declared.kind.Kind.TheVariants.{Wdt, Adt};
ghost use Rattle.lc_model.specs.Name.{lc_name};
ghost use Rattle.lc_model.specs.Kept.Call.{next_start};
ghost use Rattle.lc_model.specs.Kept.Executive.{seat_count};
ghost use Rattle.lc_model.specs.Kept.Summary.{LcState};
ghost use Rattle.lc_model.specs.Services.Interface.{MayBeStarted, IsStarted};
ghost use Rattle.lc_model.specs.Services.Settled.{IsSettled};
ghost use Rattle.lc_model.specs.Services.Tables.{tables_at};
ghost use Rattle.lc_model.specs.Tables.Interpretation.{default_file};
ghost use Rattle.app_host.specs.Shared.{on_board, held_by, shared};
ghost use Rattle.app_host.specs.Calls.{Leaves};
ghost use Rattle.limit_checker.specs.Adoption.{are_matching, pair_of, IsSoundPair};
ghost use Rattle.limit_checker.specs.Starting.{new_wdt, new_adt, with_both, AreUnused, start_image, start_pair, IsDefault, AreDefaults, own_started, tables_started};

use crate::adoption::{REQUESTS, belong_together};
use crate::telling::tell;
use crate::texts;
use app_host::laws::seats_are_kept_by_the_rules;
use app_host::{Services, subscribe_to};
use lc_model::{EventKind, Kind, Seat};
use limit_engine::Engine;
use table_file::{Layout, open, table_name};
use table_validator::{ValidImage, validate};
use tbl_service::{Slot, Tables};

/// The application's name.
pub(crate) const NAME: &[u8] = b"LC";

/// The default file of a table.
fn default_file(kind: Kind) -> &'static [u8]
    ensures { result.now ≡ default_file kind }
{
    match kind {
        Kind::Wdt => b"/cf/lc_def_wdt.tbl",
        Kind::Adt => b"/cf/lc_def_adt.tbl",
    }
}

/// The image with which a table starts: that of its default file, if the file is stored, opens, is for this table, and has a
/// sound image.
fn default_image(tables: &Tables, kind: Kind) -> Option<ValidImage<'_>>
    ensures image { option_map (λ valid. valid.bytes) result ≡ start_image kind tables.now }
    ensures kind { IfSome result (λ valid. valid.kind ≡ kind) }
    ensures default { IfSome result (IsDefault tables.now) }
{
    let Some(bytes) = tables.file(default_file(kind)) else {
        return None;
    };
    let Ok(file) = open(bytes) else {
        return None;
    };
    if file.name() != table_name(kind) {
        return None;
    }
    match validate(kind, file.image()) {
        Ok(valid) => Some(valid),
        Err(_fault) => None,
    }
}

/// The pair of tables with which the application starts: both default files have such an image, and the two match.
fn default_pair(tables: &Tables) -> Option<(ValidImage<'_>, ValidImage<'_>)>
    ensures pair { option_map pair_of result ≡ start_pair tables.now }
    ensures sound { IfSome result IsSoundPair }
    ensures defaults { IfSome result (AreDefaults tables.now) }
{
    let Some(wdt) = default_image(tables, Kind::Wdt) else {
        return None;
    };
    let Some(adt) = default_image(tables, Kind::Adt) else {
        return None;
    };
    if belong_together(&wdt, &adt) {
        Some((wdt, adt))
    } else {
        None
    }
}

/// Registers both tables at a seat. Conditions: the seat has no table, and nobody has a table of the application's names.
fn register_both(tables: &mut Tables, seat: Seat)
    requires seat { seat < seat_count }
    requires free { tables_at seat tables.old.places ≡ [] }
    requires unused { AreUnused tables.old }
    ensures { tables.new ≡ with_both seat tables.old }
{
    // For the proof: tables and files are within their bounds, and no name is used twice.
    tables.is_service();
    tables
        .register(
            seat,
            table_name(Kind::Wdt),
            Layout::Watchpoints.image_length(),
            None,
        )
        .unwrap();
    tables
        .register(
            seat,
            table_name(Kind::Adt),
            Layout::Actionpoints.image_length(),
            Some(Layout::WideActionpoints.image_length()),
        )
        .unwrap();
}

/// Puts the default files' tables in force, if they match, and returns whether they do. Condition: the seat has both tables,
/// without images.
fn begin(engine: &mut Engine, tables: &mut Tables, seat: Seat) -> bool
    requires { tables_at seat tables.old.places ≡ new_wdt ∷ new_adt ∷ [] }
    ensures answer { result ≡ is_some (start_pair tables.old) }
    ensures engine { engine.new ≡ own_started (start_pair tables.old) }
    ensures tables { tables.new ≡ tables_started seat (start_pair tables.old) tables.old }
{
    engine.reset();
    let Some((wdt, adt)) = default_pair(tables) else {
        return false;
    };
    engine.adopt(&wdt, &adt);
    tables.install(Slot::new(seat, 0), default_file(Kind::Wdt));
    tables.install(Slot::new(seat, 1), default_file(Kind::Adt));
    true
}

/// Starts the application on a free seat: with a pipe, an event sender and its two tables; with the default files' tables in
/// force if they match; event 1 reports whether they are. Conditions: as for each application's start.
pub(crate) fn take_seat(engine: &mut Engine, seat: Seat, services: &mut Services)
    requires { MayBeStarted seat lc_name (held_by services.old) }
    ensures rules { IsStarted seat lc_name (held_by services.old) (held_by services.new) }
    ensures exact { IfSome
        (next_start on_board services.old.moment (LcState engine.old) (shared services.old))
        (Leaves seat (LcState engine.new) services.old services.new) }
    ensures settled { IsSettled (LcState engine.new) seat (held_by services.new) }
{
    // For the proof: each call of the services keeps the rules of the interface, and tables and files are within their bounds,
    // and no name is used twice.
    seats_are_kept_by_the_rules();
    services.tables.is_service();
    services.open(seat, NAME, &[]);
    register_both(&mut services.tables, seat);
    let has_tables = begin(engine, &mut services.tables, seat);
    subscribe_to(&mut services.bus, seat, &REQUESTS, engine.watchpoints());
    let text = texts::application_started(has_tables);
    tell(
        services,
        Some(seat),
        1,
        EventKind::Information,
        text.as_bytes(),
    );
}
