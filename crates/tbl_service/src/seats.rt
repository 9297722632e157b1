//! The tables of the eight seats: how they are found by name, and how calls change them.

ghost use Rattle.std.specs.Prelude.{◌≡◌, ◌≤◌, List, length, IfOk, IfSome, IsTrue, is_some, OnErr};
ghost use Rattle.lc_model.specs.Host.React.{max_file_size};
ghost use Rattle.lc_model.specs.Kept.Executive.{seat_count};
ghost use Rattle.lc_model.specs.Name.{name_size};
ghost use Rattle.lc_model.specs.Tables.File.{opened};
ghost use Rattle.lc_model.specs.Tables.Slot.{Activated, Asked, installed, judged, taken, waiting_at};
ghost use Rattle.lc_model.specs.Services.Tables.{changed_among, handle_named, image_in, image_loaded_among, loaded_among, moved_among, new_handle, table_at, table_registered};
ghost use Rattle.tbl_service.specs.Error.{answered};
ghost use Rattle.tbl_service.specs.Images.{move_of};
ghost use Rattle.tbl_service.specs.Places.{slot_among};
ghost use Rattle.tbl_service.specs.Store.{NamedFile};

use crate::error::TableError;
use crate::place::{SeatTables, number_of};
use crate::slot::Move;
use lc_model::Seat;
use std::marker::Model;
use table_file::open;

/// A handle of a registered table. Contracts see its seat, and its number among the seat's tables.
#[derive(Clone, Copy, Debug, PartialEq, Eq)]
pub struct Slot {
    pub(crate) seat: Seat,
    pub(crate) number: usize,
}

impl Model for Slot {
    ghost use Rattle.lc_model.specs.Services.Tables.{Handle};

    ghost Value = { Handle };

    ghost view = { λ s. record { seat = s.seat; number = s.number } };

    ghost inverse = { λ h. record { seat = h.seat; number = h.number } };
}

impl Slot {
    /// Returns the handle of table `number`, 0 or 1, of a seat. The calls that take a handle need a registered table.
    pub fn new(seat: Seat, number: usize) -> Slot
        ensures { result ≡ record { seat = seat; number = number } }
    {
        Slot { seat, number }
    }
}

/// The first table with this name, over all seats.
pub(crate) fn find(places: &[SeatTables], name: &[u8]) -> Option<Slot>
    requires { length places.now ≡ seat_count }
    ensures slot { result ≡ handle_named name.now places.now }
    ensures there { IfSome result (λ slot. IsTrue (is_some (table_at slot places.now))) }
{
    for index in 0..8u8 {
        if let Some(number) = number_of(places[index as usize].tables(), name) {
            return Some(Slot::new(Seat::new(index), number));
        }
    }
    None
}

/// Adds a table without images to a seat. Error: `NoSlot` if the seat has two tables or the name is taken.
pub(crate) fn register(
    places: &mut [SeatTables],
    seat: Seat,
    name: &[u8],
    size: usize,
    other: Option<usize>,
) -> Result<Slot, TableError>
    requires seats { length places.old ≡ seat_count }
    requires short { length name.now ≤ name_size }
    ensures answer { (files : List NamedFile) →
        answered result (record { files = files; places = places.new }) ≡
        table_registered seat name.now size other (record { files = files; places = places.old }) }
    ensures slot { (files : List NamedFile) → IfOk result
        (λ slot. slot ≡ new_handle seat (record { files = files; places = places.old })) }
    ensures refused { OnErr result (places.new ≡ places.old) }
    ensures seats { length places.new ≡ seat_count }
{
    if find(places, name).is_some() {
        return Err(TableError::NoSlot);
    }
    match places[seat.index()].register(name, size, other) {
        None => Err(TableError::NoSlot),
        Some(number) => Ok(Slot::new(seat, number)),
    }
}

/// Loads a table file to the table that the file names.
pub(crate) fn load_into(places: &mut [SeatTables], bytes: &[u8]) -> Result<(), TableError>
    requires seats { length places.old ≡ seat_count }
    requires fits { length bytes.now ≤ max_file_size }
    ensures answer { answered result places.new ≡ loaded_among bytes.now places.old }
    ensures seats { length places.new ≡ seat_count }
    ensures refused { OnErr result (places.new ≡ places.old) }
{
    match open(bytes) {
        Err(fault) => Err(TableError::FileFault(fault)),
        Ok(file) => load_among(places, file.name(), file.image()),
    }
}

/// Loads an image to the table with this name.
fn load_among(places: &mut [SeatTables], table: &[u8], image: &[u8]) -> Result<(), TableError>
    requires seats { length places.old ≡ seat_count }
    requires fits { length image.now ≤ max_file_size }
    ensures answer { answered result places.new ≡ image_loaded_among image.now table.now
        places.old }
    ensures seats { length places.new ≡ seat_count }
    ensures refused { OnErr result (places.new ≡ places.old) }
{
    let Some(slot) = find(places, table) else {
        return Err(TableError::UnknownTable);
    };
    places[slot.seat.index()].load(slot.number, image)
}

/// Makes a file's image the active image of a handle's table, if the file opens.
pub(crate) fn install_into(places: &mut [SeatTables], slot: Slot, bytes: &[u8])
    requires seats { length places.old ≡ seat_count }
    requires registered { IsTrue (is_some (table_at slot places.old)) }
    requires fits { length bytes.now ≤ max_file_size }
    ensures opened { IfSome (image_in (opened bytes.now))
        (λ image. places.new ≡ changed_among (installed image) slot places.old) }
    ensures seats { length places.new ≡ seat_count }
{
    match open(bytes) {
        Err(_fault) => {}
        Ok(file) => install_image(places, slot, file.image()),
    }
}

/// Makes `image` the active image of a handle's table.
fn install_image(places: &mut [SeatTables], slot: Slot, image: &[u8])
    requires seats { length places.old ≡ seat_count }
    requires registered { IsTrue (is_some (table_at slot places.old)) }
    requires fits { length image.now ≤ max_file_size }
    ensures installed { places.new ≡ changed_among (installed image.now) slot places.old }
    ensures seats { length places.new ≡ seat_count }
{
    places[slot.seat.index()].install(slot.number, image);
}

/// Applies a command to the waiting image of the table with this name.
pub(crate) fn change_among(
    places: &mut [SeatTables],
    table: &[u8],
    change: Move,
) -> Result<(), TableError>
    requires seats { length places.old ≡ seat_count }
    ensures answer { answered result places.new ≡ moved_among (move_of change) table.now
        places.old }
    ensures seats { length places.new ≡ seat_count }
    ensures refused { OnErr result (places.new ≡ places.old) }
{
    let Some(slot) = find(places, table) else {
        return Err(TableError::UnknownTable);
    };
    places[slot.seat.index()].change(slot.number, change)
}

/// Sets the owner's verdict on the image that it is asked about.
pub(crate) fn judge(places: &mut [SeatTables], slot: Slot, valid: bool)
    requires seats { length places.old ≡ seat_count }
    requires registered { IsTrue (is_some (table_at slot places.old)) }
    requires asked { IsTrue (is_some (waiting_at Asked (slot_among slot places.old))) }
    ensures judged { places.new ≡ changed_among (judged valid) slot places.old }
    ensures seats { length places.new ≡ seat_count }
{
    places[slot.seat.index()].judge(slot.number, valid);
}

/// Makes the activated image of a handle's table the active one.
pub(crate) fn take(places: &mut [SeatTables], slot: Slot)
    requires seats { length places.old ≡ seat_count }
    requires registered { IsTrue (is_some (table_at slot places.old)) }
    requires activated { IsTrue (is_some (waiting_at Activated (slot_among slot places.old))) }
    ensures taken { places.new ≡ changed_among taken slot places.old }
    ensures seats { length places.new ≡ seat_count }
{
    places[slot.seat.index()].take(slot.number);
}
