//! The public calls of the table services, over stored files and registered tables (cFE user's guide, table services).
//! The seats of tables and all limits are this project's own.

ghost use Rattle.std.specs.Prelude.{◌≡◌, ◌≤◌, length, option_map, IfErr, IfOk, IfSome, IsSomeAnd, IsTrue, is_some, OnErr, Some};
ghost use Rattle.lc_model.specs.Name.{value_under, name_size};
ghost use Rattle.lc_model.specs.Command.{Load, Manage};
ghost use Rattle.lc_model.specs.Tables.Slot.{Activated, Asked, Validate, Activate, Abort, waiting_at};
ghost use Rattle.lc_model.specs.Services.Tables.{IsTableService, file_put, first_tables, fits_at, image_installed, image_taken, new_handle, slot_at, stored_image, table_at, table_commanded, table_registered, tables_unregistered, verdict_set};
ghost use Rattle.tbl_service.specs.declared.error.TableError.TheVariants.{Memory};
ghost use Rattle.tbl_service.specs.Capacities.{table_capacities};
ghost use Rattle.tbl_service.specs.Error.{answered};
ghost use Rattle.tbl_service.specs.Images.{active_of, slot_named, waiting_seen};

use crate::capacities::TableCapacities;
use crate::error::TableError;
use crate::place::{SeatTables, Table};
use crate::seats::{Slot, change_among, find, install_into, judge, load_into, register, take};
use crate::slot::{Move, Stage};
use crate::store::Files;
use lc_model::Seat;
use std::alloc::Global;
use std::marker::Model;

/// The table services: at most eight files of at most 32,768 bytes, and at most two tables for each of eight seats,
/// each with an active and a waiting image. Contracts see the files by name and the tables by seat.
#[derive(Debug, Drop)]
pub struct Tables {
    files: Files,
    places: Vec<SeatTables>,
}

impl Model for Tables {
    ghost use Rattle.std.specs.Prelude.{◌≡◌, vec_capacity};
    ghost use Rattle.lc_model.specs.Kept.Executive.{seat_count};
    ghost use Rattle.lc_model.specs.Services.Tables.{TableService, IsTableService};

    ghost Value = { TableService };

    ghost view = { λ t. record { files = t.files; places = t.places.items } };

    ghost invariant = { λ t. IsTableService (record { files = t.files; places = t.places.items })
        × (vec_capacity t.places ≡ seat_count) };
}

impl Tables {
    /// Creates the services without files and tables. It allocates all memory they ever need; `Memory` is the only
    /// error.
    pub fn new(alloc: Global) -> Result<Tables, TableError>
        ensures first { IfOk result (λ tables. tables ≡ first_tables) }
        ensures memory { IfErr result (λ e. e ≡ Memory) }
    {
        let files = Files::new(alloc)?;
        let mut places = Vec::with_capacity(alloc, Seat::COUNT)?;
        for _ in 0..Seat::COUNT {
            places.push_reserved(SeatTables::new(alloc)?);
        }
        Ok(Tables { files, places })
    }

    /// The capacities of the lists; of those by seat, this seat's. No call changes them.
    pub fn capacities(&self, seat: Seat) -> TableCapacities
        ensures { result ≡ table_capacities }
    {
        // For the proof: there are eight seats.
        self.is_service();
        let place = &self.places[seat.index()];
        TableCapacities {
            seats: self.places.capacity(),
            files: self.files.file_capacity(),
            spare_files: self.files.spare_capacity(),
            file_buffers: self.files.buffer_capacities(),
            tables: place.table_capacity(),
            spare_images: place.spare_capacity(),
            image_buffers: place.buffer_capacities(),
        }
    }

    /// Stores a file, in place of one with the same name. Errors: `FileTooLong` for over 32,768 bytes; `StoreFull`
    /// if eight files with other names are stored.
    pub fn put_file(&mut self, name: &[u8], bytes: &[u8]) -> Result<(), TableError>
        requires { length name.now ≤ name_size }
        ensures answer { answered result self.new ≡ file_put name.now bytes.now self.old }
        ensures refused { OnErr result (self.new ≡ self.old) }
    {
        self.files.put(name, bytes)
    }

    /// Returns the bytes of the file with this name, or `None` if it isn't stored.
    pub fn file(&self, name: &[u8]) -> Option<&[u8]>
        ensures { option_map (λ bytes. bytes.now) result ≡ value_under name.now self.now.files }
    {
        self.files.find(name)
    }

    /// Registers a table without images for a seat and returns its handle; images have `size` or `other` bytes. Error:
    /// `NoSlot` if the seat has two tables or the name is taken.
    pub fn register(
        &mut self,
        seat: Seat,
        name: &[u8],
        size: usize,
        other: Option<usize>,
    ) -> Result<Slot, TableError>
        requires { length name.now ≤ name_size }
        ensures answer { answered result self.new ≡ table_registered seat name.now size other
            self.old }
        ensures slot { IfOk result (λ slot. slot ≡ new_handle seat self.old) }
        ensures refused { OnErr result (self.new ≡ self.old) }
    {
        register(self.places.as_mut_slice(), seat, name, size, other)
    }

    /// Removes all tables of a seat.
    pub fn unregister(&mut self, seat: Seat)
        ensures { self.new ≡ tables_unregistered seat self.old }
    {
        self.places[seat.index()].clear();
    }

    /// Makes a stored file's image the waiting image of the table that the file names. Errors, the first that holds:
    /// `NoFile`, `FileFault`, `UnknownTable`, `WrongSize`, `UpdatePending` if an activated image waits.
    pub fn load(&mut self, file: &[u8]) -> Result<(), TableError>
        ensures answer { answered result self.new ≡ table_commanded (Load file.now) self.old }
        ensures refused { OnErr result (self.new ≡ self.old) }
    {
        match self.files.find(file) {
            None => Err(TableError::NoFile),
            Some(bytes) => load_into(self.places.as_mut_slice(), bytes),
        }
    }

    /// Asks the table's owner to validate the waiting image. Errors, the first that holds: `UnknownTable`,
    /// `NothingLoaded`, `UpdatePending`.
    pub fn request_validate(&mut self, table: &[u8]) -> Result<(), TableError>
        ensures answer { answered result self.new ≡ table_commanded (Manage Validate table.now)
            self.old }
        ensures refused { OnErr result (self.new ≡ self.old) }
    {
        change_among(self.places.as_mut_slice(), table, Move::Validate)
    }

    /// Activates the valid waiting image, so that the owner may take it. Errors, the first that holds: `UnknownTable`,
    /// `NothingLoaded`, `UpdatePending`, `NotValidated`.
    pub fn request_activate(&mut self, table: &[u8]) -> Result<(), TableError>
        ensures answer { answered result self.new ≡ table_commanded (Manage Activate table.now)
            self.old }
        ensures refused { OnErr result (self.new ≡ self.old) }
    {
        change_among(self.places.as_mut_slice(), table, Move::Activate)
    }

    /// Drops the waiting image. Errors, the first that holds: `UnknownTable`, `NothingLoaded`.
    pub fn abort(&mut self, table: &[u8]) -> Result<(), TableError>
        ensures answer { answered result self.new ≡ table_commanded (Manage Abort table.now)
            self.old }
        ensures refused { OnErr result (self.new ≡ self.old) }
    {
        change_among(self.places.as_mut_slice(), table, Move::Abort)
    }

    /// Returns the waiting image and its stage, or `None` if there is none. The table must be registered.
    pub fn pending(&self, slot: Slot) -> Option<(Stage, &[u8])>
        requires { IsTrue (is_some (table_at slot self.now.places)) }
        ensures { option_map (λ pending. waiting_seen pending.0 pending.1.now) result ≡
            (slot_at slot self.now).waiting }
    {
        self.table(slot).pending()
    }

    /// Returns the active image, or `None` if there is none. The table must be registered.
    pub fn active(&self, slot: Slot) -> Option<&[u8]>
        requires { IsTrue (is_some (table_at slot self.now.places)) }
        ensures { option_map (λ image. image.now) result ≡ (slot_at slot self.now).active }
    {
        self.table(slot).active()
    }

    /// Returns the active image of the first table with this name, or `None` if no table has the name or it has no image.
    pub fn active_under(&self, name: &[u8]) -> Option<&[u8]>
        ensures { option_map (λ image. image.now) result ≡
            active_of (slot_named self.now.places name.now) }
    {
        // For the proof: there are eight seats.
        self.is_service();
        match find(self.places.as_slice(), name) {
            Some(slot) => self.active(slot),
            None => None,
        }
    }

    /// Sets the owner's verdict on the image that it is asked about: the stage becomes `Valid`, or `Loaded` again.
    pub fn set_verdict(&mut self, slot: Slot, valid: bool)
        requires registered { IsTrue (is_some (table_at slot self.old.places)) }
        requires asked { IsTrue (is_some (waiting_at Asked (slot_at slot self.old))) }
        ensures { self.new ≡ verdict_set slot valid self.old }
    {
        judge(self.places.as_mut_slice(), slot, valid);
    }

    /// Makes the activated image the active one, without copying. An activated image must wait.
    pub fn take(&mut self, slot: Slot)
        requires registered { IsTrue (is_some (table_at slot self.old.places)) }
        requires activated { IsTrue (is_some (waiting_at Activated (slot_at slot self.old))) }
        ensures { self.new ≡ image_taken slot self.old }
    {
        take(self.places.as_mut_slice(), slot);
    }

    /// Makes a stored file's image the active one; the waiting image stays. The file must open, and its image must
    /// have one of the table's sizes.
    pub fn install(&mut self, slot: Slot, file: &[u8])
        requires registered { IsTrue (is_some (table_at slot self.old.places)) }
        requires fits { IsSomeAnd (stored_image file.now self.old)
            (λ image. IsTrue (fits_at slot self.old image)) }
        ensures { IfSome (stored_image file.now self.old)
            (λ image. self.new ≡ image_installed slot image self.old) }
    {
        if let Some(bytes) = self.files.find(file) {
            install_into(self.places.as_mut_slice(), slot, bytes);
        }
    }

    /// States the invariant: at most eight files of bounded length with distinct names, at most two tables a seat,
    /// distinct table names. The body does nothing.
    pub fn is_service(&self)
        ensures { IsTableService self.now }
    {
        let _files = &self.files;
    }

    /// The table of a handle.
    fn table(&self, slot: Slot) -> &Table
        requires { IsTrue (is_some (table_at slot self.now.places)) }
        ensures { Some result.now ≡ table_at slot self.now.places }
    {
        let tables = self.places[slot.seat.index()].tables();
        &tables[slot.number]
    }
}
