//! The tables of one seat, and the image buffers that no table uses.

ghost use Rattle.std.specs.Prelude.{◌≡◌, ◌<◌, ◌≤◌, [], ◌∷◌, ◌++◌, length, slice_index_or, slice_set, option_map, IfErr, IfOk, IfSome, IsTrue, is_some, Some, None, OnErr, nat_le, if◌then◌else◌};
ghost use Rattle.std.specs.List.{position_from};
ghost use Rattle.lc_model.specs.Host.React.{max_file_size};
ghost use Rattle.lc_model.specs.Tables.Slot.{Activated, Asked, installed, judged, loaded, moved, taken, waiting_at};
ghost use Rattle.lc_model.specs.Name.{is_named, name_size};
ghost use Rattle.lc_model.specs.Services.Tables.{Table as Kept, fits_table, new_table, number_named};
ghost use Rattle.tbl_service.specs.declared.error.TableError.TheVariants.{Memory};
ghost use Rattle.tbl_service.specs.Error.{answered};
ghost use Rattle.tbl_service.specs.Images.{move_of, waiting_seen};
ghost use Rattle.tbl_service.specs.Capacities.{buffers};
ghost use Rattle.tbl_service.specs.Places.{changed_by, loaded_at, most_tables, with_images, with_images_at};

use crate::error::TableError;
use crate::slot::{Images, Move, Stage};
use crate::store::MAX_NAME;
use arrayvec::ArrayVec;
use std::alloc::Global;
use std::marker::Model;

/// The largest number of tables a seat.
const MAX_TABLES: usize = 2;

/// A registered table: its name, the one or two sizes that its images may have, in bytes, and its images.
#[derive(Debug, Drop)]
pub(crate) struct Table {
    name: ArrayVec<u8, MAX_NAME>,
    size: usize,
    other: Option<usize>,
    images: Images,
}

impl Model for Table {
    ghost use Rattle.lc_model.specs.Services.Tables.{Table as Kept};

    ghost Value = { Kept };

    ghost view = { λ t.
        record { name = t.name.items; size = t.size; other = t.other; slot = t.images } };
}

impl Table {
    /// Creates a table without images; `images` becomes its pair of buffers.
    fn new(name: &[u8], size: usize, other: Option<usize>, mut images: Images) -> Table
        requires { length name.now ≤ name_size }
        ensures { result ≡ new_table name.now size other }
    {
        let mut own_name = ArrayVec::new();
        own_name.try_extend_from_slice(name).unwrap();
        images.clear();
        Table {
            name: own_name,
            size,
            other,
            images,
        }
    }

    fn into_images(self) -> Images
        ensures { result ≡ self.slot }
    {
        self.images
    }

    fn is_named(&self, name: &[u8]) -> bool
        ensures { result ≡ is_named name.now self.now.name }
    {
        name == self.name.as_slice()
    }

    /// Whether an image of this many bytes fits the table.
    fn fits(&self, size: usize) -> bool
        ensures { result ≡ fits_table self.now size }
    {
        size == self.size || self.other == Some(size)
    }

    pub(crate) fn load(&mut self, image: &[u8]) -> Result<(), TableError>
        requires { length image.now ≤ max_file_size }
        ensures answer { answered result self.new.slot ≡ loaded image.now self.old.slot }
        ensures rest { self.new ≡ with_images self.new.slot self.old }
        ensures refused { OnErr result (self.new ≡ self.old) }
    {
        self.images.load(image)
    }

    pub(crate) fn change(&mut self, change: Move) -> Result<(), TableError>
        ensures answer { answered result self.new.slot ≡ moved (move_of change) self.old.slot }
        ensures rest { self.new ≡ with_images self.new.slot self.old }
        ensures refused { OnErr result (self.new ≡ self.old) }
    {
        self.images.change(change)
    }

    pub(crate) fn judge(&mut self, valid: bool)
        requires { IsTrue (is_some (waiting_at Asked self.old.slot)) }
        ensures { self.new ≡ with_images (judged valid self.old.slot) self.old }
    {
        self.images.judge(valid);
    }

    pub(crate) fn take(&mut self)
        requires { IsTrue (is_some (waiting_at Activated self.old.slot)) }
        ensures { self.new ≡ with_images (taken self.old.slot) self.old }
    {
        self.images.take();
    }

    pub(crate) fn install(&mut self, image: &[u8])
        requires { length image.now ≤ max_file_size }
        ensures { self.new ≡ with_images (installed image.now self.old.slot) self.old }
    {
        self.images.install(image);
    }

    fn images(&self) -> &Images
        ensures { result.now ≡ self.now.slot }
    {
        &self.images
    }

    pub(crate) fn active(&self) -> Option<&[u8]>
        ensures { option_map (λ image. image.now) result ≡ self.now.slot.active }
    {
        self.images.active()
    }

    pub(crate) fn pending(&self) -> Option<(Stage, &[u8])>
        ensures { option_map (λ pending. waiting_seen pending.0 pending.1.now) result ≡
            self.now.slot.waiting }
    {
        self.images.pending()
    }
}

/// At most two tables, in the order of their registration.
#[derive(Debug, Drop)]
pub(crate) struct SeatTables {
    tables: Vec<Table>,
    spare: Vec<Images>,
}

impl Model for SeatTables {
    ghost use Rattle.std.specs.Prelude.{List, vec_capacity};
    ghost use Rattle.lc_model.specs.Services.Tables.{Table as Kept};
    ghost use Rattle.tbl_service.specs.Places.{IsPlace};

    ghost Value = { List Kept };

    ghost view = { λ p. p.tables.items };

    ghost invariant = { λ p. IsPlace p.tables.items p.spare.items (vec_capacity p.tables)
        (vec_capacity p.spare) };
}

impl SeatTables {
    /// Creates a place without tables. The only error is a lack of memory.
    pub(crate) fn new(alloc: Global) -> Result<SeatTables, TableError>
        ensures empty { IfOk result (λ place. place ≡ []) }
        ensures memory { IfErr result (λ e. e ≡ Memory) }
    {
        let tables = Vec::with_capacity(alloc, MAX_TABLES)?;
        let mut spare = Vec::with_capacity(alloc, MAX_TABLES)?;
        for _ in 0..MAX_TABLES {
            spare.push_reserved(Images::new(alloc)?);
        }
        Ok(SeatTables { tables, spare })
    }

    /// How many tables there is room for.
    pub(crate) fn table_capacity(&self) -> usize
        ensures { result ≡ most_tables }
    {
        self.tables.capacity()
    }

    /// How many pairs of buffers that no table uses there is room for.
    pub(crate) fn spare_capacity(&self) -> usize
        ensures { result ≡ most_tables }
    {
        self.spare.capacity()
    }

    /// How many bytes each image buffer has room for, in pairs: active and waiting. Those of tables come first.
    pub(crate) fn buffer_capacities(&self) -> [usize; 4]
        ensures { result ≡ buffers 4 }
    {
        let first = self.images(0);
        let second = self.images(1);
        [
            first.active_capacity(),
            first.waiting_capacity(),
            second.active_capacity(),
            second.waiting_capacity(),
        ]
    }

    /// The pair of buffers with this number: those of tables come first.
    fn images(&self, number: usize) -> &Images
        requires { number < most_tables }
    {
        let used = self.tables.len();
        if number < used {
            return self.tables[number].images();
        }
        &self.spare[number - used]
    }

    /// Adds a table without images and returns its number, or `None` if there are two tables already.
    pub(crate) fn register(
        &mut self,
        name: &[u8],
        size: usize,
        other: Option<usize>,
    ) -> Option<usize>
        requires { length name.now ≤ name_size }
        ensures room { result ≡
            (if nat_le 2 (length self.old) then None else Some (length self.old)) }
        ensures after { self.new ≡
            (if nat_le 2 (length self.old) then self.old else self.old ++ new_table name.now size
            other ∷ []) }
    {
        let images = self.spare.pop()?;
        let number = self.tables.len();
        let table = Table::new(name, size, other, images);
        self.tables.push_reserved(table);
        Some(number)
    }

    /// Removes all tables.
    pub(crate) fn clear(&mut self)
        ensures { self.new ≡ [] }
    {
        while let Some(table) = self.tables.pop() {
            self.spare.push_reserved(table.into_images());
        }
    }

    /// All tables.
    pub(crate) fn tables(&self) -> &[Table]
        ensures { result.now ≡ self.now }
    {
        self.tables.as_slice()
    }

    /// Loads an image to the table with this number. Errors: `WrongSize`, `UpdatePending`.
    pub(crate) fn load(&mut self, number: usize, image: &[u8]) -> Result<(), TableError>
        requires inside { number < length self.old }
        requires fits { length image.now ≤ max_file_size }
        ensures answer { (d : Kept) →
            answered result self.new ≡ loaded_at image.now number d self.old }
        ensures refused { OnErr result (self.new ≡ self.old) }
    {
        if !self.tables[number].fits(image.len()) {
            return Err(TableError::WrongSize);
        }
        self.tables[number].load(image)
    }

    /// Applies a command to the table with this number.
    pub(crate) fn change(&mut self, number: usize, change: Move) -> Result<(), TableError>
        requires inside { number < length self.old }
        ensures answer { (d : Kept) →
            answered result self.new ≡ changed_by (moved (move_of change)) number d self.old }
        ensures refused { OnErr result (self.new ≡ self.old) }
    {
        self.tables[number].change(change)
    }

    /// Sets the verdict on the waiting image of the table with this number.
    pub(crate) fn judge(&mut self, number: usize, valid: bool)
        requires inside { number < length self.old }
        requires asked { (d : Kept) →
            IsTrue (is_some (waiting_at Asked (slice_index_or self.old number d).slot)) }
        ensures { (d : Kept) → self.new ≡ with_images_at number (judged valid) d self.old }
    {
        self.tables[number].judge(valid);
    }

    /// Makes the activated image of the table with this number the active one.
    pub(crate) fn take(&mut self, number: usize)
        requires inside { number < length self.old }
        requires activated { (d : Kept) →
            IsTrue (is_some (waiting_at Activated (slice_index_or self.old number d).slot)) }
        ensures { (d : Kept) → self.new ≡ with_images_at number taken d self.old }
    {
        self.tables[number].take();
    }

    /// Makes `image` the active image of the table with this number.
    pub(crate) fn install(&mut self, number: usize, image: &[u8])
        requires inside { number < length self.old }
        requires fits { length image.now ≤ max_file_size }
        ensures { (d : Kept) → self.new ≡ with_images_at number (installed image.now) d self.old }
    {
        self.tables[number].install(image);
    }
}

/// The number of the first table with this name.
pub(crate) fn number_of(tables: &[Table], name: &[u8]) -> Option<usize>
    ensures number { result ≡ number_named name.now tables.now }
    ensures inside { IfSome result (λ number. number < length tables.now) }
{
    tables.iter().position(|table| table.is_named(name))
}
