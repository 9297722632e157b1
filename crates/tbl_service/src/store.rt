//! The stored files, by name.

ghost use Rattle.std.specs.Prelude.{◌≡◌, ◌<◌, ◌≤◌, [], length, option_map, IfErr, IfOk, IfSome, OnErr};
ghost use Rattle.std.specs.List.{position_from};
ghost use Rattle.lc_model.specs.Host.React.{max_file_size};
ghost use Rattle.lc_model.specs.Name.{value_under, is_named, name_size};
ghost use Rattle.lc_model.specs.Services.Tables.{files_with};
ghost use Rattle.tbl_service.specs.Capacities.{buffers};
ghost use Rattle.tbl_service.specs.declared.error.TableError.TheVariants.{Memory};
ghost use Rattle.tbl_service.specs.Error.{answered};
ghost use Rattle.tbl_service.specs.Store.{NamedFile, most_files};

use crate::buffer::{Buffer, MAX_FILE};
use crate::error::TableError;
use arrayvec::ArrayVec;
use std::alloc::Global;
use std::marker::Model;

/// The largest length of a file's or a table's name, in bytes.
pub(crate) const MAX_NAME: usize = 40;

/// The largest number of stored files.
const MAX_FILES: usize = 8;

/// A file with its name.
#[derive(Debug, Drop)]
struct StoredFile {
    name: ArrayVec<u8, MAX_NAME>,
    bytes: Buffer,
}

impl Model for StoredFile {
    ghost use Rattle.tbl_service.specs.Store.{NamedFile};

    ghost Value = { NamedFile };

    ghost view = { λ f. (f.name.items, f.bytes) };
}

impl StoredFile {
    fn new(name: &[u8], bytes: Buffer) -> StoredFile
        requires { length name.now ≤ name_size }
        ensures { result ≡ (name.now, bytes) }
    {
        let mut own_name = ArrayVec::new();
        own_name.try_extend_from_slice(name).unwrap();
        StoredFile {
            name: own_name,
            bytes,
        }
    }

    fn is_named(&self, name: &[u8]) -> bool
        ensures { result ≡ is_named name.now self.now.0 }
    {
        name == self.name.as_slice()
    }

    fn replace(&mut self, bytes: &[u8])
        requires { length bytes.now ≤ max_file_size }
        ensures { self.new ≡ (self.old.0, bytes.now) }
    {
        self.bytes.fill(bytes);
    }

    fn capacity(&self) -> usize
        ensures { result ≡ max_file_size }
    {
        self.bytes.capacity()
    }

    fn bytes(&self) -> &[u8]
        ensures bytes { result.now ≡ self.now.1 }
        ensures fits { length result.now ≤ max_file_size }
    {
        self.bytes.bytes()
    }
}

/// At most eight files, in the order in which their names were first stored, and the free buffers.
#[derive(Debug, Drop)]
pub(crate) struct Files {
    list: Vec<StoredFile>,
    spare: Vec<Buffer>,
}

impl Model for Files {
    ghost use Rattle.std.specs.Prelude.{List, vec_capacity};
    ghost use Rattle.tbl_service.specs.Store.{NamedFile, IsStore};

    ghost Value = { List NamedFile };

    ghost view = { λ f. f.list.items };

    ghost invariant = { λ f. IsStore f.list.items f.spare.items (vec_capacity f.list)
        (vec_capacity f.spare) };
}

impl Files {
    /// Creates an empty store. The only error is a lack of memory.
    pub(crate) fn new(alloc: Global) -> Result<Files, TableError>
        ensures empty { IfOk result (λ files. files ≡ []) }
        ensures memory { IfErr result (λ e. e ≡ Memory) }
    {
        let list = Vec::with_capacity(alloc, MAX_FILES)?;
        let mut spare = Vec::with_capacity(alloc, MAX_FILES)?;
        for _ in 0..MAX_FILES {
            spare.push_reserved(Buffer::new(alloc)?);
        }
        Ok(Files { list, spare })
    }

    /// How many stored files there is room for.
    pub(crate) fn file_capacity(&self) -> usize
        ensures { result ≡ most_files }
    {
        self.list.capacity()
    }

    /// How many buffers without a file there is room for.
    pub(crate) fn spare_capacity(&self) -> usize
        ensures { result ≡ most_files }
    {
        self.spare.capacity()
    }

    /// How many bytes each buffer has room for: those of the stored files come first.
    pub(crate) fn buffer_capacities(&self) -> [usize; MAX_FILES]
        ensures { result ≡ buffers most_files }
    {
        [
            self.buffer_capacity(0),
            self.buffer_capacity(1),
            self.buffer_capacity(2),
            self.buffer_capacity(3),
            self.buffer_capacity(4),
            self.buffer_capacity(5),
            self.buffer_capacity(6),
            self.buffer_capacity(7),
        ]
    }

    fn buffer_capacity(&self, number: usize) -> usize
        requires { number < most_files }
        ensures { result ≡ max_file_size }
    {
        let stored = self.list.len();
        if number < stored {
            return self.list[number].capacity();
        }
        self.spare[number - stored].capacity()
    }

    /// Stores a file, in place of one with the same name. Errors: `FileTooLong` for over 32,768 bytes, `StoreFull`.
    pub(crate) fn put(&mut self, name: &[u8], bytes: &[u8]) -> Result<(), TableError>
        requires { length name.now ≤ name_size }
        ensures answer { answered result self.new ≡ files_with name.now bytes.now self.old }
        ensures refused { OnErr result (self.new ≡ self.old) }
    {
        if bytes.len() > MAX_FILE {
            return Err(TableError::FileTooLong);
        }
        match place_of(self.list.as_slice(), name) {
            Some(place) => self.list[place].replace(bytes),
            None => {
                let Some(mut buffer) = self.spare.pop() else {
                    return Err(TableError::StoreFull);
                };
                buffer.fill(bytes);
                self.list.push_reserved(StoredFile::new(name, buffer));
            }
        }
        Ok(())
    }

    /// The bytes of the file with this name, if it is stored.
    pub(crate) fn find(&self, name: &[u8]) -> Option<&[u8]>
        ensures bytes { option_map (λ bytes. bytes.now) result ≡ value_under name.now self.now }
        ensures fits { IfSome result (λ bytes. length bytes.now ≤ max_file_size) }
    {
        match place_of(self.list.as_slice(), name) {
            None => None,
            Some(place) => Some(self.list[place].bytes()),
        }
    }
}

/// The index of the file with this name, from 0.
fn place_of(files: &[StoredFile], name: &[u8]) -> Option<usize>
    ensures place { result ≡ position_from (λ (file : NamedFile). is_named name.now file.0) 0
        files.now }
    ensures inside { IfSome result (λ place. place < length files.now) }
{
    files.iter().position(|file| file.is_named(name))
}
