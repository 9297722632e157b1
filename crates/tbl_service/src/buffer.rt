//! A buffer for the bytes of one file or one image.

ghost use Rattle.std.specs.Prelude.{◌≡◌, ◌≤◌, [], length, IfErr, IfOk};
ghost use Rattle.lc_model.specs.Host.React.{max_file_size};
ghost use Rattle.tbl_service.specs.declared.error.TableError.TheVariants.{Memory};

use crate::error::TableError;
use lc_model::write_at;
use std::alloc::Global;
use std::marker::Model;

/// The largest length of a file in bytes, headers included.
pub(crate) const MAX_FILE: usize = 32_768;

/// Bytes on the heap, in a list with room for the longest file, which never grows. Contracts see the bytes.
#[derive(Debug, Drop)]
pub(crate) struct Buffer {
    bytes: Vec<u8>,
    size: usize,
}

impl Model for Buffer {
    ghost use Rattle.std.specs.Prelude.{ℕ, List, ◌≡◌, ◌≤◌, length, take, vec_capacity};
    ghost use Rattle.lc_model.specs.Host.React.{max_file_size};

    ghost Value = { List ℕ };

    ghost view = { λ b. take b.size b.bytes.items };

    ghost invariant = { λ b. (vec_capacity b.bytes ≡ max_file_size) ×
        (b.size ≤ length b.bytes.items) × (b.size ≤ max_file_size) };
}

impl Buffer {
    /// Creates an empty buffer. The only error is a lack of memory.
    pub(crate) fn new(alloc: Global) -> Result<Buffer, TableError>
        ensures empty { IfOk result (λ buffer. buffer ≡ []) }
        ensures memory { IfErr result (λ e. e ≡ Memory) }
    {
        Ok(Buffer {
            bytes: Vec::with_capacity(alloc, MAX_FILE)?,
            size: 0,
        })
    }

    /// How many bytes there is room for.
    pub(crate) fn capacity(&self) -> usize
        ensures { result ≡ max_file_size }
    {
        self.bytes.capacity()
    }

    /// Replaces the buffer's bytes with these.
    pub(crate) fn fill(&mut self, bytes: &[u8])
        requires { length bytes.now ≤ max_file_size }
        ensures { self.new ≡ bytes.now }
    {
        write_at(&mut self.bytes, 0, bytes);
        self.size = bytes.len();
    }

    pub(crate) fn bytes(&self) -> &[u8]
        ensures bytes { result.now ≡ self.now }
        ensures fits { length result.now ≤ max_file_size }
    {
        &self.bytes[..self.size]
    }
}
