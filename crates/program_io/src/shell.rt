//! The files of the system. No contract of the standard library covers their bytes or the calls over them.

ghost use Rattle.std.specs.Prelude.{None};

use crate::disk::Disk;
use crate::identity::is_one_file;
use crate::replacing::Replacing;
use crate::whole_files::read_front;
use crate::why::{FileFault, fault_of};
use crate::writing::write_all_to;
use lc_model::Reading;
use std::fs::{File, Files, OpenOptions};

/// The most bytes that are read of a rule text or a schedule: one more than it may have.
const MOST: u64 = 65_537;

/// The files of the system. Its calls aren't known to contracts.
#[derive(Drop)]
pub struct Shell<'a, R: Files + AllocGlobal> {
    rt: &'a R,
}

impl<'a, R: Files + AllocGlobal> Shell<'a, R> {
    /// The files that this runtime reaches.
    pub fn new(rt: &'a R) -> Shell<'a, R> {
        Shell { rt }
    }
}

impl<R: Files + AllocGlobal> Disk for Shell<'_, R> {
    type Reader = Reading<R::File>;

    type Device = Replacing<R::File>;

    ghost calls = { λ _. None };

    fn read(&mut self, name: &str) -> Result<Vec<u8>, FileFault> {
        read_front(self.rt, name, MOST)
    }

    fn open(&mut self, name: &str) -> Result<Reading<R::File>, FileFault> {
        match File::open(self.rt, name) {
            Ok(file) => Ok(Reading::new(file)),
            Err(error) => Err(fault_of(&error)),
        }
    }

    fn is_one_file(&mut self, first: &str, second: &str) -> bool {
        is_one_file(self.rt, first, second)
    }

    fn create(&mut self, name: &str) -> Result<Replacing<R::File>, FileFault> {
        let mut how = OpenOptions::new();
        how.write(true).create(true);
        match how.open(self.rt, name) {
            Ok(file) => Ok(Replacing::new(file)),
            Err(error) => Err(fault_of(&error)),
        }
    }

    fn close(&mut self, device: Replacing<R::File>) -> Result<(), FileFault> {
        match device.empty() {
            Ok(()) => Ok(()),
            Err(error) => Err(fault_of(&error)),
        }
    }

    fn leave(&mut self, _device: Replacing<R::File>) {}

    fn write(&mut self, name: &str, bytes: &[u8]) -> Result<(), FileFault> {
        write_all_to(self.rt, name, bytes)
    }
}
