//! The files that a program uses, by their names.

ghost use Rattle.std.specs.Prelude.{◌≡◌, List, [], ◌∷◌, Option, false, is_ok, IfOk};
ghost use Rattle.program_io.specs.FileCall.{FileCall, Closes, Compares, Leaves, Makes, Opens, Reads, Writes, followed_by, given_by};

use crate::why::FileFault;
use lc_model::{ByteSink, ByteSource};

/// Opens, creates and compares files by name. Contracts see the calls in order.
pub trait Disk {
    /// An opened file.
    type Reader: ByteSource + Drop;
    /// A file that is open for writing.
    type Device: ByteSink + Drop;

    // The calls so far, in order, if they are known.
    ghost calls: { Self → Option (List FileCall) };

    /// Returns the first bytes of a file, at most 65,537.
    fn read(&mut self, name: &str) -> Result<Vec<u8>, FileFault>
        ensures { calls self.new ≡ followed_by (calls self.old)
            (Reads name.now (given_by (λ bytes. bytes.items) result) ∷ []) };

    /// Opens a file to read it from its first byte.
    fn open(&mut self, name: &str) -> Result<Self::Reader, FileFault>
        ensures unread { IfOk result (λ reader. (Self.Reader.source reader).reads ≡ 0) }
        ensures readable { IfOk result (λ reader. (Self.Reader.source reader).failed ≡ false) }
        ensures noted { calls self.new ≡ followed_by (calls self.old)
            (Opens name.now (given_by Self.Reader.source result) ∷ []) };

    /// Whether two names are of the same file, or would be if both were created.
    fn is_one_file(&mut self, first: &str, second: &str) -> bool
        ensures { calls self.new ≡ followed_by (calls self.old)
            (Compares first.now second.now result ∷ []) };

    /// Opens a file for writing, and creates it if there is none. Its old bytes stay until the first write.
    fn create(&mut self, name: &str) -> Result<Self::Device, FileFault>
        ensures writable { IfOk result (λ device. (Self.Device.sink device).failed ≡ false) }
        ensures noted { calls self.new ≡ followed_by (calls self.old)
            (Makes name.now (given_by Self.Device.sink result) ∷ []) };

    /// Closes a file that is open for writing. If nothing was written, its old bytes are removed. Error: they can't be removed.
    fn close(&mut self, device: Self::Device) -> Result<(), FileFault>
        ensures { calls self.new ≡ followed_by (calls self.old)
            (Closes (Self.Device.sink device) (is_ok result) ∷ []) };

    /// Closes a file that is open for writing, and leaves it as it is.
    fn leave(&mut self, device: Self::Device)
        ensures { calls self.new ≡ followed_by (calls self.old)
            (Leaves (Self.Device.sink device) ∷ []) };

    /// Creates a file with these bytes, in place of another of its name.
    fn write(&mut self, name: &str, bytes: &[u8]) -> Result<(), FileFault>
        ensures { calls self.new ≡ followed_by (calls self.old)
            (Writes name.now bytes.now (is_ok result) ∷ []) };
}
