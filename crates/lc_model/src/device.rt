//! Where a run's bytes come from and go to: sources, sinks, and their four implementers, none of which allocates.

pub mod limited;
pub mod pieces;
pub mod std_reader;
pub mod writing;

ghost use Rattle.std.specs.Prelude.{◌≡◌, ◌<◌, length, IfErr, IfOk, OnErr, OnOk};
ghost use Rattle.lc_model.specs.Device.{Source, Sink, one_call_more, retried_by_call, NoWriteRetried, ReadsSome, ReadFails, WritesSome, WriteFails, IsCutShort};
ghost use Rattle.std.specs.Io.KnownBytes.{Appends};

use thiserror::Error;

/// A source or a sink failed. The cause is not given.
#[derive(Clone, Copy, Debug, PartialEq, Eq, Error)]
#[error("the device failed")]
pub struct DeviceFault;

/// A source of bytes, which chooses how many it gives at each read.
pub trait ByteSource {
    // The bytes that are left, if they are known; the reads so far; whether one failed; and whether one came after that.
    ghost source: { Self → Source };

    /// Reads bytes to the start of the buffer and returns their number: at least one, or 0 at the end of the source. A fault
    /// moves no byte.
    fn read(&mut self, buffer: &mut [u8]) -> Result<usize, DeviceFault>
        requires { 0 < length buffer.old }
        ensures read { IfOk result
            (λ count. ReadsSome (source self.old) (source self.new) count buffer.new) }
        ensures fault { OnErr result (ReadFails (source self.old) (source self.new)) }
        ensures counted { (source self.new).reads ≡ one_call_more (source self.old).reads }
        ensures retried { (source self.new).retried ≡
            retried_by_call (source self.old).failed (source self.old).retried };

    /// The number of reads so far, those that failed among them, up to 2^64 - 1.
    fn reads(&self) -> u64
        ensures { result ≡ (source self.now).reads };

    /// Whether a read has returned a fault.
    fn failed(&self) -> bool
        ensures { result ≡ (source self.now).failed };
}

/// A sink for bytes, which chooses how many it takes at each write.
pub trait ByteSink {
    // The bytes that were taken, if they are known; whether a write failed; and whether one came after that.
    ghost sink: { Self → Sink };

    /// Takes the first of the bytes, at least one, and returns how many. A sink that can take none returns a fault,
    /// which moves no byte.
    fn write(&mut self, bytes: &[u8]) -> Result<usize, DeviceFault>
        requires { 0 < length bytes.now }
        ensures written { IfOk result
            (λ count. WritesSome (sink self.old) (sink self.new) count bytes.now) }
        ensures fault { OnErr result (WriteFails (sink self.old) (sink self.new)) }
        ensures retried { (sink self.new).retried ≡
            retried_by_call (sink self.old).failed (sink self.old).retried };

    /// Whether a write has returned a fault.
    fn failed(&self) -> bool
        ensures { result ≡ (sink self.now).failed };
}

/// Writes all of the bytes. The error is the number of those that the sink took before a write failed, which is the last one.
#[inline(always)]
pub fn write_all<W: ByteSink>(writer: &mut W, bytes: &[u8]) -> Result<(), usize>
    ensures sent { OnOk result
        (Appends (W.sink writer.old).gained (W.sink writer.new).gained bytes.now) }
    ensures fine { OnOk result ((W.sink writer.new).failed ≡ (W.sink writer.old).failed) }
    ensures cut { IfErr result (IsCutShort (W.sink writer.old) (W.sink writer.new) bytes.now) }
    ensures retried { OnErr result ((W.sink writer.new).retried ≡
        retried_by_call (W.sink writer.old).failed (W.sink writer.old).retried) }
    ensures not_retried { NoWriteRetried (W.sink writer.old) (W.sink writer.new) }
{
    let mut sent = 0;
    while sent < bytes.len() {
        match writer.write(&bytes[sent..]) {
            Ok(count) => sent += count,
            Err(DeviceFault) => return Err(sent),
        }
    }
    Ok(())
}
