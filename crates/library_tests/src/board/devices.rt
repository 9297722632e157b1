//! Sources and sinks, in memory and of the standard library: they give and take their bytes, fail where they are told to or
//! where the library does, and try nothing again.

use crate::shared::same;
use lc_model::{ByteSink, ByteSource, DeviceFault, Limited, Pieces, Reading, Writing};
use std::fmt::Debug;
use std::io;
use std::process::Abort;

const TEXT: &[u8] = b"watchpoint, stale: 7";

/// Reads this many times, even after faults, and counts the bytes that come.
fn read_on(source: &mut impl ByteSource, room: &mut [u8], reads: u64) -> usize {
    let mut filled = 0;
    for _ in 0..reads {
        if filled >= room.len() {
            break;
        }
        match source.read(&mut room[filled..]) {
            Ok(count) => filled += count,
            Err(DeviceFault) => {}
        }
    }
    filled
}

/// This number of reads gives the whole text, with a fault or without.
fn gives<R: Abort, W: Copy + Debug>(
    rt: &R,
    of: W,
    source: &mut impl ByteSource,
    reads: u64,
    fails: bool,
) {
    let mut room = [0; 32];
    let filled = read_on(source, &mut room, reads);
    same(rt, of, room.get(..filled), Some(TEXT));
    same(rt, of, (source.reads(), source.failed()), (reads, fails));
}

#[test]
fn sources_give_the_text(rt: HostRuntime) {
    gives(&rt, "pieces", &mut Pieces::new(TEXT, 7), 4, false);
    gives(
        &rt,
        "a failed read",
        &mut Pieces::failing_at(TEXT, 7, 2),
        4,
        true,
    );
    gives(&rt, "a reader", &mut Reading::new(TEXT), 2, false);
}

/// Two writes of the text: how many bytes each takes, or whether it fails.
fn takes<R: Abort, W: Copy + Debug>(
    rt: &R,
    of: W,
    sink: &mut impl ByteSink,
    first: Result<usize, DeviceFault>,
    second: Result<usize, DeviceFault>,
) {
    let found = (sink.write(TEXT), sink.write(TEXT));
    same(rt, of, found, (first, second));
    same(rt, of, sink.failed(), second.is_err());
}

#[test]
fn sinks_take_the_text(rt: HostRuntime) {
    let none = Err(DeviceFault);
    let mut room = [0; 20];
    let mut sink = Limited::new(&mut room, 13);
    takes(&rt, "a limit", &mut sink, Ok(13), none);
    same(&rt, "the bytes", sink.bytes(), &TEXT[..13]);
    let mut sink = Limited::failing_at(&mut room, 20, 2);
    takes(&rt, "a failed write", &mut sink, Ok(20), none);
    let mut sink = Writing::new(Vec::new(rt.alloc()));
    takes(&rt, "a writer", &mut sink, Ok(20), Ok(20));
}

/// A device of the standard library whose first call fails or takes nothing, and whose later ones don't.
struct Late {
    called: bool,
}

impl Drop for Late {
    fn drop(self) {
        let Late { called: _ } = self;
    }
}

impl io::Read for Late {
    fn read(&mut self, buffer: &mut [u8]) -> io::Result<usize> {
        if self.called {
            return Ok(buffer.len().min(1));
        }
        self.called = true;
        Err(io::Error::from(io::ErrorKind::Interrupted))
    }
}

impl io::Write for Late {
    fn write(&mut self, bytes: &[u8]) -> io::Result<usize> {
        if self.called {
            return Ok(bytes.len());
        }
        self.called = true;
        Ok(0)
    }

    fn flush(&mut self) -> io::Result<()> {
        Ok(())
    }
}

#[test]
fn nothing_is_tried_again(rt: HostRuntime) {
    let mut source = Reading::new(Late { called: false });
    let read = (source.read(&mut [0; 32]), source.reads(), source.failed());
    same(&rt, "read", read, (Err(DeviceFault), 1, true));
    let mut sink = Writing::new(Late { called: false });
    let written = (sink.write(TEXT), sink.failed());
    same(&rt, "write", written, (Err(DeviceFault), true));
}
