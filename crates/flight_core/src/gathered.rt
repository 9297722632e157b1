//! Output is collected, and given to its device in few writes.

ghost use Rattle.std.specs.Prelude.{◌≡◌, ◌+◌, ◌++◌, ◌<◌, ◌≤◌, ℕ, true, List, [], length, take, Option, IfOk, OnErr, vec_capacity};
ghost use Rattle.lc_model.specs.Device.{WriteFails, WritesSome, retried_by_call};
ghost use Rattle.flight_core.specs.Gathered.{Gives, HasGrown, most_gathered, with_held};

use crate::outlet::Outlet;
use crate::window::move_to_front;
use lc_model::{ByteSink, DeviceFault, write_all, write_at};
use std::marker::{Brand, PhantomData};

/// The most bytes collected.
pub(crate) const MOST_GATHERED: usize = 65_536;

/// What the device had taken when the run began, if that is known. For proofs; no code reads it.
pub(crate) trait Outset {
    ghost had: { Option (List ℕ) };
}

impl Outset for Brand {
    ghost use Rattle.std.specs.Prelude.{None};

    ghost had = { None };
}

/// A device with a buffer for its output: the device is written to only when 65,536 bytes have been collected, or by `settle`.
/// Each byte is written once. The buffer never grows.
#[derive(Drop)]
pub(crate) struct Gathered<W: ByteSink, S: Outset> {
    device: W,
    held: Vec<u8>,
    size: usize,
    outset: PhantomData<S>,
    ghost few: { size ≤ most_gathered },
    ghost there: { size ≤ length held.items },
    ghost room: { vec_capacity held ≡ most_gathered },
    ghost grown: { HasGrown S.had (W.sink device).gained },
}

impl<W: ByteSink, S: Outset> Gathered<W, S> {
    /// Creates it with this list for its buffer, and nothing collected. Condition: its capacity is 65,536 bytes.
    pub fn new(device: W, held: Vec<u8>) -> Gathered<W, S>
        requires room { vec_capacity held ≡ MOST_GATHERED }
        requires had { S.had ≡ (W.sink device).gained }
        ensures held { result.size ≡ 0 }
        ensures device { result.device ≡ device }
    {
        Gathered {
            device,
            held,
            size: 0,
            outset: PhantomData,
        }
    }

    /// Returns the device, and drops the buffer.
    pub fn into_device(self) -> W
        ensures { result ≡ self.device }
    {
        let Gathered {
            device,
            held: _,
            size: _,
            outset: _,
        } = self;
        device
    }

    /// How many bytes the buffer has room for.
    pub fn capacity(&self) -> usize
        ensures { result ≡ most_gathered }
    {
        self.held.capacity()
    }

    /// Collects these bytes. Condition: there is room for them.
    #[inline(always)]
    fn hold(&mut self, part: &[u8])
        requires { self.old.size + length part.now ≤ most_gathered }
        ensures held { take self.new.size self.new.held.items ≡
            take self.old.size self.old.held.items ++ part.now }
        ensures device { self.new.device ≡ self.old.device }
    {
        write_at(&mut self.held, self.size, part);
        self.size += part.len();
    }

    /// Writes all collected bytes to the device.
    fn give(&mut self) -> Result<(), DeviceFault>
        ensures gives { Gives (W.sink self.old.device) (W.sink self.new.device)
            (take self.old.size self.old.held.items) (take self.new.size self.new.held.items)
            result }
        ensures retried { OnErr result ((W.sink self.new.device).retried ≡
            retried_by_call (W.sink self.old.device).failed (W.sink self.old.device).retried) }
    {
        match write_all(&mut self.device, &self.held[..self.size]) {
            Ok(()) => {
                self.size = 0;
                Ok(())
            }
            Err(sent) => {
                move_to_front(&mut self.held, sent, self.size);
                self.size -= sent;
                Err(DeviceFault)
            }
        }
    }

    /// Writes to a device that has failed, for which nothing more is collected: so it records each further write.
    #[cold]
    fn write_again(&mut self, bytes: &[u8]) -> Result<usize, DeviceFault>
        requires some { 0 < length bytes.now }
        requires failed { (W.sink self.old.device).failed ≡ true }
        ensures written { IfOk result
            (λ count. WritesSome
            (with_held (W.sink self.old.device) (take self.old.size self.old.held.items))
            (with_held (W.sink self.new.device) (take self.new.size self.new.held.items))
            count bytes.now) }
        ensures fault { OnErr result (WriteFails
            (with_held (W.sink self.old.device) (take self.old.size self.old.held.items))
            (with_held (W.sink self.new.device) (take self.new.size self.new.held.items))) }
        ensures retried { (W.sink self.new.device).retried ≡
            retried_by_call (W.sink self.old.device).failed (W.sink self.old.device).retried }
    {
        self.give()?;
        match self.device.write(bytes) {
            Ok(taken) => Ok(taken),
            Err(DeviceFault) => Err(DeviceFault),
        }
    }
}

impl<W: ByteSink, S: Outset> ByteSink for Gathered<W, S> {
    ghost use Rattle.std.specs.Prelude.{take};

    ghost sink = { λ gathered.
        with_held (W.sink gathered.device) (take gathered.size gathered.held.items) };

    #[inline(always)]
    fn write(&mut self, bytes: &[u8]) -> Result<usize, DeviceFault> {
        if self.device.failed() {
            return self.write_again(bytes);
        }
        if self.size == MOST_GATHERED {
            self.give()?;
        }
        let count = bytes.len().min(MOST_GATHERED - self.size);
        self.hold(&bytes[..count]);
        Ok(count)
    }

    fn failed(&self) -> bool {
        self.device.failed()
    }
}

/// The outlet of collected output.
pub(crate) struct Gathering;

impl<W: ByteSink, S: Outset> Outlet<Gathered<W, S>> for Gathering {
    ghost use Rattle.std.specs.Prelude.{refl, take};
    ghost use Rattle.std.proofs.Common.{inr, subst};

    ghost device = { λ out. W.sink out.device };

    ghost held = { λ out. take out.size out.held.items };

    ghost Had = { λ had. S.had ≡ had };

    ghost shows = { λ _. refl };

    ghost grows = { λ out had began.
        inr (subst (λ first. HasGrown first (W.sink out.device).gained) began out.grown) };

    fn settle(out: &mut Gathered<W, S>) -> Result<(), DeviceFault> {
        out.give()
    }

    fn held_in(out: &Gathered<W, S>) -> usize {
        out.size
    }
}
