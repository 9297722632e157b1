//! How output reaches the device of a sink.

ghost use Rattle.std.specs.Prelude.{◌≡◌, ℕ, List, length, Option};
ghost use Rattle.lc_model.specs.Device.{Sink};
ghost use Rattle.flight_core.specs.Gathered.{Gives, MayHold, with_held};

use lc_model::{ByteSink, DeviceFault};

/// The device of a sink `T`, and the output that the sink has collected for it.
pub(crate) trait Outlet<T: ByteSink> {
    // The sink's device, and the output that is collected for it.
    ghost device: { T → Sink };

    ghost held: { T → List ℕ };
    // Whether the device had taken this when the run began.
    ghost Had: { Option (List ℕ) → Type 0 };

    /// Writes all collected output to the device. If the device fails, it has taken a part from the start, the rest stays
    /// collected, and it is not written to again.
    fn settle(out: &mut T) -> Result<(), DeviceFault>
        ensures { Gives (device out.old) (device out.new) (held out.old) (held out.new) result };

    /// The number of bytes collected.
    fn held_in(out: &T) -> usize
        ensures { result ≡ length (held out.now) };

    // As a sink, it has gained the bytes that the device has taken, and then those that are collected.
    ghost shows: { (out : T) → T.sink out ≡ with_held (device out) (held out) };
    // Nothing is collected, or the device's bytes begin with those that it had at the start.
    ghost grows: { (out : T) (had : Option (List ℕ)) → Had had →
        MayHold had (device out).gained (held out) };
}

/// Each write goes to the device at once; nothing is collected.
pub(crate) struct AtOnce;

impl<W: ByteSink> Outlet<W> for AtOnce {
    ghost use Rattle.std.specs.Prelude.{[], ⊤, refl};
    ghost use Rattle.std.proofs.Common.{inl, sym};
    ghost use Rattle.flight_core.specs.Gathered.{none_held};

    ghost device = { λ out. W.sink out };

    ghost held = { λ _. [] };

    ghost Had = { λ _. ⊤ };

    ghost shows = { λ out. sym (none_held (W.sink out)) };

    ghost grows = { λ _ _ _. inl refl };

    fn settle(_out: &mut W) -> Result<(), DeviceFault> {
        Ok(())
    }

    fn held_in(_out: &W) -> usize {
        0
    }
}
