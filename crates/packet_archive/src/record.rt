//! The bytes of a stream's records.

ghost use Rattle.std.specs.Prelude.{◌≡◌, ◌≤◌, ◌++◌, length, IfOk};
ghost use Rattle.lc_model.specs.Host.Stream.{max_body};
ghost use Rattle.packet_archive.specs.Import.{record_bytes};

use lc_model::Moment;
use std::alloc::AllocError;

/// Appends a record. The only error is a lack of memory.
pub(crate) fn push_record(
    out: &mut Vec<u8>,
    kind: u8,
    moment: Moment,
    body: &[u8],
) -> Result<(), AllocError>
    requires { length body.now ≤ max_body }
    ensures { IfOk result
        (λ _. out.new.items ≡ out.old.items ++ record_bytes kind moment body.now) }
{
    let [a, b, c, d] = moment.seconds.to_be_bytes();
    let [e, f] = moment.subseconds.to_be_bytes();
    let [g, h, i, j] = (body.len() as u32).to_be_bytes();
    out.extend_from_slice(&[kind, a, b, c, d, e, f, g, h, i, j])?;
    out.extend_from_slice(body)?;
    Ok(())
}
