//! The packets that the records of a stream bring.

ghost use Rattle.std.specs.Prelude.{◌≡◌, ◌≤◌, ◌++◌, drop, length, IfOk};
ghost use Rattle.lc_model.specs.Host.Stream.{header_size};
ghost use Rattle.stream_script.specs.Front.{front_in, IsInside, Reads};
ghost use Rattle.packet_archive.specs.Export.{exported, left_of, packet_by, packet_in_front, record_passed};

use lc_model::stream::HEADER;
use std::alloc::AllocError;
use stream_script::{Front, RecordKind, front_of};

/// Appends the packet that a record of this kind brings; appends nothing for other kinds. The only error is a lack of memory.
fn push_packet(out: &mut Vec<u8>, kind: RecordKind, body: &[u8]) -> Result<(), AllocError>
    ensures { IfOk result (λ _. out.new.items ≡ out.old.items ++ packet_by kind body.now) }
{
    match kind {
        RecordKind::Packet => {
            out.extend_from_slice(body)?;
            Ok(())
        }
        _ => Ok(()),
    }
}

/// Appends the packet of the record in front, and returns what is in front. The only error is a lack of memory.
fn export_next(out: &mut Vec<u8>, bytes: &[u8]) -> Result<Front, AllocError>
    ensures written { IfOk result (λ _. out.new.items ≡
        out.old.items ++ packet_in_front bytes.now (front_in bytes.now)) }
    ensures stands { IfOk result (λ front. front ≡ front_in bytes.now) }
    ensures inside { IfOk result (λ front. IsInside bytes.now front) }
    ensures reads { IfOk result (λ front. Reads bytes.now front) }
{
    let front = front_of(bytes);
    match front {
        Front::Record { kind, size } => {
            let (record, _) = bytes.split_at(size);
            let (_, body) = record.split_at(HEADER);
            push_packet(out, kind, body)?;
            Ok(front)
        }
        _ => Ok(front),
    }
}

/// The size in bytes of the record in front; `None` if there is no whole record.
fn record_size(front: Front) -> Option<usize>
    ensures { result ≡ record_passed front }
{
    match front {
        Front::Record { kind: _, size } => Some(size),
        _ => None,
    }
}

/// Appends the packets of the whole records at the front of these bytes of a stream. Returns the bytes that are left and what is at
/// their front. The only error is a lack of memory.
pub fn export_held<'a>(out: &mut Vec<u8>, bytes: &'a [u8]) -> Result<(&'a [u8], Front), AllocError>
    ensures written { IfOk result (λ _. out.new.items ≡
        out.old.items ++ exported bytes.now) }
    ensures left { IfOk result (λ end. end.0.now ≡ left_of bytes.now) }
    ensures stands { IfOk result (λ end. end.1 ≡ front_in (left_of bytes.now)) }
{
    let mut left = bytes;
    for _ in 0..bytes.len() {
        let front = export_next(out, left)?;
        match record_size(front) {
            Some(size) => {
                let (_, behind) = left.split_at(size);
                left = behind;
            }
            None => return Ok((left, front)),
        }
    }
    Ok((left, Front::End))
}
