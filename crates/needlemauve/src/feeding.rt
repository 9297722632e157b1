//! A host that is fed.

ghost use Rattle.std.specs.Prelude.{◌≡◌, ◌≢◌, ◌<◌, ◌≤◌, ◌⊎◌, length, None, IfSome, IsSomeAnd};
ghost use Rattle.c_interface.specs.Feeding.{AreFed, FedWasClosed, IsFed, IsMade, IsUnmade, too_small};
ghost use Rattle.std.specs.List.{sum};
ghost use Rattle.c_interface.specs.Refusing.{unfit};
ghost use Rattle.c_interface.specs.Running.{IsNotRun, IsUnfit};
ghost use Rattle.c_interface.specs.Said.{no_sentence};
ghost use Rattle.c_interface.specs.Texts.{texts_in};

use c_interface::{Handle, Handled, Made, close_host, feed_host, make_host};
use std::alloc::Global;

/// Makes a host of rule texts, which lie one after the other, and returns 0 or the number of the refusal. Condition: the
/// handle holds nothing.
#[unsafe(no_mangle)]
pub extern "C" fn needlemauve_host_new(
    alloc: Global,
    texts: &[u8],
    lengths: &[usize],
    schedule: &[u8],
    room: usize,
    host: &mut Handle,
    told: &mut Made,
) -> u32
    requires empty { host.old.value ≡ None }
    ensures answered { result ≡ told.new.refusal.code }
    ensures made { result ≡ 0 → IsSomeAnd host.new.value
        (IsMade (texts_in texts.now lengths.now) schedule.now room) }
    ensures ready { result ≡ 0 → IsSomeAnd host.new.value IsFed }
    ensures unmade { result ≢ 0 → host.new.value ≡ None }
    ensures why { result ≢ 0 →
        IsNotRun texts.now lengths.now schedule.now told.new.refusal told.new.sentence ⊎
        IsUnmade (texts_in texts.now lengths.now) told.new.refusal told.new.sentence }
    ensures unfit { sum lengths.now ≢ length texts.now →
        IsUnfit told.new.refusal told.new.sentence }
    ensures fit { result ≡ unfit → sum lengths.now ≢ length texts.now }
    ensures silent { result ≡ 0 → told.new.sentence ≡ no_sentence }
{
    make_host(alloc, texts, lengths, schedule, room, host, told)
}

/// Takes bytes of the stream, handles the record in front, and returns what came of it. Condition: the handle holds a host.
#[unsafe(no_mangle)]
pub extern "C" fn needlemauve_host_feed(
    host: &mut Handle,
    bytes: &[u8],
    output: &mut [u8],
    told: &mut Handled,
) -> u32
    requires there { IsSomeAnd host.old.value IsFed }
    ensures answered { result ≡ told.new.code }
    ensures ready { IsSomeAnd host.new.value IsFed }
    ensures fed { result ≢ too_small →
        AreFed bytes.now output.new told.new host.old.value host.new.value }
    ensures small { result ≡ too_small →
        (host.new.value ≡ host.old.value) × (output.new ≡ output.old) }
    ensures smaller { result ≡ too_small → IsSomeAnd host.old.value
        (λ fed. length output.old < length fed.room.items) }
    ensures refused { IsSomeAnd host.old.value
        (λ fed. length output.old < length fed.room.items → result ≡ too_small) }
    ensures untaken { result ≡ too_small → (told.new.taken ≡ 0) × (told.new.written ≡ 0) }
    ensures within { told.new.written ≤ length output.new }
{
    feed_host(host, bytes, output, told)
}

/// Closes a host: all applications retire, and all its memory is given back. Condition: the handle holds a host.
#[unsafe(no_mangle)]
pub extern "C" fn needlemauve_host_close(alloc: Global, host: &mut Handle)
    requires { IsSomeAnd host.old.value IsFed }
    ensures empty { host.new.value ≡ None }
    ensures closed { IfSome host.old.value FedWasClosed }
{
    close_host(alloc, host);
}
