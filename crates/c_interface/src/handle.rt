//! A handle: one pointer, by which a program in C has a host that it can't look into.

ghost use Rattle.std.specs.Prelude.{◌≡◌, Option, Some, None, IsSome};
ghost use Rattle.std.specs.Borrow.{sem};
ghost use Rattle.std.specs.Coded.{coded_option};
ghost use Rattle.std.specs.declared.alloc.Global.{Global as Heap};
ghost use Rattle.c_interface.specs.declared.handle.Fed.{Fed as FedValue};
ghost use Rattle.c_interface.specs.Held.{held, fed_row};

use crate::lasting::{BoxPlace, LastingBox};
use crate::loose::Loose;
use flight_core::FedHost;
use std::alloc::Global;
use std::marker::Model;
use std::mem::{ManuallyDrop, replace};
use std::ptr::null_mut;

/// What a handle holds: a host, room for what one record leads to, and how many bytes were written. A program in C may lose its
/// handle, and with it a host that nobody closed. So the host is held as a value that may be lost; what takes it out has to close
/// it.
#[derive(Drop)]
pub struct Fed {
    pub(crate) host: ManuallyDrop<FedHost<LastingBox>>,
    pub(crate) room: Vec<u8>,
    /// The boxes of the applications that the host has dropped.
    pub(crate) places: Vec<BoxPlace>,
    /// Up to 2^64 - 1.
    pub(crate) written: u64,
}

/// A pointer to a host that a program in C was given, or null. The handle owns what it points to.
#[repr(C)]
#[derive(Drop)]
pub struct Handle {
    at: *mut u8,
    ghost alloc: { Heap },
    ghost value: { Option FedValue } by { coded_option fed_row.coded },
}

impl Model for Handle {
    ghost also_owns = { λ h. held h.alloc h.at h.value };
}

fn nothing() -> Handle
    ensures { result.value ≡ None }
{
    Handle { at: null_mut() }
}

fn closed_in(loose: Loose<Fed, Global>) -> Handle
    ensures { result.value ≡ Some loose.value }
{
    let Loose { at, alloc: _ } = loose;
    Handle { at: at as *mut u8 }
}

fn loose_fed(handle: Handle, alloc: Global) -> Loose<Fed, Global>
    requires { IsSome handle.value }
    ensures { handle.value ≡ Some result.value }
{
    let Handle { at } = handle;
    Loose {
        at: at as *mut Fed,
        alloc,
    }
}

/// Creates a handle that holds this.
pub(crate) fn handle_of(fed: Box<Fed>) -> Handle
    ensures { result.value ≡ Some fed.value }
{
    closed_in(Loose::of(fed))
}

/// Takes what a handle holds. Condition: it holds something. It holds nothing afterwards.
pub(crate) fn take_fed(handle: &mut Handle, alloc: Global) -> Box<Fed>
    requires { IsSome handle.old.value }
    ensures taken { handle.old.value ≡ Some result.value }
    ensures left { handle.new.value ≡ None }
{
    let whole = replace(handle, nothing());
    loose_fed(whole, alloc).into_box()
}

impl Handle {
    ghost use Rattle.c_interface.specs.Lent.{LendsFed};

    /// Lends what the handle holds. Condition: it holds something.
    pub(crate) fn lend(&mut self) -> &mut Fed
        requires { IsSome self.old.value }
        ensures* writes_back { sem 𝓛 (LendsFed self.entry result) }
        ensures value { self.old.value ≡ Some result.now }
    {
        unsafe { &mut *(self.at as *mut Fed) }
    }
}
