//! The numbers of a refusal, which `HOST`'s event reports.

ghost use Rattle.std.specs.Prelude.{◌≡◌, ◌≤◌, [], ◌∷◌, length};
ghost use Rattle.event_service.specs.Error as events;
ghost use Rattle.tbl_service.specs.Error as tables;
ghost use Rattle.app_host.specs.Ordered as orders;

use crate::error::HostError;
use event_service::EventError;
use std::marker::Model;
use tbl_service::TableError;

/// At most two numbers. Contracts see the list.
#[derive(Drop)]
pub(crate) struct Numbers {
    numbers: [u16; 2],
    count: usize,
}

impl Model for Numbers {
    ghost use Rattle.std.specs.Prelude.{List, ℕ, take, length, ◌≤◌, ◌≡◌};

    ghost Value = { List ℕ };

    ghost view = { λ n. take n.count n.numbers };

    ghost invariant = { λ n. (n.count ≤ 2) × (length n.numbers ≡ 2) };
}

impl Numbers {
    fn none() -> Numbers
        ensures { result ≡ [] }
    {
        Numbers {
            numbers: [0, 0],
            count: 0,
        }
    }

    pub(crate) fn one(number: u16) -> Numbers
        ensures { result ≡ number ∷ [] }
    {
        Numbers {
            numbers: [number, 0],
            count: 1,
        }
    }

    fn two(first: u16, second: u16) -> Numbers
        ensures { result ≡ first ∷ second ∷ [] }
    {
        Numbers {
            numbers: [first, second],
            count: 2,
        }
    }

    pub(crate) fn as_slice(&self) -> &[u16]
        ensures numbers { result.now ≡ self.now }
        ensures few { length result.now ≤ 2 }
    {
        &self.numbers[..self.count]
    }
}

/// The numbers of a refusal of the table services: its own, and after 112 the file's fault.
pub(crate) fn of_tables(error: TableError) -> Numbers
    ensures { result ≡ tables.refusal_of error }
{
    match error {
        TableError::NoFile => Numbers::one(111),
        TableError::FileFault(fault) => Numbers::two(112, u16::from(fault.code().unwrap_or(0))),
        TableError::UnknownTable => Numbers::one(113),
        TableError::WrongSize => Numbers::one(114),
        TableError::UpdatePending => Numbers::one(115),
        TableError::NothingLoaded => Numbers::one(116),
        TableError::NotValidated => Numbers::one(117),
        TableError::StoreFull => Numbers::one(118),
        TableError::FileTooLong => Numbers::one(119),
        TableError::NoSlot => Numbers::one(120),
        TableError::Memory => Numbers::none(),
    }
}

/// The number of a refusal of the event services.
pub(crate) fn of_events(error: EventError) -> Numbers
    ensures { result ≡ events.refusal_of error }
{
    match error {
        EventError::NotRegistered => Numbers::one(101),
        EventError::FilterFull => Numbers::one(102),
        EventError::AppsFull => Numbers::one(103),
        EventError::Memory => Numbers::none(),
    }
}

/// The number of a refusal of the executive services.
pub(crate) fn of_host(error: HostError) -> Numbers
    ensures { result ≡ orders.refusal_of error }
{
    match error.code() {
        Some(code) => Numbers::one(u16::from(code)),
        None => Numbers::none(),
    }
}
