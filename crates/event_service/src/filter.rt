//! Filters of event ids (cFE user's guide, event services, binary filters; that a count stops at 65,535, and restarts when its
//! filter is set again, is this project's own).

ghost use Rattle.std.specs.Prelude.{◌≡◌, ◌==◌, ◌<◌, not, [], length, map, Some, IfSome, if◌then◌else◌};
ghost use Rattle.std.specs.List.{position_from, list_any};
ghost use Rattle.lc_model.specs.Events.Log.{is_full_for};
ghost use Rattle.lc_model.specs.Kept.Summary.{Filter as Kept};
ghost use Rattle.lc_model.specs.Kept.Next.{filter_of, is_unfiltered, filters_with, filter_put};
ghost use Rattle.event_service.specs.Filters.{HaveOwnIds, ids_of, asked_once, renewed};

use arrayvec::ArrayVec;
use std::marker::Model;

/// The most filters of a sender.
pub(crate) const MAX_FILTERS: usize = 16;

/// The values of a byte.
const LOW_BYTES: usize = 256;

/// The filter of an id: its mask, and the number of counted requests.
#[derive(Clone, Copy, Debug, Default)]
pub(crate) struct Filter {
    id: u16,
    mask: u16,
    count: u16,
}

impl Model for Filter {
    ghost use Rattle.lc_model.specs.Kept.Summary.{Filter as Kept};

    ghost Value = { Kept };

    ghost view = { λ f. record { id = f.id; mask = f.mask; count = f.count } };

    ghost inverse = { λ f. record { id = f.id; mask = f.mask; count = f.count } };
}

impl Filter {
    fn new(id: u16, mask: u16) -> Filter
        ensures { result ≡ record { id = id; mask = mask; count = 0 } }
    {
        Filter { id, mask, count: 0 }
    }

    fn is_of(&self, id: u16) -> bool
        ensures { result ≡ (id == self.now.id) }
    {
        id == self.id
    }

    /// Counts a request, and returns whether the filter lets its event through.
    fn ask(&mut self) -> bool
        ensures open { result ≡ is_unfiltered (Some self.old) }
        ensures after { self.new ≡ asked_once self.old }
    {
        let open = self.count & self.mask == 0;
        self.count = self.count.saturating_add(1);
        open
    }

    /// Restarts the count.
    fn reset(&mut self)
        ensures { self.new ≡ record { id = self.old.id; mask = self.old.mask; count = 0 } }
    {
        self.count = 0;
    }
}

/// The filters of a sender, at most 16, in the order in which they were set.
#[derive(Debug, Drop)]
pub(crate) struct Filters {
    list: ArrayVec<Filter, MAX_FILTERS>,
    /// Where an id's filter is looked for first, by the id's low byte. A wrong place costs time and nothing else.
    hints: [u8; LOW_BYTES],
}

impl Model for Filters {
    ghost use Rattle.std.specs.Prelude.{List};
    ghost use Rattle.lc_model.specs.Kept.Summary.{Filter as Kept};
    ghost use Rattle.event_service.specs.Filters.{HaveOwnIds};

    ghost Value = { List Kept };

    ghost view = { λ f. f.list.items };

    ghost invariant = { λ f. HaveOwnIds f.list.items };
}

impl Filters {
    /// Creates an empty list of filters.
    pub(crate) fn new() -> Filters
        ensures { result ≡ [] }
    {
        Filters {
            list: ArrayVec::new(),
            hints: [0; LOW_BYTES],
        }
    }

    /// Counts a request at the filter of its id, if there is one, and returns whether the event is sent.
    pub(crate) fn ask(&mut self, id: u16) -> bool
        ensures open { result ≡ is_unfiltered (filter_of id self.old) }
        ensures after { self.new ≡ filters_with asked_once id self.old }
    {
        let hint = self.hints[id as usize % LOW_BYTES] as usize;
        ask_of(self.list.as_mut_slice(), id, hint)
    }

    /// Sets the mask of an id's filter and restarts its count. Returns whether there was room: the id has a filter already, or
    /// there are under 16.
    pub(crate) fn set(&mut self, id: u16, mask: u16) -> bool
        ensures room { result ≡ not (is_full_for id (ids_of self.old)) }
        ensures after { self.new ≡ (if result then filter_put id mask self.old else self.old) }
    {
        if renew(self.list.as_mut_slice(), id, mask) {
            return true;
        }
        if self.list.is_full() {
            return false;
        }
        self.hints[id as usize % LOW_BYTES] = self.list.len() as u8;
        self.list.push(Filter::new(id, mask));
        true
    }

    /// Restarts all counts.
    pub(crate) fn reset(&mut self)
        ensures { self.new ≡ map (λ (filter : Kept). record filter { count = 0 }) self.old }
    {
        reset_all(self.list.as_mut_slice());
    }
}

/// Counts a request at the filter of the id, if there is one, and returns whether the event is sent.
fn ask_of(filters: &mut [Filter], id: u16, hint: usize) -> bool
    requires own_ids { HaveOwnIds filters.old }
    ensures open { result ≡ is_unfiltered (filter_of id filters.old) }
    ensures after { filters.new ≡ filters_with asked_once id filters.old }
{
    match find(filters, id, hint) {
        None => true,
        Some(place) => filters[place].ask(),
    }
}

/// If the id has a filter, sets its mask and restarts its count. Returns whether it has one.
fn renew(filters: &mut [Filter], id: u16, mask: u16) -> bool
    requires own_ids { HaveOwnIds filters.old }
    ensures found { result ≡ list_any (λ (filter : Kept). id == filter.id) filters.old }
    ensures after { filters.new ≡ filters_with (renewed mask) id filters.old }
{
    match place_of(filters, id) {
        None => false,
        Some(place) => {
            filters[place] = Filter::new(id, mask);
            true
        }
    }
}

fn reset_all(filters: &mut [Filter])
    ensures { filters.new ≡ map (λ (filter : Kept). record filter { count = 0 }) filters.old }
{
    for filter in filters.iter_mut() {
        filter.reset();
    }
}

/// Where the filter of the id stands, looked for at the hint first.
fn find(filters: &[Filter], id: u16, hint: usize) -> Option<usize>
    requires own_ids { HaveOwnIds filters.now }
    ensures place { result ≡ position_from (λ (filter : Kept). id == filter.id) 0 filters.now }
    ensures inside { IfSome result (λ place. place < length filters.now) }
{
    if hint < filters.len() && filters[hint].is_of(id) {
        return Some(hint);
    }
    place_of(filters, id)
}

/// Where the filter of the id stands.
fn place_of(filters: &[Filter], id: u16) -> Option<usize>
    ensures place { result ≡ position_from (λ (filter : Kept). id == filter.id) 0 filters.now }
    ensures inside { IfSome result (λ place. place < length filters.now) }
{
    filters.iter().position(|filter| filter.is_of(id))
}
