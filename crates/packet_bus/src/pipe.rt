//! The pipe of one seat (cFE user's guide, software bus services).

ghost use Rattle.std.specs.Prelude.{◌≡◌, ◌<◌, ◌≤◌, ◌==◌, true, false, length, is_some, option_map, Some, None, IfOk, IfSome};
ghost use Rattle.std.specs.List.{position_from};
ghost use Rattle.lc_model.specs.Services.Bus.{most_subscriptions, pipe_depth};
ghost use Rattle.packet_bus.specs.Line.{Line, new_line, mids_in, slots_in, first_slot, behind_first, with_slot, with_subscription, without_subscription, is_long, has_slots, hears_mid, first_mid};

use circular_buffer::HeapCircularBuffer;
use std::alloc::{AllocError, Global};
use std::marker::Model;

/// The largest number of packets in a pipe.
const PIPE_DEPTH: usize = 72;

/// The largest number of subscriptions of a pipe.
const SUBSCRIPTIONS: usize = 256;

/// The place of a pipe. Contracts see nothing, or the pipe's subscriptions and the slots of its packets, oldest first.
#[derive(Drop)]
pub(crate) struct PipePlace {
    is_open: bool,
    subscriptions: Vec<u16>,
    waiting: HeapCircularBuffer<u16>,
}

impl Model for PipePlace {
    ghost use Rattle.std.specs.Prelude.{Option, vec_capacity, vec_len, ◌≤◌};
    ghost use Rattle.packet_bus.specs.Line.{Line, line_if, IsPlace};

    ghost Value = { Option Line };

    ghost view = { λ p. line_if p.is_open p.subscriptions.items p.waiting.items };

    ghost invariant = { λ p. IsPlace p.is_open p.subscriptions.items p.waiting
        (vec_capacity p.subscriptions) };
}

/// Where a message id stands first.
fn place_of(mid: u16, mids: &[u16]) -> Option<usize>
    ensures place { result ≡ position_from (λ other. mid == other) 0 mids.now }
    ensures inside { IfSome result (λ at. at < length mids.now) }
{
    mids.iter().position(|other| mid == *other)
}

impl PipePlace {
    /// Creates a place without a pipe, with room for one. Out of memory is the only error.
    pub fn new(alloc: Global) -> Result<PipePlace, AllocError>
        ensures { IfOk result (λ place. place ≡ None) }
    {
        Ok(PipePlace {
            is_open: false,
            subscriptions: Vec::with_capacity(alloc, SUBSCRIPTIONS)?,
            waiting: HeapCircularBuffer::with_capacity(alloc, PIPE_DEPTH)?,
        })
    }

    /// Whether there is a pipe.
    pub fn is_open(&self) -> bool
        ensures { result ≡ is_some self.now }
    {
        self.is_open
    }

    /// Opens a pipe without subscriptions and packets.
    pub fn open(&mut self)
        requires { self.old ≡ None }
        ensures { self.new ≡ Some new_line }
    {
        self.is_open = true;
    }

    /// Closes the pipe, which loses its subscriptions and packets.
    pub fn close(&mut self)
        requires { self.old ≡ Some new_line }
        ensures { self.new ≡ None }
    {
        self.is_open = false;
    }

    /// Appends a slot, for which there must be room. Returns whether the pipe is full then.
    pub fn push(&mut self, slot: u16) -> bool
        requires open { is_some self.old ≡ true }
        requires room { is_long self.old ≡ false }
        ensures after { self.new ≡ option_map (with_slot slot) self.old }
        ensures full { result ≡ is_long self.new }
    {
        let is_last = self.waiting.len() == PIPE_DEPTH - 1;
        let _ = self.waiting.try_push_back(slot);
        is_last
    }

    /// Takes the oldest slot, if one waits.
    pub fn pop(&mut self) -> Option<u16>
        ensures slot { result ≡ first_slot self.old }
        ensures after { self.new ≡ option_map behind_first self.old }
    {
        self.waiting.pop_front()
    }

    /// Whether a slot waits.
    pub fn is_ready(&self) -> bool
        ensures { result ≡ has_slots self.now }
    {
        !self.waiting.is_empty()
    }

    /// Whether the pipe is subscribed to a message id.
    pub fn is_subscribed(&self, mid: u16) -> bool
        ensures { result ≡ hears_mid mid self.now }
    {
        self.subscriptions.iter().any(|other| mid == *other)
    }

    /// How many subscriptions there are.
    pub fn subscriptions(&self) -> usize
        ensures count { result ≡ length (mids_in self.now) }
        ensures few { result ≤ most_subscriptions }
    {
        self.subscriptions.len()
    }

    /// How many subscriptions there is room for.
    pub fn subscription_capacity(&self) -> usize
        ensures { result ≡ most_subscriptions }
    {
        self.subscriptions.capacity()
    }

    /// How many packets there is room for.
    pub fn waiting_capacity(&self) -> usize
        ensures { result ≡ pipe_depth }
    {
        self.waiting.capacity()
    }

    /// The oldest subscription, if there is one.
    pub fn first_subscription(&self) -> Option<u16>
        ensures { result ≡ first_mid self.now }
    {
        self.subscriptions.first().copied()
    }

    /// Adds a subscription to a message id. Conditions: there is room, and the pipe isn't subscribed to it.
    pub fn subscribe(&mut self, mid: u16)
        requires open { is_some self.old ≡ true }
        requires room { length (mids_in self.old) < most_subscriptions }
        requires anew { hears_mid mid self.old ≡ false }
        ensures { self.new ≡ option_map (with_subscription mid) self.old }
    {
        self.subscriptions.push_reserved(mid);
    }

    /// Unsubscribes from a message id.
    pub fn unsubscribe(&mut self, mid: u16)
        ensures { self.new ≡ option_map (without_subscription mid) self.old }
    {
        // It stands there once, and mostly in front: subscriptions end in the order in which they began.
        if let Some(at) = place_of(mid, self.subscriptions.as_slice()) {
            self.subscriptions.remove(at);
        }
    }
}
