//! The result of a sample.

ghost use Rattle.std.specs.Prelude.{◌≡◌, [], IfOk};
ghost use Rattle.lc_model.specs.Codes.{table_entries};
ghost use Rattle.limit_engine.specs.Engine.{after_sample, points_sampled};
ghost use Rattle.limit_engine.specs.Reactions.{requests_in};

use lc_model::{SampleRequest, TABLE_ENTRIES};
use limit_engine::{Asked, Engine};
use std::alloc::{AllocError, Global};
use std::marker::Model;

/// The reactions of the rules of a sample, with room for an item of each rule. Contracts see the items.
#[derive(Debug, Drop)]
pub(crate) struct AskedList {
    items: Vec<Asked>,
}

impl Model for AskedList {
    ghost use Rattle.std.specs.Prelude.{◌≡◌, List, vec_capacity};
    ghost use Rattle.lc_model.specs.Codes.{table_entries};
    ghost use Rattle.limit_engine.specs.declared.reaction.Asked.{Asked};

    ghost Value = { List Asked };

    ghost view = { λ a. a.items.items };

    ghost invariant = { λ a. vec_capacity a.items ≡ table_entries };
}

impl AskedList {
    /// Creates it empty. It allocates all memory that it ever needs; out of memory is the only error.
    pub(crate) fn new(alloc: Global) -> Result<AskedList, AllocError>
        ensures { IfOk result (λ asked. asked ≡ []) }
    {
        Ok(AskedList {
            items: Vec::with_capacity(alloc, TABLE_ENTRIES)?,
        })
    }

    /// How many items there is room for.
    pub(crate) fn capacity(&self) -> usize
        ensures { result ≡ table_entries }
    {
        self.items.capacity()
    }

    pub(crate) fn as_slice(&self) -> &[Asked]
        ensures { result.now ≡ self.now }
    {
        self.items.as_slice()
    }

    /// Samples the rules that a request takes; then the items are their reactions, in order.
    pub(crate) fn sample(&mut self, engine: &mut Engine, request: &SampleRequest)
        ensures after { engine.new ≡ after_sample request.now engine.old }
        ensures asked { requests_in engine.old.rules self.new ≡
            (points_sampled request.now engine.old).1 }
    {
        self.items.clear();
        engine.sample(request, &mut self.items);
    }
}
