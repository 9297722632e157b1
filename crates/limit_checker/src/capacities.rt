//! The capacities of the lists of `LC`.

use limit_engine::EngineCapacities;

/// How many elements the lists of a Limit Checker have room for.
#[derive(Clone, Copy, Debug)]
pub struct CheckerCapacities {
    /// The lists of its engine.
    pub engine: EngineCapacities,
    /// Rules, each with its reaction to a sample.
    pub asked: usize,
}
