//! The capacities of the engine's lists.

/// How many elements the lists of the watchpoints have room for.
#[derive(Clone, Copy, Debug)]
pub struct WatchpointCapacities {
    /// Watchpoints, in the order of their numbers.
    pub terms: usize,
    /// Message ids that are watched.
    pub ids: usize,
    /// Message ids of telemetry, each with the place where a search for it begins.
    pub places: usize,
    /// Groups of watchpoints, one for each id.
    pub spans: usize,
    /// Watchpoints, group by group.
    pub watches: usize,
}

/// How many elements the lists of the plan have room for.
#[derive(Clone, Copy, Debug)]
pub struct PlanCapacities {
    /// Steps of all rules.
    pub steps: usize,
    /// Rules, each with the span of its steps.
    pub roots: usize,
    /// Watchpoints and steps, each with its last truth.
    pub places: usize,
    /// Meanings of a step.
    pub meanings: usize,
}

/// How many elements the lists of an engine have room for.
#[derive(Clone, Copy, Debug)]
pub struct EngineCapacities {
    /// The lists of the watchpoints.
    pub watchpoints: WatchpointCapacities,
    /// The watchpoints' last results.
    pub watch: usize,
    /// Rules, as the table has them.
    pub entries: usize,
    /// The rules' states and counts.
    pub points: usize,
    /// Words of all equations.
    pub words: usize,
    /// The lists of the plan.
    pub plan: PlanCapacities,
}
