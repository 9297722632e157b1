//! The engine of the Limit Checker (cFS Limit Checker user's guide): it compares packets of telemetry, ages the results, samples
//! the rules of the tables in force, and returns their requests and events. It sends nothing.
#![tactic(auto)]

mod actionpoint;
mod capacities;
mod engine;
mod field;
mod groups;
mod ids;
mod layout;
mod operands;
mod plan;
mod planning;
mod reaction;
mod sampling;
mod states;
mod step;
mod watchpoint;

pub use capacities::{EngineCapacities, PlanCapacities, WatchpointCapacities};
pub use engine::{Engine, RuleEvent, Standing};
pub use reaction::{Asked, Failure, Reactions, Turn};
pub use states::StateRefusal;
