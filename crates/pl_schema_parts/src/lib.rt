//! The parts of pipelines as they are written: their types, and what reads the scalars, names,
//! lists, pools, variables, legs and steps of an expanded tree (Microsoft Learn, Azure Pipelines,
//! "YAML schema reference").
#![tactic(auto)]

mod copying;
mod fault;
mod legs;
mod lists;
mod names;
mod pipeline;
mod pools;
mod rows;
mod scalars;
mod steps;
mod variables;

pub use fault::{PlacedFault, SchemaCode, SchemaFault, refusal};
pub use legs::{Legs, legs_in, no_legs};
pub use lists::depends_in;
pub use names::{Names, name_in, no_names, take};
pub use pipeline::{
    DependSpec, JobSpec, LegSpec, Pipeline, PoolSpec, StageSpec, StepSpec, Variable,
};
pub use pl_base::RepoRef;
pub use pools::{environment_in, pool_in};
pub use rows::{at_key, at_node, has};
pub use scalars::{behaviour_in, condition_in, items_in, limited_in, pairs_in, truth_in};
pub use steps::steps_in;
pub use variables::{Variables, variable_in, variables_in};
