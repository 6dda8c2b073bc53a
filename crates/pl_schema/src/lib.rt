//! Pipelines as they are written, read from an expanded tree (Microsoft Learn, Azure Pipelines,
//! "YAML schema reference").
#![tactic(auto)]

mod jobs;
mod root;
mod stages;
mod strategy;

pub use pl_schema_parts::{
    DependSpec, JobSpec, LegSpec, Pipeline, PoolSpec, RepoRef, SchemaCode, SchemaFault, StageSpec,
    StepSpec, Variable, variable_in,
};
pub use root::pipeline_of;
