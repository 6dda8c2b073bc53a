//! Where the jobs of a pipeline run, what they ask of an agent there, and the resources that a
//! stage uses (Microsoft Learn, Azure Pipelines, "YAML schema reference", pool; "Demands";
//! "Approvals and checks").
#![tactic(auto)]

mod demand;
mod pools;
mod uses;

pub use demand::Demand;
pub use pools::{demands_of, pool_name, pool_of};
pub use uses::uses_of;
