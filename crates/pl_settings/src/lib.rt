//! What requests are answered that put, remove and get files, and that set pipelines, resources,
//! principals and agents. They look at what has happened; none of them changes it.
#![tactic(auto)]

mod agents;
mod files;
mod pipelines;
mod principals;
mod resources;
mod running;

pub use agents::set_agent;
pub use files::{get_file, put_file, remove_file};
pub use pipelines::set_pipeline;
pub use principals::set_principal;
pub use resources::set_resource;
