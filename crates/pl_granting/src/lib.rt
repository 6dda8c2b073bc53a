//! Which agent is given which job, and by which rule it isn't.
#![tactic(auto)]

mod agents;
mod drawing;
mod first_broken;
mod free;
mod job_at;
mod jobs;
mod laws;
mod locked;
mod stages;

pub use agents::is_held_by;
pub use drawing::drawn;
pub use first_broken::{broken, broken_of_name};
pub use job_at::{JobAt, job_named};
pub use jobs::ended;
pub use laws::granting_laws;
pub use pl_settling::{settle, settling_laws};
pub use pl_views::run_view;
