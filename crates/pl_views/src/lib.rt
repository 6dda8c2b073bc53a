//! What conditions and checks look at, told from the journal: how a run stands, what a stage waits
//! for and since when it is ready, who decided about it, and where its steps come from.
#![tactic(auto)]

mod check_views;
mod laws;
mod marks;
mod ready;
mod run_views;

pub use check_views::check_view;
pub use laws::readiness_laws;
pub use ready::{awaited_job, awaited_stage, is_ready, job_is_ready, ready_moment};
pub use run_views::run_view;
