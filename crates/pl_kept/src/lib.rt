//! The rows that are kept of what has happened, a call a table: at each place the row that stands
//! there.
#![tactic(auto)]

mod decisions;
mod endings;
mod ends;
mod jobs;
mod numbers;
mod planned;
mod settings;
mod stages;
mod written;

pub use decisions::decision_row;
pub use jobs::job_row;
pub use numbers::numbers_row;
pub use pl_journal::Journal;
pub use planned::{planned_job, planned_stage};
pub use settings::{agent_row, file_row, pipeline_row, principal_row, resource_row};
pub use stages::stage_row;
