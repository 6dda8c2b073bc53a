//! What is due at a moment: the fact that settling adds next to what has happened. Jobs end that
//! are out of time or whose condition is false, stages end whose jobs have all ended, whose
//! condition is false, of which a check fails or which give way to a later run, and the next stage
//! starts (Microsoft Learn, Azure Pipelines, "Specify conditions", "Define approvals and checks").
#![tactic(auto)]

mod checked;
mod contention;
mod eligible;
mod ends;
mod first_due;
mod jobs;
mod judging;
mod laws;
mod nodes;
mod one_stage;
mod open_stages;
mod scanning;
mod stage_at;
mod stages;
mod verdicts;

pub use checked::{checks_on, exclusive_uses, permits};
pub use contention::{Contention, contender_of, contenders, contention_at};
pub use eligible::{Holding, Running};
pub use first_due::due;
pub use jobs::{FalseJobs, OutOfTime};
pub use laws::due_laws;
pub use nodes::{awaits_agent, is_running, waits};
pub use one_stage::judgement_of;
pub use open_stages::{OpenStages, Place, stages_of};
pub use pl_journal::{Journal, taker_told};
pub use pl_open_runs::IndexedJournal;
pub use pl_views::ready_moment;
pub use scanning::{Kind, first_stage};
pub use stage_at::StageAt;
pub use stages::{Done, FalseStages};
pub use verdicts::{AllJudged, all_judged};
