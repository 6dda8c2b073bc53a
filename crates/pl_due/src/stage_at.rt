use pl_base::Moment;
use pl_facts::QueuedRun;
use pl_journal::Journal;
use pl_plan::PlanStage;

/// A stage of a queued run, asked about at a moment.
#[derive(Clone, Copy)]
pub struct StageAt<'j> {
    pub journal: &'j Journal,
    pub moment: Moment,
    pub run: u64,
    /// Its place in the run's plan.
    pub stage: u32,
    pub queued: &'j QueuedRun,
    pub planned: &'j PlanStage,
}
