ghost use Rattle.std.specs.Prelude.{◌≡◌, ◌∷◌};
ghost use Rattle.pl_base.specs.Texts.{is};
ghost use Rattle.pl_due.specs.Fit.{AreFit};
ghost use Rattle.pl_granting.specs.Asked.{seen};
ghost use Rattle.pl_granting.specs.Named as spec;
ghost use Rattle.pl_plan.specs.Labels.{label};
ghost use Rattle.pl_due.specs.Below.pl_results.specs.Nodes.{CanRun};

use pl_base::Text;
use pl_facts::QueuedRun;
use pl_journal::Journal;
use pl_plan::{PlanJob, PlanStage};
use pl_requests::JobName;

/// A job of a queued run: its places, and what its run's plan says of it.
#[derive(Clone, Copy)]
pub struct JobAt<'j> {
    pub run: u64,
    /// The place of its stage in the run's plan.
    pub stage: u32,
    /// Its place in its stage's list.
    pub job: u32,
    pub queued: &'j QueuedRun,
    pub staged: &'j PlanStage,
    pub planned: &'j PlanJob,
}

/// The job at a place of a stage, or None where there is none.
pub(crate) fn job_in<'j>(
    run: u64,
    stage: u32,
    queued: &'j QueuedRun,
    staged: &'j PlanStage,
    job: u32,
) -> Option<JobAt<'j>>
    ensures { seen result ≡ spec.job_in run stage queued.now staged.now job }
{
    match staged.jobs.get(job as usize) {
        Some(planned) => Some(JobAt {
            run,
            stage,
            job,
            queued,
            staged,
            planned,
        }),
        None => None,
    }
}

/// The job at these places, or None where the run, the stage or the job isn't there.
pub(crate) fn job_at<'j>(journal: &'j Journal, run: u64, stage: u32, job: u32) -> Option<JobAt<'j>>
    ensures { seen result ≡ spec.job_at run stage job journal.now.facts }
{
    match journal.run(run) {
        Some(queued) => match queued.compiled.plan.stages.get(stage as usize) {
            Some(staged) => job_in(run, stage, queued, staged, job),
            None => None,
        },
        None => None,
    }
}

/// Whether a text is a dot and what stands behind it.
fn is_dotted(text: &[u8], behind: &Text) -> bool
    ensures { result ≡ is (46 ∷ behind.now) text.now }
{
    match text.split_first() {
        Some((b'.', rest)) => behind.as_bytes() == rest,
        _ => false,
    }
}

/// Whether a job has this label, by which requests name it: its name, and for a leg `NAME.LEG`.
fn has_label(planned: &PlanJob, text: &Text) -> bool
    ensures { result ≡ is (label planned.now) text.now }
{
    match &planned.leg {
        None => planned.name == *text,
        Some(leg) => match text.as_bytes().strip_prefix(planned.name.as_bytes()) {
            Some(rest) => is_dotted(rest, leg),
            None => false,
        },
    }
}

/// The place of the stage of a name in a plan's list, or None where there is none.
fn stage_named(stages: &[PlanStage], name: &Text) -> Option<usize>
    ensures { result ≡ spec.stage_named name.now stages.now }
{
    stages.iter().position(|one| one.name == *name)
}

/// The place of the job of a label in its stage's list, or None where there is none.
fn job_labelled(jobs: &[PlanJob], text: &Text) -> Option<usize>
    ensures { result ≡ spec.job_labelled text.now jobs.now }
{
    jobs.iter().position(|one| has_label(one, text))
}

/// The job of that label in a stage of a run, by the stage's place.
fn job_in_stage<'j>(queued: &'j QueuedRun, stage: u32, name: &JobName) -> Option<JobAt<'j>>
    requires { CanRun queued.now.compiled.plan }
    ensures { seen result ≡ spec.job_in_stage name.now queued.now stage }
{
    match queued.compiled.plan.stages.get(stage as usize) {
        Some(staged) => match job_labelled(staged.jobs.as_slice(), &name.job) {
            Some(job) => job_in(name.run, stage, queued, staged, job as u32),
            None => None,
        },
        None => None,
    }
}

/// The job of a name: of the run of this number, in the stage of this name, by this label, each
/// compared exactly; or None where the run, the stage or the label isn't there. It takes no memory.
///
/// Each run's plan can run, as `pl_due::due` asks, so its places are numbers of 32 bits.
pub fn job_named<'j>(journal: &'j Journal, name: &JobName) -> Option<JobAt<'j>>
    requires fit { AreFit journal.now.facts }
    ensures { seen result ≡ spec.job_named name.now journal.now.facts }
{
    match journal.run(name.run) {
        Some(queued) => {
            match stage_named(queued.compiled.plan.stages.as_slice(), &name.stage) {
                Some(stage) => job_in_stage(queued, stage as u32, name),
                None => None,
            }
        }
        None => None,
    }
}
