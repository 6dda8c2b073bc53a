ghost use Rattle.std.specs.Prelude.{◌≡◌, ◌++◌, IfOk, OnOk, codes, slice_get};
ghost use Rattle.pl_results.specs.Parts as spec;

use crate::members::job_at;
use crate::places::{all_places, direct};
use crate::view::{JobView, view_outputs, view_result};
use pl_base::{ExactCopy, List, Memory, Outcome, Shared, Text};
use pl_plan::PlanJob;
use std::alloc::Global;

/// Among what an output is looked up: the outputs of a whole stage, or those of one job.
#[derive(Clone, Copy)]
pub enum KeyForm {
    OfStage,
    OfJob,
}

/// A leg of a job, or a job that isn't cut: the job's name, how it ended, its outputs, and what
/// stands before `step.variable` in their keys.
#[derive(Drop)]
pub struct Leg {
    pub job: Text,
    pub prefix: Text,
    pub result: Option<Outcome>,
    pub outputs: Shared<List<(Text, Text)>>,
}

impl ExactCopy for Leg {
    fn copy(&self, alloc: Global) -> Result<Leg, Memory> {
        let job = self.job.copy(alloc)?;
        let prefix = self.prefix.copy(alloc)?;
        let outputs = self.outputs.copy(alloc)?;
        Ok(Leg {
            job,
            prefix,
            result: self.result,
            outputs,
        })
    }
}

fn with_dot(alloc: Global, name: &Text) -> Result<Text, Memory>
    ensures { IfOk result (λ text. text ≡ name.now ++ codes ".") }
{
    let mut text = Text::from_str(alloc, name.as_str())?;
    text.push_str(".")?;
    Ok(text)
}

fn leg_prefix(alloc: Global, job: &PlanJob) -> Result<Text, Memory>
    ensures { IfOk result
        (λ text. text ≡ spec.leg_prefix job.now.leg job.now.deployment job.now.name) }
{
    match (&job.leg, job.deployment) {
        (Some(leg), _) => with_dot(alloc, leg),
        (None, true) => with_dot(alloc, &job.name),
        (None, false) => Ok(Text::new(alloc)),
    }
}

/// What stands before `step.variable` in the keys of a job's outputs.
fn prefix_in(alloc: Global, form: KeyForm, job: &PlanJob) -> Result<Text, Memory>
    ensures { IfOk result (λ text. text ≡ spec.prefix_in form job.now) }
{
    let own = leg_prefix(alloc, job)?;
    match form {
        KeyForm::OfJob => Ok(own),
        KeyForm::OfStage => behind_job(alloc, job, &own),
    }
}

fn behind_job(alloc: Global, job: &PlanJob, own: &Text) -> Result<Text, Memory>
    ensures { IfOk result (λ text. text ≡ job.now.name ++ codes "." ++ own.now) }
{
    let mut prefix = with_dot(alloc, &job.name)?;
    prefix.push_str(own.as_str())?;
    Ok(prefix)
}

fn leg_of(
    alloc: Global,
    form: KeyForm,
    job: &PlanJob,
    views: &[JobView],
    at: usize,
) -> Result<Leg, Memory>
    ensures { IfOk result (λ leg. leg ≡ spec.leg_of form job.now (slice_get views.now at)) }
{
    let name = job.name.copy(alloc)?;
    let prefix = prefix_in(alloc, form, job)?;
    let outputs = view_outputs(alloc, views, at)?;
    Ok(Leg {
        job: name,
        prefix,
        result: view_result(views, at),
        outputs,
    })
}

fn legs_at(
    alloc: Global,
    form: KeyForm,
    jobs: &[PlanJob],
    views: &[JobView],
    places: &[usize],
) -> Result<List<Leg>, Memory>
    ensures { IfOk result (λ legs. legs ≡ spec.legs_at form jobs.now views.now places.now) }
{
    let mut legs = List::new(alloc);
    for at in places {
        if let Some(job) = job_at(jobs, *at) {
            legs.push(leg_of(alloc, form, job, views, *at)?)?;
        }
    }
    Ok(legs)
}

/// All legs of a stage's jobs, in the order of the plan.
pub fn all_legs(
    alloc: Global,
    form: KeyForm,
    jobs: &[PlanJob],
    views: &[JobView],
) -> Result<List<Leg>, Memory>
    ensures { IfOk result (λ legs. legs ≡ spec.all_legs form jobs.now views.now) }
{
    let places = all_places(alloc, jobs.len())?;
    legs_at(alloc, form, jobs, views, places.as_slice())
}

/// The legs for which a job waits directly, in the order of the plan.
pub fn direct_legs(
    alloc: Global,
    jobs: &[PlanJob],
    views: &[JobView],
    depends: &[u32],
) -> Result<List<Leg>, Memory>
    ensures { IfOk result (λ legs. legs ≡ spec.direct_legs jobs.now views.now depends.now) }
{
    let places = direct(alloc, depends, jobs.len())?;
    legs_at(alloc, KeyForm::OfJob, jobs, views, places.as_slice())
}
