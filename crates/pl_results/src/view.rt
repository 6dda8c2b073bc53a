ghost use Rattle.std.specs.Prelude.{◌≡◌, IfOk, slice_get};
ghost use Rattle.pl_results.specs.Runs as spec;

use pl_base::{ExactCopy, List, Memory, Outcome, Shared, Text};
use std::alloc::Global;

/// A run as conditions see it: whether it is canceled, how its stages ended, and its jobs, those of
/// one stage beside those of the next, all in the plan's order. What isn't there hasn't ended.
#[derive(Drop)]
pub struct RunView {
    pub canceled: bool,
    /// None where a stage hasn't ended.
    pub stages: List<Option<Outcome>>,
    pub jobs: List<List<JobView>>,
}

/// A job, or a leg of one: how it ended, or None where it hasn't, and its outputs, each by the text
/// `step.variable`. That outputs are shared is about cost alone.
#[derive(Drop)]
pub struct JobView {
    pub result: Option<Outcome>,
    pub outputs: Shared<List<(Text, Text)>>,
}

/// How the stage at a place ended, where it has.
pub fn result_at(results: &[Option<Outcome>], at: usize) -> Option<Outcome>
    ensures { result ≡ spec.result_at results.now at }
{
    match results.get(at) {
        Some(result) => *result,
        None => None,
    }
}

/// The views of a stage's jobs; none where the view lacks them.
pub fn views_of(view: &RunView, at: usize) -> &[JobView]
    ensures { result.now ≡ spec.views_of view.now at }
{
    match view.jobs.get(at) {
        Some(views) => views.as_slice(),
        None => &[],
    }
}

/// How the job at a place ended, where it has.
pub fn view_result(views: &[JobView], at: usize) -> Option<Outcome>
    ensures { result ≡ spec.view_result (slice_get views.now at) }
{
    match views.get(at) {
        Some(view) => view.result,
        None => None,
    }
}

/// The outputs of the job at a place.
pub fn view_outputs(
    alloc: Global,
    views: &[JobView],
    at: usize,
) -> Result<Shared<List<(Text, Text)>>, Memory>
    ensures { IfOk result (λ outputs. outputs ≡ spec.view_outputs (slice_get views.now at)) }
{
    match views.get(at) {
        Some(view) => view.outputs.copy(alloc),
        None => Shared::new(alloc, List::new(alloc)),
    }
}
