//! Which runs are open.

ghost use Rattle.std.specs.Prelude.{◌≡◌, All};
ghost use Rattle.pl_open_runs.specs.Index.{HasFewStages};
ghost use Rattle.pl_open_runs.specs.Open as spec;

use pl_journal::Journal;

/// Whether one of so many stages of a run, from the first on, hasn't ended.
fn has_open_stage(journal: &Journal, run: u64, stages: u32) -> bool
    ensures { result ≡ spec.has_open_stage run stages journal.now.facts }
{
    for stage in 0..stages {
        if journal.stage_end(run, stage).is_none() {
            return true;
        }
    }
    false
}

/// Whether a run was queued and has a stage that hasn't ended.
pub(crate) fn is_open(journal: &Journal, run: u64) -> bool
    requires { All HasFewStages journal.now.facts }
    ensures { result ≡ spec.is_open run journal.now.facts }
{
    match journal.run(run) {
        Some(queued) => has_open_stage(journal, run, queued.compiled.plan.stages.len() as u32),
        None => false,
    }
}
