//! Whether an agent that holds no job may be given one.

ghost use Rattle.std.specs.Prelude.{◌≡◌, ◌<◌, ◌^◌, length};
ghost use Rattle.std.specs.List.{list_all};
ghost use Rattle.pl_granting.specs.Asked.{of};
ghost use Rattle.pl_granting.specs.Rules as rules;
ghost use Rattle.pl_granting.specs.Tests as spec;

use crate::agents::meets;
use crate::job_at::JobAt;
use crate::jobs::{holder, legs_taken};
use pl_base::Text;
use pl_facts::AgentSetting;
use pl_journal::Journal;
use pl_plan::PlanStage;
use pl_uses::Demand;
use pl_views::{is_ready, job_is_ready};

/// Whether an agent meets all of some demands.
fn meets_all(agent: &AgentSetting, demands: &[Demand]) -> bool
    ensures { result ≡ list_all (rules.meets agent.now) demands.now }
{
    demands.iter().all(|demand| meets(agent, demand))
}

/// Whether an agent is of a job's pool and has what it demands.
fn is_able(agent: &AgentSetting, at: &JobAt<'_>) -> bool
    ensures { result ≡ spec.is_able agent.now (of at.now) }
{
    agent.pool == at.planned.pool && meets_all(agent, at.planned.demands.as_slice())
}

/// Whether no other agent holds a job.
fn is_untaken(journal: &Journal, agent: &Text, at: &JobAt<'_>) -> bool
    ensures { result ≡ spec.is_untaken journal.now.facts agent.now (of at.now) }
{
    match holder(journal, at) {
        Some(other) => other == agent,
        None => true,
    }
}

/// Whether no other agent holds a job, and it hasn't ended.
fn is_left(journal: &Journal, agent: &Text, at: &JobAt<'_>) -> bool
    ensures { result ≡ spec.is_left journal.now.facts agent.now (of at.now) }
{
    is_untaken(journal, agent, at) && journal.job_ending(at.run, at.stage, at.job).is_none()
}

/// Whether a job waits for no job, and fewer legs of it run than may at once.
fn is_in_turn(journal: &Journal, at: &JobAt<'_>) -> bool
    requires { length at.now.staged.now.jobs < 2 ^ 32 }
    ensures { result ≡ spec.is_in_turn journal.now.facts (of at.now) }
{
    job_is_ready(journal, at.run, at.stage, at.planned)
        && legs_taken(journal, at) < at.planned.max_parallel as u64
}

/// Whether an agent that holds no job may be given one of a stage that runs.
pub(crate) fn may_take(journal: &Journal, agent: &AgentSetting, at: &JobAt<'_>) -> bool
    requires { length at.now.staged.now.jobs < 2 ^ 32 }
    ensures { result ≡ spec.may_take journal.now.facts agent.now (of at.now) }
{
    is_able(agent, at) && is_left(journal, &agent.name, at) && is_in_turn(journal, at)
}

/// Whether a stage runs, and waits for no stage.
pub(crate) fn is_at_work(journal: &Journal, run: u64, stage: u32, staged: &PlanStage) -> bool
    ensures { result ≡ spec.is_at_work journal.now.facts run stage staged.now }
{
    journal.stage_start(run, stage).is_some()
        && journal.stage_end(run, stage).is_none()
        && is_ready(journal, run, staged)
}
