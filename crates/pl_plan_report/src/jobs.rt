ghost use Rattle.std.specs.Prelude.{◌≡◌, ◌++◌, map, flat_map, IfOk, OnOk};
ghost use Rattle.pl_plan.specs.Labels.{label};
ghost use Rattle.pl_plan_report.specs.Lines.{job_line, job_text, jobs_text};

use crate::names::push_depends;
use crate::steps::push_steps;
use pl_base::{List, Memory, Text};
use pl_plan::{PlanJob, label_of};
use pl_report::push_word;
use std::alloc::Global;

fn labels_of(alloc: Global, jobs: &[PlanJob]) -> Result<List<Text>, Memory>
    ensures { IfOk result (λ labels. labels ≡ map label jobs.now) }
{
    let mut labels = List::new(alloc);
    for job in jobs {
        labels.push(label_of(alloc, job)?)?;
    }
    Ok(labels)
}

/// Puts a job's line behind a text, what it waits for by these labels.
fn push_job_line(
    alloc: Global,
    text: &mut Text,
    labels: &List<Text>,
    job: &PlanJob,
) -> Result<(), Memory>
    ensures { OnOk result (text.new ≡ text.old ++ job_line labels.now job.now) }
{
    let label = label_of(alloc, job)?;
    text.push_str("job")?;
    push_word(text, label.as_str())?;
    push_depends(text, labels, job.depends.as_slice())?;
    text.push_str(" pool")?;
    push_word(text, job.pool.as_str())?;
    text.push_str("\n")
}

fn push_job(
    alloc: Global,
    text: &mut Text,
    labels: &List<Text>,
    job: &PlanJob,
) -> Result<(), Memory>
    ensures { OnOk result (text.new ≡ text.old ++ job_text labels.now job.now) }
{
    push_job_line(alloc, text, labels, job)?;
    push_steps(alloc, text, job.steps.as_slice())
}

fn push_each_job(
    alloc: Global,
    text: &mut Text,
    labels: &List<Text>,
    jobs: &[PlanJob],
) -> Result<(), Memory>
    ensures { OnOk result (text.new ≡ text.old ++ flat_map (job_text labels.now) jobs.now) }
{
    for job in jobs {
        push_job(alloc, text, labels, job)?;
    }
    Ok(())
}

/// Puts the jobs of a stage behind a text, each with its steps.
pub fn push_jobs(alloc: Global, text: &mut Text, jobs: &[PlanJob]) -> Result<(), Memory>
    ensures { OnOk result (text.new ≡ text.old ++ jobs_text jobs.now) }
{
    let labels = labels_of(alloc, jobs)?;
    push_each_job(alloc, text, &labels, jobs)
}
