ghost use Rattle.std.specs.Prelude.{◌≡◌, IfOk};
ghost use Rattle.pl_plan.specs.Labels.{label};

use crate::plan::PlanJob;
use pl_base::{ExactCopy, Memory, Text};
use std::alloc::Global;

/// A job's label, by which it is told: its name, and for a leg `NAME.LEG`. Memory where memory is
/// wanting.
pub fn label_of(alloc: Global, job: &PlanJob) -> Result<Text, Memory>
    ensures { IfOk result (λ text. text ≡ label job.now) }
{
    let mut text = job.name.copy(alloc)?;
    if let Some(leg) = &job.leg {
        text.push_str(".")?;
        text.push_str(leg.as_str())?;
    }
    Ok(text)
}
