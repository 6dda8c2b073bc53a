ghost use Rattle.std.specs.Prelude.{◌≡◌, IfOk};
ghost use Rattle.pl_checks.specs.Templates.{IsStepsVerdict, IsTemplateVerdict};

use crate::check::{Arguments, RequiredTemplate};
use crate::provenance::first_unwritten;
use crate::view::{CheckView, StepMark, Verdict};
use pl_base::{ExactCopy, FileKey, Memory};
use pl_rules::Rule;
use std::alloc::Global;

/// What a required template says of a stage.
pub(crate) fn template_verdict(
    alloc: Global,
    check: &RequiredTemplate,
    view: &CheckView,
) -> Result<Verdict, Memory>
    ensures { IfOk result (λ verdict. IsTemplateVerdict check.now view.now verdict) }
{
    let Some(file) = &view.extends else {
        return Ok(Verdict::Fail(Rule::TemplateRequired));
    };
    if !check.templates.as_slice().contains(file) {
        return Ok(Verdict::Fail(Rule::TemplateRequired));
    }
    match check.arguments {
        Arguments::Any => Ok(Verdict::Pass),
        Arguments::Values => steps_verdict(alloc, file, view.steps.as_slice()),
    }
}

/// What is said of the steps of a stage where arguments bring values alone.
fn steps_verdict(alloc: Global, file: &FileKey, steps: &[StepMark]) -> Result<Verdict, Memory>
    ensures { IfOk result (λ verdict. IsStepsVerdict file.now steps.now verdict) }
{
    match first_unwritten(alloc, file, steps)? {
        Some(place) => Ok(Verdict::Fail(argument_rule(alloc, &steps[place])?)),
        None => Ok(Verdict::Pass),
    }
}

/// The rule that tells a step.
fn argument_rule(alloc: Global, step: &StepMark) -> Result<Rule, Memory>
    ensures { IfOk result (λ rule. rule ≡ Rule.TemplateArgument step.now.job step.now.number) }
{
    let job = step.job.copy(alloc)?;
    Ok(Rule::TemplateArgument {
        job,
        step: step.number,
    })
}
