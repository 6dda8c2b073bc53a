//! Pipelines.

ghost use Rattle.std.specs.Prelude.{◌≡◌, IfOk};
ghost use Rattle.pl_settings.specs.Settings as spec;

use pl_answers::{Answer, empty_object};
use pl_base::{ExactCopy, Memory, Shared};
use pl_facts::Event;
use pl_requests::{PipelineSetting, Rule};
use std::alloc::Global;

/// What `PUT /pipelines/{name}` is answered: 200 `{}`, and the pipeline is compiled from this file
/// from then on. 409 `pipeline.reserved` for `text`, the pipeline of queued texts, which has no
/// file. Memory where memory is wanting.
pub fn set_pipeline(alloc: Global, told: &Shared<PipelineSetting>) -> Result<Answer, Memory>
    ensures { IfOk result (λ answer. answer ≡ spec.set_pipeline told.now) }
{
    if told.name.as_str() == "text" {
        return Answer::refusal(alloc, 409, &Rule::PipelineReserved);
    }
    let event = Event::PipelineSet(told.copy(alloc)?);
    Ok(Answer::with_fact(empty_object(alloc), event))
}
