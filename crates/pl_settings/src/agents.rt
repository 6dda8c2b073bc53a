//! Agents.

ghost use Rattle.std.specs.Prelude.{◌≡◌, IfOk};
ghost use Rattle.pl_settings.specs.Settings as spec;

use pl_answers::{Answer, empty_object};
use pl_base::{ExactCopy, Memory, Shared};
use pl_facts::Event;
use pl_requests::AgentSetting;
use std::alloc::Global;

/// What `PUT /agents/{name}` is answered: 200 `{}`, and the agent has this pool and these
/// capabilities from then on. Memory where memory is wanting.
pub fn set_agent(alloc: Global, told: &Shared<AgentSetting>) -> Result<Answer, Memory>
    ensures { IfOk result (λ answer. answer ≡ spec.set_agent told.now) }
{
    let event = Event::AgentSet(told.copy(alloc)?);
    Ok(Answer::with_fact(empty_object(alloc), event))
}
