ghost use Rattle.std.specs.Prelude.{◌≡◌, IfOk};
ghost use Rattle.pl_answers.specs.Answers.{refused, with_fact, without_fact};

use crate::replies::json_reply;
use pl_base::Memory;
use pl_facts::Event;
use pl_refusals::rule_object;
use pl_requests::{Reply, Rule};
use std::alloc::Global;

/// What a request is answered, and what happens by it: one thing, or nothing.
#[derive(Drop)]
pub struct Answer {
    pub reply: Reply,
    pub event: Option<Event>,
}

impl Answer {
    /// This reply, and this happens.
    pub fn with_fact(reply: Reply, event: Event) -> Answer
        ensures { result ≡ with_fact reply event }
    {
        Answer {
            reply,
            event: Some(event),
        }
    }

    /// This reply, and nothing happens: the request asks, or what it wants is so already.
    pub fn without_fact(reply: Reply) -> Answer
        ensures { result ≡ without_fact reply }
    {
        Answer { reply, event: None }
    }

    /// The request breaks this rule, whose object is the reply's body, and nothing happens. Memory
    /// where memory is wanting.
    pub fn refusal(alloc: Global, status: u16, rule: &Rule) -> Result<Answer, Memory>
        ensures { IfOk result (λ answer. answer ≡ refused status rule.now) }
    {
        let told = rule_object(alloc, rule)?;
        Ok(Answer::without_fact(json_reply(status, told)))
    }
}
