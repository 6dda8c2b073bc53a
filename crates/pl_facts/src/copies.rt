//! Facts once more. What copies share isn't copied.

use crate::fact::{Event, Fact};
use pl_base::{ExactCopy, Memory};
use std::alloc::Global;

impl ExactCopy for Event {
    fn copy(&self, alloc: Global) -> Result<Event, Memory> {
        match self {
            Event::FilePut(file) => Ok(Event::FilePut(file.copy(alloc)?)),
            Event::FileRemoved(key) => Ok(Event::FileRemoved(key.copy(alloc)?)),
            Event::PipelineSet(setting) => Ok(Event::PipelineSet(setting.copy(alloc)?)),
            Event::ResourceSet(setting) => Ok(Event::ResourceSet(setting.copy(alloc)?)),
            Event::PrincipalSet(setting) => Ok(Event::PrincipalSet(setting.copy(alloc)?)),
            Event::AgentSet(setting) => Ok(Event::AgentSet(setting.copy(alloc)?)),
            Event::RunQueued(run) => Ok(Event::RunQueued(run.copy(alloc)?)),
            Event::DecisionMade {
                run,
                stage,
                approver,
                approve,
            } => {
                let approver = approver.copy(alloc)?;
                Ok(Event::DecisionMade {
                    run: *run,
                    stage: *stage,
                    approver,
                    approve: *approve,
                })
            }
            Event::StageStarted { run, stage } => Ok(Event::StageStarted {
                run: *run,
                stage: *stage,
            }),
            Event::StageEnded {
                run,
                stage,
                outcome,
                rule,
            } => {
                let rule = rule.copy(alloc)?;
                Ok(Event::StageEnded {
                    run: *run,
                    stage: *stage,
                    outcome: *outcome,
                    rule,
                })
            }
            Event::JobTaken {
                run,
                stage,
                job,
                agent,
            } => {
                let agent = agent.copy(alloc)?;
                Ok(Event::JobTaken {
                    run: *run,
                    stage: *stage,
                    job: *job,
                    agent,
                })
            }
            Event::JobEnded {
                outcome,
                reported,
                stage,
                job,
                run,
                rule,
                outputs,
            } => {
                let rule = rule.copy(alloc)?;
                let outputs = outputs.copy(alloc)?;
                Ok(Event::JobEnded {
                    outcome: *outcome,
                    reported: *reported,
                    stage: *stage,
                    job: *job,
                    run: *run,
                    rule,
                    outputs,
                })
            }
            Event::RunCanceled { run } => Ok(Event::RunCanceled { run: *run }),
        }
    }
}

impl ExactCopy for Fact {
    fn copy(&self, alloc: Global) -> Result<Fact, Memory> {
        let event = self.event.copy(alloc)?;
        Ok(Fact {
            moment: self.moment,
            event,
        })
    }
}
