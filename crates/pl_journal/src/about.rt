//! What facts are about.

ghost use Rattle.pl_journal.specs.About.{key_of, second_of};

use pl_facts::{Event, Fact};
use pl_log::{Key, Keyed, SecondKey};
use std::marker::Model;

/// A fact as the log keeps it.
#[derive(Drop)]
pub(crate) struct Logged {
    pub(crate) fact: Fact,
}

impl Model for Logged {
    ghost use Rattle.pl_facts.specs.contracts.fact.Fact as a_fact;
    ghost use Rattle.pl_facts.specs.declared.fact.Fact.{Fact as told};

    ghost Value = { told };

    ghost coded = { a_fact.the_row.coded };

    ghost view = { λ logged. logged.fact };
}

impl Keyed for Logged {
    ghost named = { λ fact. key_of fact.event };

    ghost second = { λ fact. second_of fact.event };

    fn key(&self) -> Key<'_> {
        match &self.fact.event {
            Event::FilePut(file) => Key::File(&file.key),
            Event::FileRemoved(key) => Key::File(key),
            Event::PipelineSet(setting) => Key::Pipeline(&setting.name),
            Event::ResourceSet(setting) => Key::Resource(&setting.key),
            Event::PrincipalSet(setting) => Key::Principal(&setting.name),
            Event::AgentSet(setting) => Key::Agent(&setting.name),
            Event::RunQueued(queued) => Key::Run(queued.run),
            Event::DecisionMade { run, stage, .. } => Key::Stage(*run, *stage),
            Event::StageStarted { run, stage } => Key::Stage(*run, *stage),
            Event::StageEnded { run, stage, .. } => Key::Stage(*run, *stage),
            Event::JobTaken {
                run,
                stage,
                job,
                ..
            } => Key::Job(*run, *stage, *job),
            Event::JobEnded {
                run,
                stage,
                job,
                ..
            } => Key::Job(*run, *stage, *job),
            Event::RunCanceled { run } => Key::Run(*run),
        }
    }

    fn second_key(&self) -> Option<SecondKey<'_>> {
        match &self.fact.event {
            Event::PrincipalSet(setting) => Some(SecondKey::Token(&setting.digest)),
            Event::JobTaken { agent, .. } => Some(SecondKey::Taker(agent)),
            Event::RunQueued(_) => Some(SecondKey::Queue),
            _ => None,
        }
    }
}
