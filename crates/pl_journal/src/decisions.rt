//! Decisions about stages.

ghost use Rattle.std.specs.Prelude.{◌≡◌, ◌++◌, IfOk, OnOk, false, not, if◌then◌else◌, flat_map};
ghost use Rattle.std.specs.Prelude.{map};
ghost use Rattle.std.specs.Option.{option_map_or};
ghost use Rattle.pl_journal.specs.Runs as spec;
ghost use Rattle.pl_journal.specs.Settings.{by};

use crate::about::Logged;
use crate::journal::Journal;
use crate::told::verdict_told;
use pl_base::{ExactCopy, List, Memory, Text};
use pl_facts::Event;
use pl_log::{Key, Test};
use std::alloc::Global;

impl Journal {
    /// The decisions about a stage: who decided, and whether it was approved. The latest decision
    /// of each counts, and the latest of these stands in front. Memory alone is an error.
    pub fn decisions(
        &self,
        alloc: Global,
        run: u64,
        stage: u32,
    ) -> Result<List<(Text, bool)>, Memory>
        ensures { IfOk result (λ told. told ≡ spec.decisions run stage self.now.facts) }
    {
        let still = StillDecided { journal: self };
        let found = self.log.all_of(alloc, Key::Stage(run, stage), &still)?;
        all_told(alloc, found.as_slice())
    }

    /// Whether somebody approved a stage, by the latest decision.
    fn verdict(&self, run: u64, stage: u32, name: &Text) -> Option<bool>
        ensures { result ≡ by spec.verdict_told
            (spec.decision run stage name.now self.now.facts) }
    {
        match self.decision(run, stage, name) {
            Some(fact) => verdict_told(&fact.event),
            None => None,
        }
    }

    /// Whether a decision is still its approver's.
    fn still_decided(&self, event: &Event) -> bool
        ensures { result ≡ spec.still_decided self.now.facts event.now }
    {
        match event {
            Event::DecisionMade {
                run,
                stage,
                approver,
                approve,
            } => is_same(self.verdict(*run, *stage, approver), *approve),
            _ => false,
        }
    }
}

/// Decisions that are still those of their approvers.
#[derive(Clone, Copy)]
struct StillDecided<'j> {
    journal: &'j Journal,
}

impl Test<Logged> for StillDecided<'_> {
    ghost passes = { λ still fact. spec.still_decided still.journal.now.facts fact.event };

    fn passes(&self, logged: &Logged) -> bool {
        self.journal.still_decided(&logged.fact.event)
    }
}

/// Whether a verdict is there, and is this one.
fn is_same(verdict: Option<bool>, approve: bool) -> bool
    ensures { result ≡
        option_map_or (λ now. if now then approve else not approve) verdict false }
{
    match verdict {
        Some(true) => approve,
        Some(false) => !approve,
        None => false,
    }
}

/// What facts tell of decisions, one after the other.
fn all_told(alloc: Global, found: &[&Logged]) -> Result<List<(Text, bool)>, Memory>
    ensures { IfOk result (λ told. told ≡
        flat_map (λ fact. spec.decided fact.event) (map (λ one. one.now) found.now)) }
{
    let mut told = List::new(alloc);
    for logged in found {
        add_decision(alloc, &mut told, &logged.fact.event)?;
    }
    Ok(told)
}

/// Puts a decision behind the others. What is left after Memory isn't told.
fn add_decision(alloc: Global, told: &mut List<(Text, bool)>, event: &Event) -> Result<(), Memory>
    ensures { OnOk result (told.new ≡ told.old ++ spec.decided event.now) }
{
    match event {
        Event::DecisionMade {
            approver,
            approve,
            ..
        } => told.push(((**approver).copy(alloc)?, *approve)),
        _ => Ok(()),
    }
}
