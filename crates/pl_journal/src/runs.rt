//! Look-ups of runs, stages and jobs.

ghost use Rattle.std.specs.Prelude.{◌≡◌};
ghost use Rattle.std.specs.Option.{option_copied};
ghost use Rattle.pl_journal.specs.Runs as spec;
ghost use Rattle.pl_journal.specs.Settings.{by};

use crate::about::Logged;
use crate::journal::Journal;
use crate::kinds::What;
use crate::looking::fact_of;
use crate::told::{outputs_told, run_told};
use pl_base::{List, Moment, Shared, Text};
use pl_facts::{Event, Fact, QueuedRun};
use pl_log::{Key, SecondKey, Test};

impl Journal {
    /// The fact that a run was queued, or None where it wasn't. It takes no memory, as no look-up
    /// does.
    pub fn queueing(&self, run: u64) -> Option<&Fact>
        ensures { option_copied result ≡ spec.queueing run self.now.facts }
    {
        self.latest_of(Key::Run(run), What::Queueing)
    }

    /// A run, with its plan.
    pub fn run(&self, run: u64) -> Option<&QueuedRun>
        ensures { option_copied result ≡ by spec.run_told (spec.queueing run self.now.facts) }
    {
        match self.queueing(run) {
            Some(fact) => run_told(&fact.event),
            None => None,
        }
    }

    /// The fact that a run was canceled, or None where it wasn't.
    pub fn canceling(&self, run: u64) -> Option<&Fact>
        ensures { option_copied result ≡ spec.canceling run self.now.facts }
    {
        self.latest_of(Key::Run(run), What::Canceling)
    }

    /// The fact that a stage was started, or None where it wasn't.
    pub fn stage_start(&self, run: u64, stage: u32) -> Option<&Fact>
        ensures { option_copied result ≡ spec.stage_start run stage self.now.facts }
    {
        self.latest_of(Key::Stage(run, stage), What::Start)
    }

    /// The fact that a stage ended, or None where it hasn't.
    pub fn stage_end(&self, run: u64, stage: u32) -> Option<&Fact>
        ensures { option_copied result ≡ spec.stage_end run stage self.now.facts }
    {
        self.latest_of(Key::Stage(run, stage), What::StageEnd)
    }

    /// What somebody decided about a stage, or None where nothing was decided.
    pub fn decision(&self, run: u64, stage: u32, name: &Text) -> Option<&Fact>
        ensures { option_copied result ≡ spec.decision run stage name.now self.now.facts }
    {
        self.latest_of(Key::Stage(run, stage), What::DecisionBy(name))
    }

    /// The fact that an agent took a job, or None where none did. It stays after the job's end.
    pub fn taking(&self, run: u64, stage: u32, job: u32) -> Option<&Fact>
        ensures { option_copied result ≡ spec.taking run stage job self.now.facts }
    {
        self.latest_of(Key::Job(run, stage, job), What::Taking)
    }

    /// The fact that a job itself ended, or None where it hasn't.
    pub fn job_end(&self, run: u64, stage: u32, job: u32) -> Option<&Fact>
        ensures { option_copied result ≡ spec.job_end run stage job self.now.facts }
    {
        self.latest_of(Key::Job(run, stage, job), What::JobEnd)
    }

    /// The end of a stage that ended without a start, or None where it didn't.
    fn skipping(&self, run: u64, stage: u32) -> Option<&Fact>
        ensures { option_copied result ≡ spec.skipping run stage self.now.facts }
    {
        match self.stage_start(run, stage) {
            Some(_) => None,
            None => self.stage_end(run, stage),
        }
    }

    /// What ended a job: its own end, or that of its stage where the stage ended without a start.
    /// None where the job hasn't ended.
    pub fn job_ending(&self, run: u64, stage: u32, job: u32) -> Option<&Fact>
        ensures { option_copied result ≡ spec.job_ending run stage job self.now.facts }
    {
        match self.job_end(run, stage, job) {
            Some(fact) => Some(fact),
            None => self.skipping(run, stage),
        }
    }

    /// The taking by which an agent holds a job: None before it and after the job's end.
    pub fn holding(&self, run: u64, stage: u32, job: u32) -> Option<&Fact>
        ensures { option_copied result ≡ spec.holding run stage job self.now.facts }
    {
        match self.job_ending(run, stage, job) {
            Some(_) => None,
            None => self.taking(run, stage, job),
        }
    }

    /// The taking by which an agent holds a job, or None where it holds none. It looks at those of
    /// the moment at which the agent took a job last, and at one more: an agent takes a job only
    /// where it holds none, so what it took before has ended.
    pub fn held_by(&self, agent: &Text) -> Option<&Fact>
        ensures { option_copied result ≡ spec.held_by agent.now self.now.facts }
    {
        match self.latest_also(SecondKey::Taker(agent)) {
            Some(last) => self.held_since(agent, last.moment),
            None => None,
        }
    }

    /// The same, where the agent took a job last at this moment.
    fn held_since(&self, agent: &Text, last: Moment) -> Option<&Fact>
        ensures { option_copied result ≡ spec.held_at agent.now self.now.facts last }
    {
        let decides = Decides {
            journal: self,
            last,
        };
        let found = self.log.latest_second_of(SecondKey::Taker(agent), &decides);
        match fact_of(found) {
            Some(fact) if self.still_runs(&fact.event) => Some(fact),
            _ => None,
        }
    }

    /// Whether the job that a taking tells hasn't ended.
    fn still_runs(&self, event: &Event) -> bool
        ensures { result ≡ spec.still_runs self.now.facts event.now }
    {
        match event {
            Event::JobTaken {
                run,
                stage,
                job,
                ..
            } => self.job_ending(*run, *stage, *job).is_none(),
            _ => false,
        }
    }

    /// The outputs of a job that ended by its own end, each by its key: those of a leg are its own.
    /// None where the job hasn't ended, or ended with its stage, which was never started.
    pub fn outputs(&self, run: u64, stage: u32, job: u32) -> Option<&Shared<List<(Text, Text)>>>
        ensures { option_copied result ≡ spec.outputs run stage job self.now.facts }
    {
        let ending = self.job_ending(run, stage, job);
        match ending {
            Some(fact) => outputs_told(&fact.event),
            None => None,
        }
    }
}

/// Takings whose job still runs, or that are older than a moment.
#[derive(Clone, Copy)]
struct Decides<'j> {
    journal: &'j Journal,
    last: Moment,
}

impl Test<Logged> for Decides<'_> {
    ghost passes = { λ decides fact.
        spec.decides decides.journal.now.facts decides.last fact };

    fn passes(&self, logged: &Logged) -> bool {
        self.journal.still_runs(&logged.fact.event) || logged.fact.moment < self.last
    }
}
