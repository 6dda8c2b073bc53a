use pl_base::{List, Moment, Text};
use pl_facts::Event;
use pl_locks::Contender;

/// The kinds of what is due for a stage or a job by itself, in their order.
#[derive(Clone, Copy, PartialEq, Eq, PartialOrd, Ord)]
pub enum Kind {
    /// A job that an agent has taken is out of time.
    TimesOut,
    /// A job of a running stage ends by its condition.
    JobIsPassedOver,
    /// The jobs of a running stage have all ended.
    IsDone,
    /// A waiting stage ends by its condition.
    IsPassedOver,
    /// A check of a waiting stage fails.
    Fails,
}

/// What is due first in a run: its kind, and the fact.
#[derive(Drop)]
pub struct First {
    pub kind: Kind,
    pub event: Event,
}

/// A job of a running stage that waits for an agent alone, by its stage's place and its own, with
/// the pool that its agents are of.
#[derive(Drop)]
pub struct ReadyJob {
    pub pool: Text,
    pub stage: u32,
    pub job: u32,
}

/// A job of a running stage that an agent holds.
#[derive(Drop)]
pub struct TakenJob {
    pub agent: Text,
    pub stage: u32,
    pub job: u32,
}

/// What is found in a run at a moment: what is due first in it, which of its stages may start as far
/// as no other stands in their way (told only where nothing is due in it), which run, which of its
/// jobs wait for an agent and which an agent holds; and the moment at which that may change by the
/// clock alone, or None where it can't.
#[derive(Drop)]
pub struct Look {
    pub first: Option<First>,
    pub eligible: List<Contender>,
    pub holders: List<Contender>,
    pub ready: List<ReadyJob>,
    pub taken: List<TakenJob>,
    pub wakes: Option<Moment>,
}
