use pl_base::{Digest, FileKey, ResourceKey, Text};

/// What an item is about.
#[derive(Clone, Copy)]
pub enum Key<'k> {
    File(&'k FileKey),
    /// A pipeline, by its name.
    Pipeline(&'k Text),
    Resource(&'k ResourceKey),
    /// A principal, by its name.
    Principal(&'k Text),
    /// An agent, by its name.
    Agent(&'k Text),
    /// A run, by its number.
    Run(u64),
    /// A stage: its run, and its place.
    Stage(u64, u32),
    /// A job: its run, its stage's place, and its own.
    Job(u64, u32, u32),
}

/// What an item is about besides.
#[derive(Clone, Copy)]
pub enum SecondKey<'k> {
    /// Whoever has this token.
    Token(&'k Digest),
    /// The agent of this name that takes jobs.
    Taker(&'k Text),
    /// The queue of runs.
    Queue,
}
