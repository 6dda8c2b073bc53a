use pl_base::{FileKey, ResourceKey, Text};

/// The place of a row that is kept of what has happened: its table, and the fields of its key.
#[derive(Clone, Copy)]
pub enum Spot<'s> {
    File(&'s FileKey),
    /// A pipeline, by its name.
    Pipeline(&'s Text),
    Resource(&'s ResourceKey),
    /// A principal, by its name.
    Principal(&'s Text),
    /// An agent, by its name.
    Agent(&'s Text),
    /// A run, by its number.
    Run(u64),
    /// A stage: its run, and its place in the plan.
    Stage(u64, u32),
    /// A job: its run, its stage's place, and its own.
    Job(u64, u32, u32),
    /// A decision: its run, its stage's place, and who decided.
    Decision(u64, u32, &'s Text),
}
