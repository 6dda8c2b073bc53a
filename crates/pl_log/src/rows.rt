ghost use Rattle.std.specs.Prelude.{◌≡◌, true, cond, OnOk};
ghost use Rattle.pl_log.specs.Keys.{Named, same_key, seen};
ghost use Rattle.pl_log.specs.Rows.{has_row_at, number_at};

use crate::hashed::Hashed;
use crate::key::Key;
use crate::table::{Table, make_copied};
use pl_base::{FileKey, Memory, ResourceKey, Text};
use std::alloc::Global;

/// A number for each key: that of the latest item about it, counted from 1, or 0.
#[derive(Drop)]
pub(crate) struct Rows {
    files: Table<FileKey>,
    pipelines: Table<Text>,
    resources: Table<ResourceKey>,
    principals: Table<Text>,
    agents: Table<Text>,
    runs: Hashed<u64>,
    stages: Hashed<(u64, u32)>,
    jobs: Hashed<(u64, u32, u32)>,
}

impl Rows {
    /// All keys have 0. It takes no memory.
    pub(crate) fn new(alloc: Global) -> Rows
        ensures { (key : Named) → number_at result key ≡ 0 }
    {
        Rows {
            files: Table::new(alloc),
            pipelines: Table::new(alloc),
            resources: Table::new(alloc),
            principals: Table::new(alloc),
            agents: Table::new(alloc),
            runs: Hashed::new(alloc),
            stages: Hashed::new(alloc),
            jobs: Hashed::new(alloc),
        }
    }

    /// The number of a key.
    pub(crate) fn number(&self, key: Key<'_>) -> u32
        ensures { result ≡ number_at self.now (seen key.entry) }
    {
        match key {
            Key::File(key) => self.files.number(key),
            Key::Pipeline(name) => self.pipelines.number(name),
            Key::Resource(key) => self.resources.number(key),
            Key::Principal(name) => self.principals.number(name),
            Key::Agent(name) => self.agents.number(name),
            Key::Run(run) => self.runs.number(&run),
            Key::Stage(run, stage) => self.stages.number(&(run, stage)),
            Key::Job(run, stage, job) => self.jobs.number(&(run, stage, job)),
        }
    }

    /// Makes a row for a key that has none. All numbers stay as they are, also after Memory.
    pub(crate) fn make_row(&mut self, alloc: Global, key: Key<'_>) -> Result<(), Memory>
        ensures same { (other : Named) → number_at self.new other ≡ number_at self.old other }
        ensures ok { OnOk result (has_row_at self.new (seen key.entry) ≡ true) }
    {
        match key {
            Key::File(key) => make_copied(alloc, &mut self.files, key),
            Key::Pipeline(name) => make_copied(alloc, &mut self.pipelines, name),
            Key::Resource(key) => make_copied(alloc, &mut self.resources, key),
            Key::Principal(name) => make_copied(alloc, &mut self.principals, name),
            Key::Agent(name) => make_copied(alloc, &mut self.agents, name),
            Key::Run(run) => self.runs.make_row(run),
            Key::Stage(run, stage) => self.stages.make_row((run, stage)),
            Key::Job(run, stage, job) => self.jobs.make_row((run, stage, job)),
        }
    }

    /// Changes the number of a key that has a row. It takes no memory.
    pub(crate) fn set(&mut self, key: Key<'_>, number: u32)
        requires { has_row_at self.old (seen key) ≡ true }
        ensures { (other : Named) → number_at self.new other ≡
            cond (same_key (seen key.entry) other) number (number_at self.old other) }
    {
        match key {
            Key::File(key) => self.files.set(key, number),
            Key::Pipeline(name) => self.pipelines.set(name, number),
            Key::Resource(key) => self.resources.set(key, number),
            Key::Principal(name) => self.principals.set(name, number),
            Key::Agent(name) => self.agents.set(name, number),
            Key::Run(run) => self.runs.set(&run, number),
            Key::Stage(run, stage) => self.stages.set(&(run, stage), number),
            Key::Job(run, stage, job) => self.jobs.set(&(run, stage, job), number),
        }
    }
}
