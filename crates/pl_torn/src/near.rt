//! Where rows are looked for first. No clause speaks of it: where a row isn't found so, it is
//! searched for.

use crate::seen::Seen;
use pl_keeper::Record;

/// The tables of runs, of their stages and of their jobs.
const RUNS: u8 = 6;

const STAGES: u8 = 7;

const JOBS: u8 = 8;

/// Numbers of rows: that of a run, that of its first stage, and that of a stage's first job.
#[derive(Clone, Copy)]
pub(crate) struct Near {
    pub(crate) run: usize,
    stages: usize,
    jobs: usize,
}

impl Near {
    /// Those of the first row.
    pub(crate) fn first() -> Near {
        Near {
            run: 0,
            stages: 0,
            jobs: 0,
        }
    }

    /// That of a stage of the run.
    pub(crate) fn stage_at(self, stage: u32) -> usize {
        self.stages.saturating_add(stage as usize)
    }

    /// That of a job of the stage.
    pub(crate) fn job_at(self, job: u32) -> usize {
        self.jobs.saturating_add(job as usize)
    }

    /// The same with the stage behind, where the stage has so many jobs.
    pub(crate) fn behind_jobs(self, jobs: usize) -> Near {
        Near {
            run: self.run,
            stages: self.stages,
            jobs: self.jobs.saturating_add(jobs),
        }
    }

    /// Those of what the row of a number names, found from those of the row in front in few steps.
    pub(crate) fn moved(self, all: &[Seen<'_>], at: usize, one: &Seen<'_>) -> Near {
        match &one.kept {
            Some(Record::Run(told)) => Near {
                run: at,
                stages: first_from(all, self.stages, STAGES, told.run),
                jobs: first_from(all, self.jobs, JOBS, told.run),
            },
            Some(Record::Stage(told)) => Near {
                run: first_from(all, self.run, RUNS, told.run),
                stages: at.saturating_sub(told.position as usize),
                jobs: self.jobs,
            },
            Some(Record::Job(told)) => Near {
                run: first_from(all, self.run, RUNS, told.run),
                stages: first_from(all, self.stages, STAGES, told.run),
                jobs: at.saturating_sub(told.position as usize),
            },
            Some(Record::Decision(told)) => Near {
                run: first_from(all, self.run, RUNS, told.run),
                stages: self.stages,
                jobs: self.jobs,
            },
            _ => self,
        }
    }
}

/// The number of a run that a row names, or 0.
fn run_in(one: &Seen<'_>) -> u64 {
    match &one.kept {
        Some(Record::Run(told)) => told.run,
        Some(Record::Stage(told)) => told.run,
        Some(Record::Job(told)) => told.run,
        Some(Record::Decision(told)) => told.run,
        _ => 0,
    }
}

/// Whether a row comes before those of a run in a table.
fn is_in_front(one: &Seen<'_>, table: u8, run: u64) -> bool {
    one.row.table < table || (one.row.table == table && run_in(one) < run)
}

/// Whether a row is one of a run in a table.
fn is_of(one: &Seen<'_>, table: u8, run: u64) -> bool {
    one.row.table == table && run_in(one) == run
}

/// The first row, from one on, that doesn't come before those of a run in a table.
fn first_behind(all: &[Seen<'_>], from: usize, table: u8, run: u64) -> usize {
    for at in from..all.len() {
        if !is_in_front(&all[at], table, run) {
            return at;
        }
    }
    all.len()
}

/// The first row of a run in a table. It is sought from a row on, if that one is of the run or in
/// front, and else among all rows.
fn first_from(all: &[Seen<'_>], from: usize, table: u8, run: u64) -> usize {
    match all.get(from) {
        Some(one) if is_of(one, table, run) => from,
        Some(one) if is_in_front(one, table, run) => first_behind(all, from, table, run),
        _ => all.partition_point(|one| is_in_front(one, table, run)),
    }
}
