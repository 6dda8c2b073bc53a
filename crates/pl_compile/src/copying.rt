use pl_base::{List, Memory, Text, Value};
use pl_budgets::{Budget, Meter};
use pl_depends::leg_count;
use pl_expr::Expr;
use pl_schema::{JobSpec, Pipeline, PoolSpec, StageSpec, Variable};

/// How many bytes are copied of a pipeline for its stages and legs. More are want of memory.
const MOST_COPIED: u64 = 16_777_216;

/// How many bytes a value takes without its characters.
const ONE: u64 = 72;

/// Memory where more is copied for the stages and legs of a pipeline than may be.
pub(crate) fn judge_copies(meter: &Meter, pipeline: &Pipeline) -> Result<(), Memory> {
    let all = stages_weight(pipeline, pipeline.stages.as_slice());
    if all > MOST_COPIED {
        return Err(meter.pass(Budget::Copied));
    }
    Ok(())
}

fn stages_weight(pipeline: &Pipeline, stages: &[StageSpec]) -> u64 {
    let root = variables_weight(&pipeline.variables).saturating_add(texts_weight(&pipeline.groups));
    let pool = pool_weight(&pipeline.pool);
    let mut all = 0u64;
    for stage in stages {
        all = all.saturating_add(root);
        let pool = pool.saturating_add(pool_weight(&stage.pool));
        all = all.saturating_add(jobs_weight(pool, stage.jobs.as_slice()));
    }
    all
}

/// What the jobs copy for their legs, each of which may take a pool from outside.
fn jobs_weight(pool: u64, jobs: &[JobSpec]) -> u64 {
    let mut all = 0u64;
    for job in jobs {
        let one = pool.saturating_add(job_weight(job));
        let legs = leg_count(&job.legs) as u64;
        all = all.saturating_add(one.saturating_mul(legs));
    }
    all
}

fn job_weight(job: &JobSpec) -> u64 {
    condition_weight(&job.condition)
        .saturating_add(variables_weight(&job.variables))
        .saturating_add(texts_weight(&job.groups))
        .saturating_add(pool_weight(&job.pool))
}

fn condition_weight(condition: &Option<Expr>) -> u64 {
    match condition {
        Some(expr) => expr_weight(expr),
        None => 0,
    }
}

fn pool_weight(pool: &Option<PoolSpec>) -> u64 {
    match pool {
        Some(pool) => texts_weight(&pool.demands),
        None => 0,
    }
}

fn texts_weight(texts: &List<Text>) -> u64 {
    let mut all = 0u64;
    for text in texts.as_slice() {
        all = all.saturating_add(ONE.saturating_add(text.len() as u64));
    }
    all
}

fn variables_weight(variables: &List<Variable>) -> u64 {
    let mut all = 0u64;
    for variable in variables.as_slice() {
        all = all.saturating_add(variable_weight(variable));
    }
    all
}

fn variable_weight(variable: &Variable) -> u64 {
    ONE.saturating_add(ONE)
        .saturating_add(variable.name.len() as u64)
        .saturating_add(variable.value.len() as u64)
        .saturating_add(condition_weight(&variable.late))
}

/// How many bytes an expression takes.
#[cycle(weighing)]
fn expr_weight(expr: &Expr) -> u64 {
    match expr {
        Expr::Lit(Value::Str(text)) => ONE.saturating_add(text.len() as u64),
        Expr::Lit(_) => ONE,
        Expr::Root(name) => ONE.saturating_add(name.len() as u64),
        Expr::Index(of, at) => ONE
            .saturating_add(expr_weight(of.get()))
            .saturating_add(expr_weight(at.get())),
        Expr::Project(of, names) => ONE
            .saturating_add(expr_weight(of.get()))
            .saturating_add(texts_weight(names)),
        Expr::Call(_, arguments) => ONE.saturating_add(exprs_weight(arguments)),
    }
}

#[cycle(weighing)]
fn exprs_weight(exprs: &List<Expr>) -> u64 {
    let mut all = 0u64;
    for expr in exprs.as_slice() {
        all = all.saturating_add(expr_weight(expr));
    }
    all
}
