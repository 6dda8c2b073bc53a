use pl_base::{Argument, Behaviour, Bytes, FileKey, List, MarkedNode, ResourceKey, Shared, Text};
use pl_expr::Expr;
use pl_schema::{RepoRef, Variable};
use pl_uses::Demand;

/// What a run does: its stages in the written order.
#[derive(Drop)]
pub struct Plan {
    pub root: FileKey,
    /// The template that the root file extends.
    pub extends: Option<FileKey>,
    /// The refs that the run is linked to: the root file's, then those of the repositories.
    pub linked: List<RepoRef>,
    pub stages: List<PlanStage>,
}

/// A stage. What it waits for are places in the plan's list.
#[derive(Drop)]
pub struct PlanStage {
    pub name: Text,
    pub depends: List<u32>,
    pub condition: Option<Expr>,
    /// The root's, then its own.
    pub variables: List<Variable>,
    /// The root's, then its own.
    pub groups: List<Text>,
    /// Each once, by kind, then by name.
    pub uses: List<ResourceKey>,
    pub behaviour: Behaviour,
    pub jobs: List<PlanJob>,
}

/// A job, or a leg of one. What it waits for are places in its stage's list. Legs of one job share
/// what they have in common, which is about cost alone.
#[derive(Drop)]
pub struct PlanJob {
    pub name: Text,
    /// The leg's name, where the job was cut into legs.
    pub leg: Option<Text>,
    pub deployment: bool,
    pub depends: Shared<List<u32>>,
    pub condition: Option<Expr>,
    /// The job's, then the leg's.
    pub variables: List<Variable>,
    pub groups: List<Text>,
    pub pool: Text,
    pub demands: List<Demand>,
    /// How many legs of the job may run at once.
    pub max_parallel: u32,
    /// In minutes; 0 is without an end.
    pub timeout: u32,
    /// Whether a failure of the job leaves its stage a success.
    pub go_on: bool,
    pub steps: Shared<List<PlanStep>>,
}

/// A step: the key that it begins with, and its mapping.
#[derive(Drop)]
pub struct PlanStep {
    pub form: Text,
    pub body: MarkedNode,
}

/// What a plan was compiled from: the root file's key, the arguments, and the files that were used.
#[derive(Drop)]
pub struct Sources {
    pub root: FileKey,
    pub arguments: List<Argument>,
    pub files: List<(FileKey, Bytes)>,
}

/// A plan with what it was compiled from.
#[derive(Drop)]
pub struct Compiled {
    pub plan: Plan,
    pub sources: Sources,
}
