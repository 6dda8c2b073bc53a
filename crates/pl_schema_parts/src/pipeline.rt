use pl_base::{Behaviour, FileKey, List, MarkedNode, Place, RepoRef, Repository, Text};
use pl_expr::Expr;

/// A pipeline as it is written, before its stages and jobs are put in order.
#[derive(Debug, Drop)]
pub struct Pipeline {
    pub root: FileKey,
    /// The template that the root file extends.
    pub extends: Option<FileKey>,
    /// The refs that the run is linked to: the root file's, then those of the repositories.
    pub linked: List<RepoRef>,
    pub repositories: List<Repository>,
    pub behaviour: Option<Behaviour>,
    pub pool: Option<PoolSpec>,
    pub variables: List<Variable>,
    pub groups: List<Text>,
    pub stages: List<StageSpec>,
}

/// A stage. Its place is that of its mapping.
#[derive(Debug, Drop)]
pub struct StageSpec {
    pub name: Text,
    pub place: Place,
    /// What it waits for; None where that isn't written.
    pub depends: Option<List<DependSpec>>,
    pub condition: Option<Expr>,
    pub variables: List<Variable>,
    pub groups: List<Text>,
    pub pool: Option<PoolSpec>,
    pub behaviour: Option<Behaviour>,
    pub jobs: List<JobSpec>,
}

/// A job or a deployment. Its place is that of its mapping.
#[derive(Debug, Drop)]
pub struct JobSpec {
    pub name: Text,
    pub place: Place,
    pub deployment: bool,
    /// What it waits for; None where that isn't written.
    pub depends: Option<List<DependSpec>>,
    pub condition: Option<Expr>,
    pub variables: List<Variable>,
    pub groups: List<Text>,
    pub pool: Option<PoolSpec>,
    /// The environment to which a deployment goes.
    pub environment: Option<Text>,
    pub legs: LegSpec,
    pub max_parallel: Option<u32>,
    /// In minutes.
    pub timeout: Option<u32>,
    /// Whether a failure of the job leaves its stage a success.
    pub go_on: bool,
    pub steps: List<StepSpec>,
}

/// The name of a stage or job that is waited for, and where it is written.
#[derive(Debug, Drop, PartialEq, Eq)]
pub struct DependSpec {
    pub name: Text,
    pub place: Place,
}

/// Into how many legs a job is cut.
#[derive(Debug, Drop)]
pub enum LegSpec {
    One,
    Parallel(u32),
    /// One for each leg of the matrix, which is kept as it is written.
    Matrix(MarkedNode),
}

/// Where a job runs, as it is written.
#[derive(Debug, Drop, PartialEq, Eq)]
pub struct PoolSpec {
    pub name: Option<Text>,
    pub demands: List<Text>,
    pub vm_image: Option<Text>,
}

/// A step: the key that it begins with, where its mapping is, and the mapping.
#[derive(Debug, Drop)]
pub struct StepSpec {
    pub form: Text,
    pub place: Place,
    pub body: MarkedNode,
}

/// A variable. `late` is the expression of a value that is one as a whole, `$[ ]`.
#[derive(Debug, Drop)]
pub struct Variable {
    pub name: Text,
    pub value: Text,
    pub late: Option<Expr>,
}
