use std::fmt;

/// The types of parameters (Microsoft Learn, Azure Pipelines, "YAML schema reference",
/// parameters.parameter).
#[derive(Clone, Copy, Debug, PartialEq, Eq)]
pub enum ParamKind {
    String,
    Number,
    Boolean,
    Object,
    Step,
    StepList,
    Job,
    JobList,
    Deployment,
    DeploymentList,
    Stage,
    StageList,
}

impl fmt::Display for ParamKind {
    fn fmt<W: fmt::Write>(&self, f: &mut fmt::Formatter<W>) -> fmt::Result {
        f.write_str(match self {
            ParamKind::String => "a string",
            ParamKind::Number => "a number",
            ParamKind::Boolean => "a boolean",
            ParamKind::Object => "an object",
            ParamKind::Step => "a step",
            ParamKind::StepList => "a list of steps",
            ParamKind::Job => "a job",
            ParamKind::JobList => "a list of jobs",
            ParamKind::Deployment => "a deployment job",
            ParamKind::DeploymentList => "a list of deployment jobs",
            ParamKind::Stage => "a stage",
            ParamKind::StageList => "a list of stages",
        })
    }
}

ghost use Rattle.std.specs.Prelude.{◌≡◌};
ghost use Rattle.pl_params.specs.Kinds.{kind_named};

impl ParamKind {
    /// The type of that name, which is exact: `string`, `number`, `boolean`, `object`, `step`,
    /// `stepList`, `job`, `jobList`, `deployment`, `deploymentList`, `stage` and `stageList`. None
    /// for every other name.
    pub fn named(name: &str) -> Option<ParamKind>
        ensures { result ≡ kind_named name.now }
    {
        match name {
            "string" => Some(ParamKind::String),
            "number" => Some(ParamKind::Number),
            "boolean" => Some(ParamKind::Boolean),
            "object" => Some(ParamKind::Object),
            "step" => Some(ParamKind::Step),
            "stepList" => Some(ParamKind::StepList),
            "job" => Some(ParamKind::Job),
            "jobList" => Some(ParamKind::JobList),
            "deployment" => Some(ParamKind::Deployment),
            "deploymentList" => Some(ParamKind::DeploymentList),
            "stage" => Some(ParamKind::Stage),
            "stageList" => Some(ParamKind::StageList),
            _ => None,
        }
    }
}
