ghost use Rattle.std.specs.Prelude.{◌≡◌};
ghost use Rattle.pl_directives.specs.Codes.{code_of};

use pl_base::Place;
use pl_eval::EvalCode;
use pl_expr::ExprCode;
use pl_line::YamlCode;
use pl_params::{ParamProblem, Placed};
use thiserror::Error;

/// What is wrong with a template.
#[derive(Debug, Drop, Error, PartialEq, Eq)]
pub enum ExpandProblem {
    /// X1: a file isn't there.
    #[error("there is no such file")]
    FileMissing,
    /// X2: more than 100 templates.
    #[error("more than 100 templates are used")]
    TooManyFiles,
    /// X3: templates more than 100 levels deep.
    #[error("templates are called more than 100 levels deep")]
    NestedTooDeep,
    /// X4: more than 100,000 nodes.
    #[error("the pipeline expands to more than 100000 nodes")]
    TooManyNodes,
    /// X5: a directive out of its form, or an expression without its end.
    #[error("a directive or an expression isn't written as it must be")]
    BadDirective,
    /// X6: `elseif` or `else` without an `if` before it.
    #[error("elseif and else must directly follow an if or an elseif")]
    ElseAlone,
    /// X7: a loop over what is neither a list nor an object.
    #[error("each goes over a list or an object, and this is neither")]
    EachOverScalar,
    /// X8: `insert` of what is no mapping.
    #[error("insert takes a mapping, and this is none")]
    InsertNoMapping,
    /// X9: a value or a key of another kind than what can stand here.
    #[error("this can't stand here")]
    WrongKind,
    /// X10: `extends` in a template.
    #[error("a template can't extend another one")]
    ExtendsInTemplate,
    /// X11: a path's repository isn't among the root file's resources.
    #[error("no repository of the pipeline's resources has this alias")]
    UnknownAlias,
    /// X12: a text that is no expression.
    #[error("this is no expression: {0}")]
    Expression(ExprCode),
    /// X13: an expression without a value.
    #[error("this expression has no value: {told}", told = told(*.0))]
    Evaluation(EvalCode),
    /// X14: a parameter that is declared or given wrongly.
    #[error("{0}")]
    Parameter(ParamProblem),
    /// X15: a key that stands twice in a mapping.
    #[error("this key stands twice in its mapping")]
    KeyTwice,
    /// X16: a text that isn't in the profile of YAML that is read.
    #[error("this isn't read as YAML: {0}")]
    BadFile(YamlCode),
}

/// Why an expression has no value, for people.
fn told(code: EvalCode) -> &'static str {
    match code {
        EvalCode::NotConvertible => "its values have no order",
        EvalCode::FormatIndex => "a brace of format doesn't belong",
        EvalCode::NoLength => "length takes a text or a list",
        EvalCode::TextTooLong => "a text of more than 65536 bytes",
        EvalCode::UnknownRoot => "an unknown name",
    }
}

/// What is wrong, and where.
#[derive(Debug, Drop, Error, PartialEq, Eq)]
#[error("{problem}")]
pub struct Complaint {
    pub problem: ExpandProblem,
    pub place: Place,
}

impl Placed for Complaint {
    ghost place = { λ complaint. complaint.place };

    fn stands_at(&self) -> &Place {
        &self.place
    }
}

/// Why a pipeline isn't expanded.
#[derive(Debug, Drop, Error, PartialEq, Eq)]
pub enum ExpandFault {
    #[error("{0}")]
    Refused(Complaint),
    /// Memory was wanting.
    #[error("out of memory")]
    Memory,
}

impl From<pl_base::Memory> for ExpandFault {
    ghost use Rattle.std.specs.Prelude.{◌≡◌};
    ghost use Rattle.pl_directives.specs.declared.fault.ExpandFault.TheVariants.{Memory};

    ghost from_gives = { λ _ fault. fault ≡ Memory };

    fn from(_refused: pl_base::Memory) -> ExpandFault {
        ExpandFault::Memory
    }
}

impl ExpandProblem {
    /// The problem's code, `X1` to `X16`.
    pub fn code(&self) -> &'static str
        ensures { result.now ≡ code_of self.now }
    {
        match self {
            ExpandProblem::FileMissing => "X1",
            ExpandProblem::TooManyFiles => "X2",
            ExpandProblem::NestedTooDeep => "X3",
            ExpandProblem::TooManyNodes => "X4",
            ExpandProblem::BadDirective => "X5",
            ExpandProblem::ElseAlone => "X6",
            ExpandProblem::EachOverScalar => "X7",
            ExpandProblem::InsertNoMapping => "X8",
            ExpandProblem::WrongKind => "X9",
            ExpandProblem::ExtendsInTemplate => "X10",
            ExpandProblem::UnknownAlias => "X11",
            ExpandProblem::Expression(_) => "X12",
            ExpandProblem::Evaluation(_) => "X13",
            ExpandProblem::Parameter(_) => "X14",
            ExpandProblem::KeyTwice => "X15",
            ExpandProblem::BadFile(_) => "X16",
        }
    }
}
