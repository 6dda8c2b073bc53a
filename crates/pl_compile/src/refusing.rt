ghost use Rattle.std.specs.Prelude.{◌≡◌, ◌∷◌, [], IfOk};
ghost use Rattle.pl_compile.specs.Refusals.{detail_of, refusal_of};

use crate::codes::{evaluation_code, expression_code, text_code};
use pl_base::{List, Memory, Refusal, Text};
use pl_directives::{Complaint, ExpandProblem};
use std::alloc::Global;

/// One text.
fn one(alloc: Global, text: &str) -> Result<List<Text>, Memory>
    ensures { IfOk result (λ texts. texts ≡ text.now ∷ []) }
{
    let mut texts = List::new(alloc);
    texts.push(Text::from_str(alloc, text)?)?;
    Ok(texts)
}

/// What is told of a problem beside its code.
fn detail_of(alloc: Global, problem: &ExpandProblem) -> Result<List<Text>, Memory>
    ensures { IfOk result (λ detail. detail ≡ detail_of problem.now) }
{
    match problem {
        ExpandProblem::Expression(code) => one(alloc, expression_code(*code)),
        ExpandProblem::Evaluation(code) => one(alloc, evaluation_code(*code)),
        ExpandProblem::Parameter(problem) => one(alloc, problem.code()),
        ExpandProblem::BadFile(code) => one(alloc, text_code(*code)),
        _ => Ok(List::new(alloc)),
    }
}

/// The refusal that a complaint is told as.
pub(crate) fn refusal_of(alloc: Global, complaint: Complaint) -> Result<Refusal, Memory>
    ensures { IfOk result (λ refusal. refusal ≡ refusal_of complaint) }
{
    let Complaint { problem, place } = complaint;
    let detail = detail_of(alloc, &problem)?;
    let code = Text::from_str(alloc, problem.code())?;
    Ok(Refusal {
        code,
        place,
        detail,
    })
}
