ghost use Rattle.std.specs.Prelude.{◌↔◌, Any, All, IfOk, IsTrue, MatchOption};
ghost use Rattle.pl_checks.specs.Branches.{IsAllowed, IsBranchVerdict};
ghost use Rattle.pl_base.specs.Firsts.{IsFirstAt};
ghost use Rattle.pl_checks.specs.Patterns.{Matches};

use crate::check::BranchControl;
use crate::patterns::matches;
use crate::view::{CheckView, Verdict};
use pl_base::{ExactCopy, Memory, Text};
use pl_rules::{RepoRef, Rule};
use std::alloc::Global;

/// What branch control says of a stage.
pub(crate) fn branch_verdict(
    alloc: Global,
    check: &BranchControl,
    view: &CheckView,
) -> Result<Verdict, Memory>
    ensures { IfOk result (λ verdict. IsBranchVerdict check.now view.now verdict) }
{
    let linked = view.linked.as_slice();
    match first_refused(check, linked) {
        Some(place) => {
            let git_ref = linked[place].git_ref.copy(alloc)?;
            Ok(Verdict::Fail(Rule::BranchRefused { git_ref }))
        }
        None => Ok(Verdict::Pass),
    }
}

/// The place of the first linked ref that no pattern matches.
fn first_refused(check: &BranchControl, linked: &[RepoRef]) -> Option<usize>
    ensures { MatchOption result (All (IsAllowed check.now) linked.now)
        (IsFirstAt (λ l. ¬ IsAllowed check.now l) linked.now) }
{
    for (place, linked) in linked.iter().enumerate() {
        if !is_allowed(check, linked) {
            return Some(place);
        }
    }
    None
}

/// Whether a pattern matches a linked ref.
fn is_allowed(check: &BranchControl, linked: &RepoRef) -> bool
    ensures { IsTrue result ↔ IsAllowed check.now linked.now }
{
    any_matches(check.patterns.as_slice(), &linked.git_ref)
}

/// Whether one of the patterns matches a ref.
fn any_matches(patterns: &[Text], git_ref: &Text) -> bool
    ensures { IsTrue result ↔ Any (λ pattern. Matches pattern git_ref.now) patterns.now }
{
    patterns.iter().any(|pattern| matches(pattern, git_ref))
}
