ghost use Rattle.std.specs.Prelude.{◌≡◌, ◌≤◌, All, IfOk, MatchOption, count_by, true, false, not};
ghost use Rattle.std.specs.Prelude.{◌&&◌};
ghost use Rattle.std.specs.Set.{is_member, unique_keys};
ghost use Rattle.pl_checks.specs.Approvals.{IsApprovalVerdict, counts, deadline, has_approved};
ghost use Rattle.pl_checks.specs.Approvals.{has_decided, has_rejected, same_name};
ghost use Rattle.pl_base.specs.Firsts.{IsFirstAt};

use crate::check::Approval;
use crate::view::{CheckView, Verdict};
use pl_base::{ExactCopy, Memory, Moment, Text};
use pl_rules::Rule;
use std::alloc::Global;

/// What an approval says of a stage at a moment.
pub(crate) fn approval_verdict(
    alloc: Global,
    check: &Approval,
    view: &CheckView,
    moment: Moment,
) -> Result<Verdict, Memory>
    requires { view.now.ready ≤ 4102444799 }
    ensures { IfOk result (λ verdict. IsApprovalVerdict check.now view.now moment verdict) }
{
    let approvers = check.approvers.as_slice();
    if let Some(place) = first_rejecting(check, view, approvers) {
        let approver = approvers[place].copy(alloc)?;
        return Ok(Verdict::Fail(Rule::ApprovalRejected { approver }));
    }
    let have = approvals(check, view, approvers) as u64;
    if have >= check.least as u64 {
        return Ok(Verdict::Pass);
    }
    if moment >= deadline(view.ready, check.minutes) {
        return Ok(Verdict::Fail(Rule::ApprovalTimeout));
    }
    Ok(Verdict::Wait(Rule::ApprovalOpen {
        have,
        need: check.least,
    }))
}

/// The moment at which a check that was ready then has waited for so many minutes.
pub(crate) fn deadline(ready: Moment, minutes: u32) -> Moment
    requires { ready ≤ 4102444799 }
    ensures { result ≡ deadline ready minutes }
{
    ready + 60 * minutes as u64
}

/// Whether somebody of this name has decided so.
fn has_decided(view: &CheckView, name: &Text, approve: bool) -> bool
    ensures { result ≡ has_decided view.now name.now approve }
{
    view.decisions
        .as_slice()
        .iter()
        .any(|decision| decision.0 == *name && decision.1 == approve)
}

/// Whether a listed approver counts.
fn counts(check: &Approval, view: &CheckView, name: &Text) -> bool
    ensures { result ≡ counts check.now view.now name.now }
{
    check.requester || *name != view.requester
}

/// Whether an approver counts and has approved.
fn has_approved(check: &Approval, view: &CheckView, name: &Text) -> bool
    ensures { result ≡ has_approved check.now view.now name.now }
{
    counts(check, view, name) && has_decided(view, name, true)
}

/// Whether an approver counts and has rejected.
fn has_rejected(check: &Approval, view: &CheckView, name: &Text) -> bool
    ensures { result ≡ has_rejected check.now view.now name.now }
{
    counts(check, view, name) && has_decided(view, name, false)
}

/// The place of the first approver who counts and has rejected.
fn first_rejecting(check: &Approval, view: &CheckView, approvers: &[Text]) -> Option<usize>
    ensures { MatchOption result
        (All (λ name. has_rejected check.now view.now name ≡ false) approvers.now)
        (IsFirstAt (λ name. has_rejected check.now view.now name ≡ true) approvers.now) }
{
    approvers
        .iter()
        .position(|name| has_rejected(check, view, name))
}

/// Whether a name is among others.
fn is_among(name: &Text, others: &[Text]) -> bool
    ensures { result ≡ is_member same_name others.now name.now }
{
    others.iter().any(|other| *name == *other)
}

/// Whether an approver counts, has approved and isn't listed once more behind.
fn is_counted(check: &Approval, view: &CheckView, name: &Text, behind: &[Text]) -> bool
    ensures { result ≡ (has_approved check.now view.now name.now
        && not (is_member same_name behind.now name.now)) }
{
    has_approved(check, view, name) && !is_among(name, behind)
}

/// How many of the approvers count and have approved, each name once: at its last place.
fn approvals(check: &Approval, view: &CheckView, approvers: &[Text]) -> usize
    ensures { result ≡
        count_by (has_approved check.now view.now) (unique_keys same_name approvers.now) }
{
    let mut count = 0;
    for (place, name) in approvers.iter().enumerate() {
        if is_counted(check, view, name, &approvers[place + 1..]) {
            count += 1;
        }
    }
    count
}
