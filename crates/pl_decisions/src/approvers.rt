//! Who may decide about a stage.

ghost use Rattle.std.specs.Prelude.{◌≡◌};
ghost use Rattle.pl_decisions.specs.Decisions as spec;
ghost use Rattle.pl_due.specs.Checked.{checks_on};

use pl_base::{ResourceKey, Text};
use pl_checks::Check;
use pl_facts::QueuedRun;
use pl_journal::Journal;
use pl_plan::PlanStage;
use pl_requests::Rule;

/// Whether names have a name among them.
fn is_among(names: &[Text], name: &Text) -> bool
    ensures { result ≡ spec.is_among names.now name.now }
{
    names.iter().any(|one| *name == *one)
}

/// Whether a check is an approval that lists somebody.
fn lists(check: &Check, name: &Text) -> bool
    ensures { result ≡ spec.lists name.now check.now }
{
    match check {
        Check::Approval(told) => is_among(told.approvers.as_slice(), name),
        _ => false,
    }
}

/// Whether a check is an approval that lists somebody, and lets whoever queued the run decide.
fn lists_requester(check: &Check, name: &Text) -> bool
    ensures { result ≡ spec.lists_requester name.now check.now }
{
    match check {
        Check::Approval(told) => told.requester && is_among(told.approvers.as_slice(), name),
        _ => false,
    }
}

/// What guards a resource.
fn guards<'j>(journal: &'j Journal, key: &ResourceKey) -> &'j [Check]
    ensures { result.now ≡ checks_on journal.now.facts key.now }
{
    match journal.resource(key) {
        Some(setting) => setting.checks.as_slice(),
        None => &[],
    }
}

/// Whether a resource's checks list somebody.
fn is_listed_on(journal: &Journal, key: &ResourceKey, name: &Text) -> bool
    ensures { result ≡ spec.some_on journal.now.facts (spec.lists name.now) key.now }
{
    guards(journal, key).iter().any(|check| lists(check, name))
}

/// Whether the checks of what a stage uses list somebody.
fn is_listed(journal: &Journal, planned: &PlanStage, name: &Text) -> bool
    ensures { result ≡ spec.some_check journal.now.facts planned.now (spec.lists name.now) }
{
    let uses = planned.uses.as_slice();
    uses.iter().any(|key| is_listed_on(journal, key, name))
}

/// Whether a resource's checks let somebody decide who queued the run.
fn lets_requester_on(journal: &Journal, key: &ResourceKey, name: &Text) -> bool
    ensures { result ≡ spec.some_on journal.now.facts (spec.lists_requester name.now) key.now }
{
    guards(journal, key)
        .iter()
        .any(|check| lists_requester(check, name))
}

/// Whether the checks of what a stage uses let somebody decide who queued the run.
fn lets_requester(journal: &Journal, planned: &PlanStage, name: &Text) -> bool
    ensures { result ≡
        spec.some_check journal.now.facts planned.now (spec.lists_requester name.now) }
{
    let uses = planned.uses.as_slice();
    uses.iter().any(|key| lets_requester_on(journal, key, name))
}

/// The rule by which somebody may not decide about a stage: no approval check of what it uses lists
/// them, or they queued the run, and each check that lists them lets no requester decide.
pub(crate) fn unfit(
    journal: &Journal,
    name: &Text,
    queued: &QueuedRun,
    planned: &PlanStage,
) -> Option<Rule>
    ensures { result ≡ spec.unfit journal.now.facts name.now queued.now planned.now }
{
    if !is_listed(journal, planned, name) {
        return Some(Rule::ApproverUnlisted);
    }
    if *name == queued.requester && !lets_requester(journal, planned, name) {
        return Some(Rule::ApproverRequester);
    }
    None
}
