ghost use Rattle.std.specs.Prelude.{◌≡◌, IfOk};
ghost use Rattle.std.specs.List.{list_all, list_any};
ghost use Rattle.pl_eval.specs.Statuses as statuses;
ghost use Rattle.pl_results.specs.Members.{any_run, known_of, result_of, results_under};

use crate::members::{Member, result_of};
use pl_base::{List, Memory, Outcome, Text, Value};
use pl_eval::{Names, RootPart};
use pl_expr::Function;
use std::alloc::Global;

/// What an expression knows of a run alone: whether it is canceled, and how all ended for which its
/// stage or job waits. It has no names.
#[derive(Drop)]
pub struct Statuses {
    pub canceled: bool,
    pub members: List<Member>,
}

impl Names for Statuses {
    ghost known = { λ one. known_of one.canceled one.members };

    fn part(&self, _alloc: Global, _root: &Text, _path: &[Value]) -> Result<RootPart, Memory> {
        Ok(RootPart::NoRoot)
    }

    fn spend(&self, _bytes: u64, _work: u64) -> Result<(), Memory> {
        Ok(())
    }

    fn status(&self, function: Function, names: &List<Text>) -> bool {
        let members = self.members.as_slice();
        let names = names.as_slice();
        match function {
            Function::Always => true,
            Function::Canceled => self.canceled,
            Function::Succeeded => !self.canceled && all_went_well(members, names),
            Function::Failed => any_went_wrong(members, names),
            Function::SucceededOrFailed => !self.canceled && any_was_run(members, names),
            _ => false,
        }
    }
}

/// Whether one ended well.
fn went_well(ended: Option<Outcome>) -> bool
    ensures { result ≡ statuses.went_well ended }
{
    match ended {
        Some(Outcome::Succeeded) => true,
        Some(Outcome::SucceededWithIssues) => true,
        _ => false,
    }
}

fn went_wrong(ended: Option<Outcome>) -> bool
    ensures { result ≡ statuses.went_wrong ended }
{
    match ended {
        Some(Outcome::Failed) => true,
        _ => false,
    }
}

/// Whether one has run to its end.
fn was_run(ended: Option<Outcome>) -> bool
    ensures { result ≡ statuses.was_run ended }
{
    match ended {
        Some(Outcome::Succeeded) => true,
        Some(Outcome::SucceededWithIssues) => true,
        Some(Outcome::Failed) => true,
        _ => false,
    }
}

fn members_went_well(members: &[Member]) -> bool
    ensures { result ≡ list_all (λ one. statuses.went_well one.result) members.now }
{
    members.iter().all(|one| went_well(one.result))
}

fn named_went_well(members: &[Member], names: &[Text]) -> bool
    ensures { result ≡ list_all (λ name. statuses.went_well (result_of members.now name))
        names.now }
{
    names.iter().all(|name| went_well(result_of(members, name)))
}

fn all_went_well(members: &[Member], names: &[Text]) -> bool
    ensures { result ≡ list_all statuses.went_well (results_under members.now names.now) }
{
    if names.is_empty() {
        members_went_well(members)
    } else {
        named_went_well(members, names)
    }
}

fn members_went_wrong(members: &[Member]) -> bool
    ensures { result ≡ list_any (λ one. statuses.went_wrong one.result) members.now }
{
    members.iter().any(|one| went_wrong(one.result))
}

fn named_went_wrong(members: &[Member], names: &[Text]) -> bool
    ensures { result ≡ list_any (λ name. statuses.went_wrong (result_of members.now name))
        names.now }
{
    names
        .iter()
        .any(|name| went_wrong(result_of(members, name)))
}

fn any_went_wrong(members: &[Member], names: &[Text]) -> bool
    ensures { result ≡ list_any statuses.went_wrong (results_under members.now names.now) }
{
    if names.is_empty() {
        members_went_wrong(members)
    } else {
        named_went_wrong(members, names)
    }
}

fn named_was_run(members: &[Member], names: &[Text]) -> bool
    ensures { result ≡ list_any (λ name. statuses.was_run (result_of members.now name)) names.now }
{
    names.iter().any(|name| was_run(result_of(members, name)))
}

/// Whether one of the names has run to its end, or there are no names.
fn any_was_run(members: &[Member], names: &[Text]) -> bool
    ensures { result ≡ any_run members.now names.now }
{
    names.is_empty() || named_was_run(members, names)
}
