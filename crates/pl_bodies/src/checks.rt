//! Checks.

ghost use Rattle.std.specs.Prelude.{◌≡◌};
ghost use Rattle.pl_bodies.specs.Checks.{approval_in, branch_in, check_in, check_of, hours_in};
ghost use Rattle.pl_bodies.specs.Checks.{key_of, template_in};
ghost use Rattle.pl_bodies.specs.Meaning.{Gives};
ghost use Rattle.pl_trees.specs.Trees.{seen};

use crate::atoms::word_in;
use crate::fault::BodyFault;
use crate::field::{Field, only, optional, required};
use pl_base::{FileKey, List, Text};
use pl_checks::{Approval, Arguments, BranchControl, BusinessHours, Check, RequiredTemplate};
use pl_rules::Day;
use pl_trees::{Tree, get};
use pl_zones::Zone;
use std::alloc::Global;

impl Field for FileKey {
    ghost meant = { key_of };

    fn read(alloc: Global, value: &Tree<'_>) -> Result<FileKey, BodyFault> {
        only(value, &["repo", "ref", "path"])?;
        let repo = required::<Text>(alloc, value, "repo")?;
        let git_ref = required::<Text>(alloc, value, "ref")?;
        let path = required::<Text>(alloc, value, "path")?;
        Ok(FileKey {
            repo,
            git_ref,
            path,
        })
    }
}

fn template_in(alloc: Global, value: &Tree<'_>) -> Result<Check, BodyFault>
    ensures { Gives result (template_in (seen value.now)) }
{
    only(value, &["kind", "templates", "arguments"])?;
    let templates = required::<List<FileKey>>(alloc, value, "templates")?;
    let arguments = optional(alloc, value, "arguments", Arguments::Any)?;
    Ok(Check::RequiredTemplate(RequiredTemplate {
        templates,
        arguments,
    }))
}

fn branch_in(alloc: Global, value: &Tree<'_>) -> Result<Check, BodyFault>
    ensures { Gives result (branch_in (seen value.now)) }
{
    only(value, &["kind", "patterns"])?;
    let patterns = required::<List<Text>>(alloc, value, "patterns")?;
    Ok(Check::Branch(BranchControl { patterns }))
}

/// How many minutes a check waits where its body doesn't say it: 30 days.
const DEFAULT_MINUTES: u32 = 43_200;

fn approval_in(alloc: Global, value: &Tree<'_>) -> Result<Check, BodyFault>
    ensures { Gives result (approval_in (seen value.now)) }
{
    only(
        value,
        &["kind", "approvers", "least", "requester", "timeoutMinutes"],
    )?;
    let approvers = required::<List<Text>>(alloc, value, "approvers")?;
    let least = required::<u32>(alloc, value, "least")?;
    let requester = required::<bool>(alloc, value, "requester")?;
    let minutes = optional(alloc, value, "timeoutMinutes", DEFAULT_MINUTES)?;
    Ok(Check::Approval(Approval {
        approvers,
        least,
        requester,
        minutes,
    }))
}

fn hours_in(alloc: Global, value: &Tree<'_>) -> Result<Check, BodyFault>
    ensures { Gives result (hours_in (seen value.now)) }
{
    only(
        value,
        &["kind", "days", "zone", "start", "end", "timeoutMinutes"],
    )?;
    let days = required::<List<Day>>(alloc, value, "days")?;
    let zone = required::<Zone>(alloc, value, "zone")?;
    let start = required::<u32>(alloc, value, "start")?;
    let end = required::<u32>(alloc, value, "end")?;
    let minutes = optional(alloc, value, "timeoutMinutes", DEFAULT_MINUTES)?;
    Ok(Check::Hours(BusinessHours {
        days,
        zone,
        start,
        end,
        minutes,
    }))
}

/// The check of a kind, by the members beside its kind.
fn check_in(alloc: Global, kind: &str, value: &Tree<'_>) -> Result<Check, BodyFault>
    ensures { Gives result (check_in kind.now (seen value.now)) }
{
    match kind {
        "requiredTemplate" => template_in(alloc, value),
        "branch" => branch_in(alloc, value),
        "approval" => approval_in(alloc, value),
        "hours" => hours_in(alloc, value),
        _ => Err(BodyFault::Bad),
    }
}

impl Field for Check {
    ghost meant = { check_of };

    fn read(alloc: Global, value: &Tree<'_>) -> Result<Check, BodyFault> {
        match get(value, "kind") {
            Some(kind) => check_in(alloc, word_in(kind)?, value),
            None => Err(BodyFault::Bad),
        }
    }
}
