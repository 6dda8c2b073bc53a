ghost use Rattle.std.specs.Prelude.{◌≡◌, ◌++◌, IfOk};
ghost use Rattle.std.specs.Option.{option_copied};
ghost use Rattle.pl_root.specs.Resources.{earliest, resources_complaints};
ghost use Rattle.pl_root.specs.Keys.{later, beside, root_complaints};

use crate::resources::{judge_mapping, opening};
use pl_base::{List, Memory, Node, NodePair, Place};
use pl_calls::{key_place, under};
use pl_directives::{Complaint, ExpandProblem, complain};
use pl_params::{earlier, is_before};
use std::alloc::Global;

/// Of several complaints the one at the earliest place, at one place the first.
fn earliest(complaints: List<Complaint>) -> Option<Complaint>
    ensures { result ≡ earliest complaints }
{
    let mut first = None;
    for next in complaints.into_vec() {
        first = earlier(first, Some(next));
    }
    first
}

/// Complaints, and more behind them.
fn joined(first: List<Complaint>, more: List<Complaint>) -> Result<List<Complaint>, Memory>
    ensures { IfOk result (λ all. all ≡ first ++ more) }
{
    let mut all = first;
    for complaint in more.into_vec() {
        all.push(complaint)?;
    }
    Ok(all)
}

/// All that is wrong with resources.
fn judge_resources(alloc: Global, node: &Node) -> Result<List<Complaint>, Memory>
    ensures { IfOk result (λ all. all ≡ resources_complaints node.now) }
{
    let mut all = List::new(alloc);
    if let Some(place) = opening(node) {
        all.push(complain(alloc, ExpandProblem::BadDirective, place)?)?;
    }
    let more = judge_mapping(alloc, node)?;
    joined(all, more)
}

/// The later of two places of a file.
fn later<'p>(left: &'p Place, right: &'p Place) -> &'p Place
    ensures { result.now ≡ later left.now right.now }
{
    if is_before(left, right) { right } else { left }
}

/// `extends` beside a key of the root's own jobs, behind other complaints.
fn put_beside(
    alloc: Global,
    complaints: List<Complaint>,
    extends: Option<&Place>,
    form: Option<&Place>,
) -> Result<List<Complaint>, Memory>
    ensures { IfOk result (λ all. all ≡ complaints ++ beside (option_copied extends.entry)
        (option_copied form.entry)) }
{
    match (extends, form) {
        (Some(extends), Some(form)) => {
            let mut all = complaints;
            all.push(complain(alloc, ExpandProblem::WrongKind, later(extends, form))?)?;
            Ok(all)
        }
        _ => Ok(complaints),
    }
}

/// What is wrong with the literal keys of the root's mapping.
fn judge_root(alloc: Global, pairs: &List<NodePair>) -> Result<List<Complaint>, Memory>
    ensures { IfOk result (λ all. all ≡ root_complaints pairs.now) }
{
    let all = match under("resources", pairs) {
        Some(node) => judge_resources(alloc, node)?,
        None => List::new(alloc),
    };
    let extends = key_place("extends", pairs);
    let all = put_beside(alloc, all, extends, key_place("stages", pairs))?;
    let all = put_beside(alloc, all, extends, key_place("jobs", pairs))?;
    put_beside(alloc, all, extends, key_place("steps", pairs))
}

/// The first of what is wrong with the literal keys of the root's mapping, by its place: X5 and X9
/// in `resources`, X9 where `extends` stands beside `stages`, `jobs` or `steps`. None where nothing
/// is wrong, Memory where memory is wanting (Microsoft Learn, Azure Pipelines, "YAML schema
/// reference", resources.repositories, extends).
pub fn first_complaint(alloc: Global, pairs: &List<NodePair>) -> Result<Option<Complaint>, Memory>
    ensures { IfOk result (λ first. first ≡ earliest (root_complaints pairs.now)) }
{
    let all = judge_root(alloc, pairs)?;
    Ok(earliest(all))
}
