ghost use Rattle.std.specs.Prelude.{◌≡◌, IfOk, Some};
ghost use Rattle.std.specs.Option.{option_copied};
ghost use Rattle.pl_eval.specs.LookUps.{found_behind, part_of};

use crate::look_ups::find_member;
use crate::weighing::work_of_comparing;
use pl_base::{ExactCopy, MarkedNode, Memory, Value};
use pl_budgets::Meter;
use std::alloc::Global;

/// What a path of indices finds in the value of a root.
#[derive(Drop)]
pub enum RootPart {
    /// There is no such root.
    NoRoot,
    /// One of the indices finds nothing.
    Missing,
    /// What the last index finds, or the root's value where the path is empty.
    Found(MarkedNode),
}

/// How many units of work it is to seek what an index finds in a value.
fn work_of_seeking(value: &Value, at: &Value) -> u64 {
    match value {
        Value::Object(pairs) => 16u64.saturating_add(work_of_seeking_among(pairs.len(), at)),
        _ => 16,
    }
}

/// How many units of work it is to seek the name that an index converts to among so many.
pub fn work_of_seeking_among(names: usize, at: &Value) -> u64 {
    match at {
        Value::Str(name) => work_of_comparing(name, names),
        _ => (names as u64).saturating_mul(8),
    }
}

/// What the indices of a path find in a node, each looked up in what the one before it found; the
/// node itself where the path is empty, and None where one of them finds nothing.
#[tactic(auto, using(crate::proofs::Finding::path_some, crate::proofs::Finding::path_none))]
pub fn find_behind<'v>(
    alloc: Global,
    meter: &Meter,
    node: &'v MarkedNode,
    path: &[Value],
) -> Result<Option<&'v MarkedNode>, Memory>
    ensures { IfOk result (λ found. option_copied found ≡ found_behind path.now node.now) }
{
    let mut node = node;
    for at in path {
        meter.work(work_of_seeking(&node.value, at))?;
        match find_member(alloc, &node.value, at)? {
            Some(found) => node = found,
            None => return Ok(None),
        }
    }
    Ok(Some(node))
}

/// The part of a node that a path finds. Nothing else of the node is copied.
pub fn part_behind(
    alloc: Global,
    meter: &Meter,
    node: &MarkedNode,
    path: &[Value],
) -> Result<RootPart, Memory>
    ensures { IfOk result (λ part. part ≡ part_of (Some (found_behind path.now node.now))) }
{
    match find_behind(alloc, meter, node, path)? {
        Some(found) => Ok(RootPart::Found(found.copy(alloc)?)),
        None => Ok(RootPart::Missing),
    }
}
