ghost use Rattle.std.specs.Prelude.{◌≡◌, ◌↔◌, ◌∷◌, IfOk, IsTrue, find};
ghost use Rattle.std.specs.Option.{option_copied, option_map};
ghost use Rattle.pl_base.specs.Folding.{folded};
ghost use Rattle.pl_eval.specs.Known.{same_name};
ghost use Rattle.pl_base.specs.declared.origin.Origin.{Origin as SomeOrigin};
ghost use Rattle.pl_eval.specs.Means.{answer};
ghost use Rattle.pl_results.specs.Parts.{in_order, job_parts, stage_groups, stage_parts};
ghost use Rattle.pl_cond.specs.Objects as object;
ghost use Rattle.pl_cond.specs.Paths as spec;

use crate::objects::{
    groups_value, in_order, jobs_value, outputs_value, part_value, parts_value, result_value,
};
use pl_base::{ExactCopy, List, Memory, Origin, Text, Value};
use pl_literal::spells;
use pl_plan::Plan;
use pl_results::{
    Leg, Part, RunView, job_part, stage_group, stage_groups, stage_part, stage_parts,
};
use std::alloc::Global;

/// Names looked up one after the other, the first one in the value of a root.
#[derive(Drop)]
pub struct Path {
    pub root: Text,
    pub names: List<Text>,
}

/// What names lead to in an atom: itself where there are none, and else Null.
fn atom_along(value: Value, names: &[Text]) -> Value
    requires { spec.IsAtom value }
    ensures { (here : SomeOrigin) → spec.inside here value names.now ≡ answer here result }
{
    if names.is_empty() { value } else { Value::Null }
}

/// Whether two pieces of text are equal, the case of letters aside.
#[tactic(auto, using(pl_base::proofs::Cases::alike))]
fn are_alike(left: &[u8], right: &[u8]) -> bool
    ensures { IsTrue result ↔ (folded left.now ≡ folded right.now) }
{
    left.eq_ignore_ascii_case(right)
}

/// Whether a piece of text is that name, the case of letters aside.
fn is_called(text: &[u8], name: &[u8]) -> bool
    ensures { result ≡ same_name name.now text.now }
{
    are_alike(text, name)
}

/// What stands in a key behind a prefix, the case of letters aside.
fn behind<'k>(prefix: &[u8], key: &'k [u8]) -> Option<&'k [u8]>
    ensures { option_map (λ rest. rest.now) result ≡ spec.behind prefix.now key.now }
{
    let size = prefix.len();
    if key.len() < size {
        return None;
    }
    let (front, rest) = key.split_at(size);
    if is_called(prefix, front) {
        Some(rest)
    } else {
        None
    }
}

fn has_name(output: &(Text, Text), name: &[u8]) -> bool
    ensures { result ≡ same_name name.now output.now.0 }
{
    is_called(output.0.as_bytes(), name)
}

fn first_named<'o>(outputs: &'o [(Text, Text)], name: &[u8]) -> Option<&'o (Text, Text)>
    ensures { option_copied result ≡ find (λ output. same_name name.now output.0) outputs.now }
{
    for output in outputs {
        if has_name(output, name) {
            return Some(output);
        }
    }
    None
}

fn named_output(
    alloc: Global,
    outputs: &[(Text, Text)],
    name: &[u8],
) -> Result<Option<Text>, Memory>
    ensures { IfOk result (λ found. found ≡ spec.named_output outputs.now name.now) }
{
    match first_named(outputs, name) {
        Some(output) => Ok(Some(output.1.copy(alloc)?)),
        None => Ok(None),
    }
}

/// The output of a leg whose name stands behind the leg's prefix. Those of other legs aren't looked
/// at.
fn output_behind(alloc: Global, leg: &Leg, name: &[u8]) -> Result<Option<Text>, Memory>
    ensures { IfOk result
        (λ found. found ≡ spec.named_output (in_order leg.now.outputs) name.now) }
{
    let outputs = in_order(alloc, leg.outputs.as_slice())?;
    named_output(alloc, outputs.as_slice(), name)
}

/// The output of a leg under a key.
fn output_in(alloc: Global, leg: &Leg, key: &Text) -> Result<Option<Text>, Memory>
    ensures { IfOk result (λ found. found ≡ spec.output_in leg.now key.now) }
{
    match behind(leg.prefix.as_bytes(), key.as_bytes()) {
        Some(name) => output_behind(alloc, leg, name),
        None => Ok(None),
    }
}

fn output_of(alloc: Global, legs: &[Leg], key: &Text) -> Result<Option<Text>, Memory>
    ensures { IfOk result (λ found. found ≡ spec.output_of legs.now key.now) }
{
    for leg in legs {
        let found = output_in(alloc, leg, key)?;
        if found.is_some() {
            return Ok(found);
        }
    }
    Ok(None)
}

fn outputs_along(
    alloc: Global,
    here: &Origin,
    legs: &[Leg],
    names: &[Text],
) -> Result<Value, Memory>
    ensures { IfOk result (λ value. spec.inside here.now (object.outputs_value here.now legs.now)
        names.now ≡ answer here.now value) }
{
    match names {
        [] => outputs_value(alloc, here, legs),
        [key, rest @ ..] => match output_of(alloc, legs, key)? {
            Some(text) => Ok(atom_along(Value::Str(text), rest)),
            None => Ok(Value::Null),
        },
    }
}

fn part_along(alloc: Global, here: &Origin, part: &Part, names: &[Text]) -> Result<Value, Memory>
    ensures { IfOk result (λ value. spec.inside here.now (object.part_value here.now part.now)
        names.now ≡ answer here.now value) }
{
    match names {
        [] => part_value(alloc, here, part),
        [name, rest @ ..] => member_along(alloc, here, part, name, rest),
    }
}

/// What names lead to in a stage or a job from its `result` or `outputs` on.
fn member_along(
    alloc: Global,
    here: &Origin,
    part: &Part,
    name: &Text,
    rest: &[Text],
) -> Result<Value, Memory>
    ensures { IfOk result (λ value. spec.inside here.now (object.part_value here.now part.now)
        (name.now ∷ rest.now) ≡ answer here.now value) }
{
    if spells(name.as_str(), "result") {
        let value = result_value(alloc, part.result)?;
        return Ok(atom_along(value, rest));
    }
    if spells(name.as_str(), "outputs") {
        return outputs_along(alloc, here, part.legs.as_slice(), rest);
    }
    Ok(Value::Null)
}

/// What names lead to in the object of the jobs of which these are legs.
pub fn jobs_along(
    alloc: Global,
    here: &Origin,
    legs: &[Leg],
    names: &[Text],
) -> Result<Value, Memory>
    ensures { IfOk result (λ value. spec.inside here.now (object.parts_value here.now
        (job_parts legs.now)) names.now ≡ answer here.now value) }
{
    match names {
        [] => jobs_value(alloc, here, legs),
        [name, rest @ ..] => match job_part(alloc, legs, name)? {
            Some(part) => part_along(alloc, here, &part, rest),
            None => Ok(Value::Null),
        },
    }
}

fn all_stages(
    alloc: Global,
    here: &Origin,
    plan: &Plan,
    view: &RunView,
    depends: &[u32],
) -> Result<Value, Memory>
    ensures { IfOk result (λ value. value ≡ object.parts_value here.now
        (stage_parts plan.now view.now depends.now)) }
{
    let parts = stage_parts(alloc, plan, view, depends)?;
    parts_value(alloc, here, parts.as_slice())
}

/// What names lead to in the object of the stages for which one waits directly.
pub fn stages_along(
    alloc: Global,
    here: &Origin,
    plan: &Plan,
    view: &RunView,
    depends: &[u32],
    names: &[Text],
) -> Result<Value, Memory>
    ensures { IfOk result (λ value. spec.inside here.now (object.parts_value here.now
        (stage_parts plan.now view.now depends.now)) names.now ≡ answer here.now value) }
{
    match names {
        [] => all_stages(alloc, here, plan, view, depends),
        [name, rest @ ..] => match stage_part(alloc, plan, view, depends, name)? {
            Some(part) => part_along(alloc, here, &part, rest),
            None => Ok(Value::Null),
        },
    }
}

fn all_groups(
    alloc: Global,
    here: &Origin,
    plan: &Plan,
    view: &RunView,
    depends: &[u32],
) -> Result<Value, Memory>
    ensures { IfOk result (λ value. value ≡ object.groups_value here.now
        (stage_groups plan.now view.now depends.now)) }
{
    let groups = stage_groups(alloc, plan, view, depends)?;
    groups_value(alloc, here, groups.as_slice())
}

/// What names lead to in the object of these stages with their jobs.
pub fn groups_along(
    alloc: Global,
    here: &Origin,
    plan: &Plan,
    view: &RunView,
    depends: &[u32],
    names: &[Text],
) -> Result<Value, Memory>
    ensures { IfOk result (λ value. spec.inside here.now (object.groups_value here.now
        (stage_groups plan.now view.now depends.now)) names.now ≡ answer here.now value) }
{
    match names {
        [] => all_groups(alloc, here, plan, view, depends),
        [name, rest @ ..] => match stage_group(alloc, plan, view, depends, name)? {
            Some(group) => jobs_along(alloc, here, group.legs.as_slice(), rest),
            None => Ok(Value::Null),
        },
    }
}
