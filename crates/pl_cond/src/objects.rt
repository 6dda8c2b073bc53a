ghost use Rattle.std.specs.Prelude.{◌≡◌, ◌++◌, IfOk, OnOk, flat_map, map};
ghost use Rattle.pl_cond.specs.Objects as spec;
ghost use Rattle.pl_results.specs.Parts.{in_order, job_parts};

use crate::variables::Variable;
use pl_base::{ExactCopy, List, MarkedNode, MarkedPair, Memory, Origin, Outcome, Text, Value};
use pl_results::{Group, Leg, Part, job_parts};
use std::alloc::Global;
use std::collections::BTreeMap;

/// A property, all of which is made there.
fn pair(alloc: Global, here: &Origin, key: Text, value: Value) -> Result<MarkedPair, Memory>
    ensures { IfOk result (λ one. one ≡ spec.pair here.now key value) }
{
    let key_origin = here.copy(alloc)?;
    let origin = here.copy(alloc)?;
    Ok(MarkedPair {
        key,
        key_origin,
        item: MarkedNode { origin, value },
    })
}

fn outcome_name(outcome: Outcome) -> &'static str
    ensures { result.now ≡ spec.outcome_name outcome }
{
    match outcome {
        Outcome::Succeeded => "Succeeded",
        Outcome::SucceededWithIssues => "SucceededWithIssues",
        Outcome::Failed => "Failed",
        Outcome::Canceled => "Canceled",
        Outcome::Skipped => "Skipped",
    }
}

/// How one ended, as a text, or Null where it hasn't.
pub fn result_value(alloc: Global, ended: Option<Outcome>) -> Result<Value, Memory>
    ensures { IfOk result (λ value. value ≡ spec.result_value ended) }
{
    match ended {
        Some(outcome) => Ok(Value::Str(Text::from_str(alloc, outcome_name(outcome))?)),
        None => Ok(Value::Null),
    }
}

/// Outputs by name, in the order of bytes; of two of one name the later one counts.
pub fn in_order(alloc: Global, outputs: &[(Text, Text)]) -> Result<List<(Text, Text)>, Memory>
    ensures { IfOk result (λ kept. kept ≡ in_order outputs.now) }
{
    let kept = by_name(alloc, outputs)?;
    let kept = kept.into_iter().collect(alloc)?;
    Ok(List::from_vec(kept))
}

fn by_name(alloc: Global, outputs: &[(Text, Text)]) -> Result<BTreeMap<Text, Text>, Memory>
    ensures { IfOk result (λ kept. kept.entries ≡ in_order outputs.now) }
{
    let mut kept = BTreeMap::new(alloc);
    for output in outputs {
        let name = output.0.copy(alloc)?;
        let value = output.1.copy(alloc)?;
        kept.insert(name, value)?;
    }
    Ok(kept)
}

fn output_pair(
    alloc: Global,
    here: &Origin,
    prefix: &Text,
    output: &(Text, Text),
) -> Result<MarkedPair, Memory>
    ensures { IfOk result (λ one. one ≡ spec.output_pair here.now prefix.now output.now) }
{
    let mut key = Text::from_str(alloc, prefix.as_str())?;
    key.push_str(output.0.as_str())?;
    let value = Value::Str(output.1.copy(alloc)?);
    pair(alloc, here, key, value)
}

/// Puts a leg's outputs behind those that are there.
fn push_outputs(
    alloc: Global,
    here: &Origin,
    pairs: &mut List<MarkedPair>,
    leg: &Leg,
) -> Result<(), Memory>
    ensures { OnOk result (pairs.new ≡ pairs.old ++ spec.output_pairs here.now leg.now) }
{
    let outputs = in_order(alloc, leg.outputs.as_slice())?;
    for output in outputs.as_slice() {
        pairs.push(output_pair(alloc, here, &leg.prefix, output)?)?;
    }
    Ok(())
}

/// The outputs of some legs as an object.
pub fn outputs_value(alloc: Global, here: &Origin, legs: &[Leg]) -> Result<Value, Memory>
    ensures { IfOk result (λ value. value ≡ spec.outputs_value here.now legs.now) }
{
    let mut pairs = List::new(alloc);
    for leg in legs {
        push_outputs(alloc, here, &mut pairs, leg)?;
    }
    Ok(Value::Object(pairs))
}

/// A stage or a job as an object: its result and its outputs.
pub fn part_value(alloc: Global, here: &Origin, part: &Part) -> Result<Value, Memory>
    ensures { IfOk result (λ value. value ≡ spec.part_value here.now part.now) }
{
    let result = result_value(alloc, part.result)?;
    let outputs = outputs_value(alloc, here, part.legs.as_slice())?;
    let mut pairs = List::new(alloc);
    pairs.push(pair(alloc, here, Text::from_str(alloc, "result")?, result)?)?;
    pairs.push(pair(alloc, here, Text::from_str(alloc, "outputs")?, outputs)?)?;
    Ok(Value::Object(pairs))
}

fn part_pair(alloc: Global, here: &Origin, part: &Part) -> Result<MarkedPair, Memory>
    ensures { IfOk result (λ one. one ≡ spec.part_pair here.now part.now) }
{
    let key = part.name.copy(alloc)?;
    let value = part_value(alloc, here, part)?;
    pair(alloc, here, key, value)
}

/// Stages or jobs as an object, by their names.
pub fn parts_value(alloc: Global, here: &Origin, parts: &[Part]) -> Result<Value, Memory>
    ensures { IfOk result (λ value. value ≡ spec.parts_value here.now parts.now) }
{
    let mut pairs = List::new(alloc);
    for part in parts {
        pairs.push(part_pair(alloc, here, part)?)?;
    }
    Ok(Value::Object(pairs))
}

/// The jobs of which these are legs, as an object.
pub fn jobs_value(alloc: Global, here: &Origin, legs: &[Leg]) -> Result<Value, Memory>
    ensures { IfOk result (λ value. value ≡ spec.parts_value here.now (job_parts legs.now)) }
{
    let parts = job_parts(alloc, legs)?;
    parts_value(alloc, here, parts.as_slice())
}

fn group_pair(alloc: Global, here: &Origin, group: &Group) -> Result<MarkedPair, Memory>
    ensures { IfOk result (λ one. one ≡ spec.group_pair here.now group.now) }
{
    let key = group.name.copy(alloc)?;
    let value = jobs_value(alloc, here, group.legs.as_slice())?;
    pair(alloc, here, key, value)
}

/// Stages with their jobs as an object.
pub fn groups_value(alloc: Global, here: &Origin, groups: &[Group]) -> Result<Value, Memory>
    ensures { IfOk result (λ value. value ≡ spec.groups_value here.now groups.now) }
{
    let mut pairs = List::new(alloc);
    for group in groups {
        pairs.push(group_pair(alloc, here, group)?)?;
    }
    Ok(Value::Object(pairs))
}

fn variable_pair(alloc: Global, here: &Origin, variable: &Variable) -> Result<MarkedPair, Memory>
    ensures { IfOk result (λ one. one ≡ spec.variable_pair here.now variable.now) }
{
    let key = variable.name.copy(alloc)?;
    let value = variable.value.copy(alloc)?;
    pair(alloc, here, key, value)
}

/// Variables as an object.
pub fn variables_value(
    alloc: Global,
    here: &Origin,
    variables: &[Variable],
) -> Result<Value, Memory>
    ensures { IfOk result (λ value. value ≡ spec.variables_value here.now variables.now) }
{
    let mut pairs = List::new(alloc);
    for variable in variables {
        pairs.push(variable_pair(alloc, here, variable)?)?;
    }
    Ok(Value::Object(pairs))
}
