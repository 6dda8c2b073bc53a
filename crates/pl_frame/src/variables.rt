ghost use Rattle.std.specs.Prelude.{◌≡◌, [], IfOk, fold, map};
ghost use Rattle.pl_base.specs.declared.value.Value.{Str, out-Value};
ghost use Rattle.pl_frame.specs.Placing.{placed_if};
ghost use Rattle.std.specs.List.{filter_map};
ghost use Rattle.std.specs.Option.{option_copied};
ghost use Rattle.pl_frame.specs.Variables.{variable, pair_variable, under, named_variable};
ghost use Rattle.pl_frame.specs.Variables.{item_variable, written_in, last_segment, run_variables};
ghost use Rattle.pl_frame.specs.Variables.{placed, variables_of};

use crate::frame::Variable;
use crate::gathering::Gathered;
use pl_base::{ExactCopy, List, MarkedNode, MarkedPair, Memory, Text, Value};
use pl_expr::to_text;
use std::alloc::Global;

/// The variables that templates see (Microsoft Learn, Azure Pipelines, "Define variables" and
/// "Predefined variables"): those that the root file's `variables` gives, and then the run's ref,
/// its last segment, and that it was queued by hand.
///
/// A mapping gives one for each pair. A list gives one for each item with `name` and `value`, the
/// name cast to text; its other items give none. Any other value gives none. A later one stands in
/// the place of an earlier one of its name, the case of ASCII's letters aside. Memory where memory
/// is wanting.
pub fn variables_of(alloc: Global, git_ref: &Text, value: &Value) -> Result<List<Variable>, Memory>
    ensures { IfOk result (λ all. all ≡ variables_of git_ref.now value.now) }
{
    let written = with_written(alloc, Gathered::new(alloc), value)?;
    let all = with_run(alloc, written, git_ref.as_str())?;
    Ok(all.into_variables())
}

/// The variables with those that a value gives.
fn with_written(alloc: Global, before: Gathered, value: &Value) -> Result<Gathered, Memory>
    ensures { IfOk result
        (λ all. all.variables ≡ fold placed before.variables (written_in (out-Value value.now))) }
{
    match value {
        Value::Object(pairs) => with_pairs(alloc, before, pairs),
        Value::Array(items) => with_items(alloc, before, items),
        _ => Ok(before),
    }
}

/// The variables with those of a mapping's pairs.
fn with_pairs(alloc: Global, before: Gathered, pairs: &List<MarkedPair>) -> Result<Gathered, Memory>
    ensures { IfOk result
        (λ all. all.variables ≡ fold placed before.variables (map pair_variable pairs.now)) }
{
    let mut all = before;
    for pair in pairs.as_slice() {
        let later = variable(alloc, &pair.key, &pair.item.value)?;
        all = all.with(alloc, later)?;
    }
    Ok(all)
}

/// The variables with those of a list's items.
fn with_items(alloc: Global, before: Gathered, items: &List<MarkedNode>) -> Result<Gathered, Memory>
    ensures { IfOk result
        (λ all. all.variables ≡ fold placed before.variables (filter_map item_variable items.now)) }
{
    let mut all = before;
    for item in items.as_slice() {
        all = with_item(alloc, all, item)?;
    }
    Ok(all)
}

/// The variables with that of an item, where it gives one.
fn with_item(alloc: Global, before: Gathered, item: &MarkedNode) -> Result<Gathered, Memory>
    ensures { IfOk result
        (λ all. all.variables ≡ placed_if before.variables (item_variable item.now)) }
{
    match item_variable(alloc, item)? {
        Some(later) => before.with(alloc, later),
        None => Ok(before),
    }
}

/// The variable of a list's item, where it has a name and a value.
fn item_variable(alloc: Global, item: &MarkedNode) -> Result<Option<Variable>, Memory>
    ensures { IfOk result (λ found. found ≡ item_variable item.now) }
{
    let Value::Object(pairs) = &item.value else {
        return Ok(None);
    };
    let Some(name) = under("name", pairs) else {
        return Ok(None);
    };
    let Some(value) = under("value", pairs) else {
        return Ok(None);
    };
    let name = to_text(alloc, name)?;
    Ok(Some(variable(alloc, &name, value)?))
}

/// The value under a key of an object, spelled exactly: of the first pair that has it.
#[tactic(auto, using(crate::proofs::Walking::find_yes, crate::proofs::Walking::find_no))]
fn under<'p>(key: &str, pairs: &'p List<MarkedPair>) -> Option<&'p Value>
    ensures { option_copied result ≡ under key.now pairs.now }
{
    for pair in pairs.as_slice() {
        if pair.key.as_str() == key {
            return Some(&pair.item.value);
        }
    }
    None
}

/// The variables with those of the run: its ref, the ref's last segment, and the reason.
fn with_run(alloc: Global, before: Gathered, git_ref: &str) -> Result<Gathered, Memory>
    ensures { IfOk result
        (λ all. all.variables ≡ fold placed before.variables (run_variables git_ref.now)) }
{
    let branch = text_variable(alloc, "Build.SourceBranch", git_ref)?;
    let name = text_variable(alloc, "Build.SourceBranchName", last_segment(git_ref))?;
    let reason = text_variable(alloc, "Build.Reason", "Manual")?;
    let with_branch = before.with(alloc, branch)?;
    let with_name = with_branch.with(alloc, name)?;
    let all = with_name.with(alloc, reason)?;
    Ok(all)
}

/// The part of a ref behind its last `/`, or the whole ref where it has none.
fn last_segment(git_ref: &str) -> &str
    ensures { result.now ≡ last_segment [] git_ref.now }
{
    match git_ref.rsplit_once('/') {
        Some((_front, last)) => last,
        None => git_ref,
    }
}

/// A variable of that name and value.
fn variable(alloc: Global, name: &Text, value: &Value) -> Result<Variable, Memory>
    ensures { IfOk result (λ made. made ≡ variable name.now value.now) }
{
    let name = name.copy(alloc)?;
    let value = value.copy(alloc)?;
    Ok(Variable { name, value })
}

/// A variable whose value is a text.
fn text_variable(alloc: Global, name: &str, text: &str) -> Result<Variable, Memory>
    ensures { IfOk result (λ made. made ≡ variable name.now (Str text.now)) }
{
    let name = Text::from_str(alloc, name)?;
    let value = Value::Str(Text::from_str(alloc, text)?);
    Ok(Variable { name, value })
}
