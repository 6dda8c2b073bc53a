ghost use Rattle.std.specs.Prelude.{◌≡◌, [], ◌∷◌, ◌++◌, IfOk, OnOk};
ghost use Rattle.pl_schema_parts.specs.Gives.{Gives, Makes};
ghost use Rattle.pl_schema_parts.specs.Rows.{read_pair, in_order, read_object};
ghost use Rattle.pl_schema_parts.specs.Variables as spec;

use crate::fault::{SchemaCode, SchemaFault};
use crate::pipeline::Variable;
use crate::rows::{at_key, at_node, has};
use crate::scalars::{pairs_in, text_in};
use pl_base::{ExactCopy, List, MarkedNode, MarkedPair, Memory, Text, Value};
use pl_expr::{Expr, ExprFault, Mode, parse};
use std::alloc::Global;

/// What `variables` holds: variables, and the names of groups.
#[derive(Drop)]
pub struct Variables {
    pub variables: List<Variable>,
    pub groups: List<Text>,
}

/// An item of a list of variables, as far as it is read.
#[derive(Drop)]
pub struct VariableItem {
    written: Variable,
    /// Whether a name or a value was met.
    is_written: bool,
    group: Option<Text>,
}

/// What stands between `$[` at a text's beginning and `]` at its end.
fn expression_in(alloc: Global, text: &Text) -> Result<Option<Text>, Memory>
    ensures { IfOk result (λ inner. inner ≡ spec.expression_in text.now) }
{
    let Some(behind) = text.as_str().strip_prefix("$[") else {
        return Ok(None);
    };
    before_bracket(alloc, behind)
}

/// What stands before the `]` at a text's end.
fn before_bracket(alloc: Global, text: &str) -> Result<Option<Text>, Memory>
    ensures { IfOk result (λ inner. inner ≡ spec.before_bracket text.now) }
{
    match text.strip_suffix("]") {
        Some(inner) => Ok(Some(Text::from_str(alloc, inner)?)),
        None => Ok(None),
    }
}

/// The expression that a text is as a whole.
#[tactic(auto, unfolding(crate::specs::Variables::late_in))]
pub fn late_in(alloc: Global, node: &MarkedNode, text: &Text) -> Result<Option<Expr>, SchemaFault>
    ensures { Gives result (spec.late_in node.now text.now) }
{
    let Some(inner) = expression_in(alloc, text)? else {
        return Ok(None);
    };
    match parse(alloc, &inner, Mode::Variable) {
        Ok(late) => Ok(Some(late)),
        Err(ExprFault::Memory) => Err(SchemaFault::Memory),
        Err(ExprFault::Refused { .. }) => Err(at_node(alloc, SchemaCode::BadCondition, node)),
    }
}

/// A variable of that name, whose value a scalar is by its cast (Microsoft Learn, Azure Pipelines,
/// "Define variables"). S3 at a list or a mapping, S9 at a value that begins with `$[` and ends
/// with `]` and between these doesn't parse. Memory may come at any time.
#[tactic(auto, unfolding(crate::specs::Variables::variable_in))]
pub fn variable_in(alloc: Global, name: Text, node: &MarkedNode) -> Result<Variable, SchemaFault>
    ensures { Gives result (spec.variable_in name node.now) }
{
    let value = text_in(alloc, node)?;
    let late = late_in(alloc, node, &value)?;
    Ok(Variable { name, value, late })
}

/// The variables and the groups of a mapping or of a list.
#[tactic(auto, unfolding(crate::specs::Variables::variables_in))]
pub fn variables_in(alloc: Global, node: &MarkedNode) -> Result<Variables, SchemaFault>
    ensures { Gives result (spec.variables_in node.now) }
{
    match &node.value {
        Value::Object(pairs) => read_pairs(alloc, pairs.as_slice()),
        Value::Array(items) => read_items(alloc, items.as_slice()),
        Value::Null => Ok(no_variables(alloc)),
        Value::Str(text) if text.is_empty() => Ok(no_variables(alloc)),
        _ => Err(at_node(alloc, SchemaCode::WrongShape, node)),
    }
}

fn no_variables(alloc: Global) -> Variables
    ensures { result ≡ spec.no_variables }
{
    Variables {
        variables: List::new(alloc),
        groups: List::new(alloc),
    }
}

fn read_pairs(alloc: Global, pairs: &[MarkedPair]) -> Result<Variables, SchemaFault>
    ensures { Gives result (in_order spec.read_variable spec.no_variables pairs.now) }
{
    let mut all = no_variables(alloc);
    for pair in pairs {
        let variable = variable_in(alloc, pair.key.copy(alloc)?, &pair.item)?;
        all.variables.push(variable)?;
    }
    Ok(all)
}

fn read_items(alloc: Global, items: &[MarkedNode]) -> Result<Variables, SchemaFault>
    ensures { Gives result (in_order spec.read_item spec.no_variables items.now) }
{
    let mut all = no_variables(alloc);
    for item in items {
        read_item(alloc, &mut all, item)?;
    }
    Ok(all)
}

/// Puts an item of a list behind those that are there.
#[tactic(auto, unfolding(crate::specs::Variables::read_item))]
fn read_item(alloc: Global, all: &mut Variables, node: &MarkedNode) -> Result<(), SchemaFault>
    ensures { Makes result all.new (spec.read_item all.old node.now) }
{
    let pairs = pairs_in(alloc, node)?;
    if !is_whole_item(pairs) {
        return Err(at_node(alloc, SchemaCode::MissingKey, node));
    }
    let item = item_of(alloc, pairs)?;
    put_item(all, item)?;
    Ok(())
}

/// Whether there is a group, or a name with its value.
fn is_whole_item(pairs: &[MarkedPair]) -> bool
    ensures { result ≡ spec.is_whole_item pairs.now }
{
    has(pairs, "group") || (has(pairs, "name") && has(pairs, "value"))
}

fn put_item(all: &mut Variables, item: VariableItem) -> Result<(), Memory>
    ensures { OnOk result (all.new ≡ spec.put_item all.old item.written item.group) }
{
    let VariableItem { written, group, .. } = item;
    match group {
        Some(group) => all.groups.push(group)?,
        None => all.variables.push(written)?,
    }
    Ok(())
}

fn new_item(alloc: Global) -> VariableItem
    ensures { result ≡ spec.new_item }
{
    VariableItem {
        written: Variable {
            name: Text::new(alloc),
            value: Text::new(alloc),
            late: None,
        },
        is_written: false,
        group: None,
    }
}

fn item_of(alloc: Global, pairs: &[MarkedPair]) -> Result<VariableItem, SchemaFault>
    ensures { Gives result (in_order (read_pair spec.item_row) spec.new_item pairs.now) }
{
    let mut item = new_item(alloc);
    for pair in pairs {
        item_pair(alloc, &mut item, pair)?;
    }
    Ok(item)
}

/// What a pair makes of an item.
fn item_pair(alloc: Global, item: &mut VariableItem, pair: &MarkedPair) -> Result<(), SchemaFault>
    ensures { Makes result item.new (read_pair spec.item_row item.old pair.now) }
{
    match pair.key.as_str() {
        "name" => set_name(alloc, item, pair),
        "value" => set_value(alloc, item, pair),
        "group" => set_group(alloc, item, pair),
        "readonly" => Ok(()),
        _ => Err(at_key(alloc, SchemaCode::UnknownKey, pair)),
    }
}

fn set_name(alloc: Global, item: &mut VariableItem, pair: &MarkedPair) -> Result<(), SchemaFault>
    ensures { Makes result item.new (spec.item_name item.old pair.now) }
{
    if item.group.is_some() {
        return Err(at_key(alloc, SchemaCode::TwoForms, pair));
    }
    item.written.name = text_in(alloc, &pair.item)?;
    item.is_written = true;
    Ok(())
}

#[tactic(auto, unfolding(crate::specs::Variables::variable_in))]
fn set_value(alloc: Global, item: &mut VariableItem, pair: &MarkedPair) -> Result<(), SchemaFault>
    ensures { Makes result item.new (spec.item_value item.old pair.now) }
{
    if item.group.is_some() {
        return Err(at_key(alloc, SchemaCode::TwoForms, pair));
    }
    let value = text_in(alloc, &pair.item)?;
    item.written.late = late_in(alloc, &pair.item, &value)?;
    item.written.value = value;
    item.is_written = true;
    Ok(())
}

fn set_group(alloc: Global, item: &mut VariableItem, pair: &MarkedPair) -> Result<(), SchemaFault>
    ensures { Makes result item.new (spec.item_group item.old pair.now) }
{
    if item.is_written {
        return Err(at_key(alloc, SchemaCode::TwoForms, pair));
    }
    item.group = Some(text_in(alloc, &pair.item)?);
    Ok(())
}
