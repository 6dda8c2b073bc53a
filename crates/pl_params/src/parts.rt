ghost use Rattle.std.specs.Prelude.{◌≡◌, codes, IfOk};
ghost use Rattle.std.specs.Option.{option_copied};
ghost use Rattle.pl_params.specs.Declaring.{name_of, kind_of, values_of, is_key, written_param};
ghost use Rattle.pl_params.specs.Nodes.{text_of, items_of, under};

use crate::kind::ParamKind;
use crate::param::Param;
use pl_base::{ExactCopy, List, Memory, Node, NodeBody, NodePair, Place, Text};
use std::alloc::Global;

/// A scalar's text. Another node has none.
pub fn text_of(node: &Node) -> &str
    ensures { result.now ≡ text_of node.now }
{
    match &node.body {
        NodeBody::Scalar(text) => text.as_str(),
        _ => "",
    }
}

/// What stands under the first key that is that text.
#[tactic(auto, using(pl_base::proofs::Finding::find_drop_yes, pl_base::proofs::Finding::find_drop_no))]
pub fn under<'n>(key: &str, pairs: &'n List<NodePair>) -> Option<&'n Node>
    ensures { option_copied result ≡ under key.now pairs.now }
{
    for pair in pairs.as_slice() {
        if pair.key.as_str() == key {
            return Some(&pair.item);
        }
    }
    None
}

/// The name that a declaration has, empty where it has none.
pub fn name_of(pairs: &List<NodePair>) -> &str
    ensures { result.now ≡ name_of pairs.now }
{
    match under("name", pairs) {
        Some(node) => text_of(node),
        None => "",
    }
}

/// The type that a declaration names, string where it names none. None where it is unknown.
pub fn kind_of(pairs: &List<NodePair>) -> Option<ParamKind>
    ensures { result ≡ kind_of pairs.now }
{
    match under("type", pairs) {
        Some(node) => ParamKind::named(text_of(node)),
        None => Some(ParamKind::String),
    }
}

/// The values that a declaration allows.
pub fn values_of(alloc: Global, pairs: &List<NodePair>) -> Result<List<Node>, Memory>
    ensures { IfOk result (λ values. values ≡ values_of pairs.now) }
{
    match under("values", pairs) {
        Some(node) => match &node.body {
            NodeBody::Seq(items) => items.copy(alloc),
            _ => Ok(List::new(alloc)),
        },
        None => Ok(List::new(alloc)),
    }
}

/// Whether a declaration may have that key.
pub fn is_key(key: &Text) -> bool
    ensures { result ≡ is_key key.now }
{
    match key.as_str() {
        "name" | "type" | "default" | "values" | "displayName" => true,
        _ => false,
    }
}

/// The parameter that a mapping at a place declares.
pub fn written_param(alloc: Global, place: &Place, pairs: &List<NodePair>) -> Result<Param, Memory>
    ensures { IfOk result (λ param. param ≡ written_param place.now pairs.now) }
{
    let name = Text::from_str(alloc, name_of(pairs))?;
    let place = place.copy(alloc)?;
    let default = written_default(alloc, pairs)?;
    let values = values_of(alloc, pairs)?;
    Ok(Param {
        name,
        place,
        kind: kind_of(pairs).unwrap_or(ParamKind::String),
        default,
        values,
    })
}

fn written_default(alloc: Global, pairs: &List<NodePair>) -> Result<Option<Node>, Memory>
    ensures { IfOk result (λ default. default ≡ under (codes "default") pairs.now) }
{
    match under("default", pairs) {
        Some(node) => Ok(Some(node.copy(alloc)?)),
        None => Ok(None),
    }
}
