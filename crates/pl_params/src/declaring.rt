ghost use Rattle.std.specs.Prelude.{◌≡◌, [], codes, IfOk};
ghost use Rattle.pl_params.specs.Declaring.{name_of, kind_of, values_of, kind_complaint};
ghost use Rattle.pl_params.specs.Declaring.{again_complaint, default_complaint, place_of};
ghost use Rattle.pl_params.specs.Declaring.{complaints_of, first_of, item_param, object_param};
ghost use Rattle.pl_params.specs.Declaring.{pair_complaint, pair_param, declares};
ghost use Rattle.pl_params.specs.Earliest.{earlier};
ghost use Rattle.pl_params.specs.Nodes.{under};
ghost use Rattle.pl_params.specs.Gives.{Gives};
ghost use Rattle.pl_params.specs.Steps.{in_turn};

use crate::complaints::{
    again_complaint, default_complaint, keys_complaint, kind_complaint, misdeclared,
    name_complaint, values_complaint,
};
use crate::earliest::earlier;
use crate::fault::{Complaint, Misdeclared, ParamFault};
use crate::kind::ParamKind;
use crate::param::{Declared, Param};
use crate::parts::{kind_of, name_of, under, values_of, written_param};
use crate::refusing::found_node;
use pl_base::{ExactCopy, List, Memory, Node, NodeBody, NodePair, Place};
use std::alloc::Global;

/// The parameters that a template declares under its key `parameters`, in order (Microsoft Learn,
/// Azure Pipelines, "YAML schema reference", parameters).
///
/// A sequence has one mapping for each parameter, with the keys `name`, `type` (string where it
/// isn't there), `default`, `values` and `displayName`, which is passed over. In the older form a
/// mapping declares each of its keys as an object whose default is the key's value. A parameter's
/// place is its mapping's, in the older form its key's.
///
/// A fault is that of the first declaration that has one, and there the one at the earliest place,
/// at one place the one with the smaller code: P1 at the value of `type`; P2 at the parameter's
/// place; P3 at the value of `default`; P8 at the parameter's place where there is no name, at the
/// value of `values` where that is no sequence, at a key that isn't listed above, at an item that
/// is no mapping, and at the node where that is neither a sequence nor a mapping. Memory may come
/// at any time.
pub fn declare(alloc: Global, node: &Node) -> Result<Declared, ParamFault>
    ensures { Gives result (declares node.now) }
{
    match &node.body {
        NodeBody::Seq(items) => declare_items(alloc, items),
        NodeBody::Map(pairs) => declare_pairs(alloc, pairs),
        NodeBody::Scalar(text) => {
            let why = Misdeclared::NoCollection(text.copy(alloc)?);
            Err(ParamFault::Refused(misdeclared(alloc, why, &node.place)?))
        }
    }
}

fn declare_items(alloc: Global, items: &List<Node>) -> Result<Declared, ParamFault>
    ensures { Gives result (in_turn item_param [] items.now) }
{
    let mut declared = List::new(alloc);
    for item in items.as_slice() {
        let param = declare_item(alloc, &declared, item)?;
        declared.push(param)?;
    }
    Ok(declared)
}

fn declare_pairs(alloc: Global, pairs: &List<NodePair>) -> Result<Declared, ParamFault>
    ensures { Gives result (in_turn pair_param [] pairs.now) }
{
    let mut declared = List::new(alloc);
    for pair in pairs.as_slice() {
        let param = declare_pair(alloc, &declared, pair)?;
        declared.push(param)?;
    }
    Ok(declared)
}

/// The parameter that an item declares behind those before it.
fn declare_item(alloc: Global, before: &List<Param>, item: &Node) -> Result<Param, ParamFault>
    ensures { Gives result (item_param before.now item.now) }
{
    let NodeBody::Map(pairs) = &item.body else {
        let why = Misdeclared::NoMapping(found_node(alloc, item)?);
        return Err(ParamFault::Refused(misdeclared(alloc, why, &item.place)?));
    };
    match first_complaint(alloc, before, &item.place, pairs)? {
        Some(first) => Err(ParamFault::Refused(first)),
        None => Ok(written_param(alloc, &item.place, pairs)?),
    }
}

/// What is wrong with the mapping of a declaration.
fn first_complaint(
    alloc: Global,
    before: &List<Param>,
    place: &Place,
    pairs: &List<NodePair>,
) -> Result<Option<Complaint>, Memory>
    ensures { IfOk result (λ first. first ≡ first_of (complaints_of before.now place.now pairs.now)) }
{
    let first = heading_complaint(alloc, before, place, pairs)?;
    let first = earlier(first, default_in(alloc, pairs)?);
    let first = earlier(first, name_complaint(alloc, place, name_of(pairs))?);
    let first = earlier(first, values_complaint(alloc, under("values", pairs))?);
    Ok(earlier(first, keys_complaint(alloc, pairs)?))
}

/// What is wrong with the type, or with a name that was declared before.
fn heading_complaint(
    alloc: Global,
    before: &List<Param>,
    place: &Place,
    pairs: &List<NodePair>,
) -> Result<Option<Complaint>, Memory>
    ensures { IfOk result (λ first. first ≡
        earlier place_of (kind_complaint (name_of pairs.now) (under (codes "type") pairs.now))
        (again_complaint before.now place.now (name_of pairs.now))) }
{
    let name = name_of(pairs);
    let first = kind_complaint(alloc, name, under("type", pairs))?;
    Ok(earlier(first, again_complaint(alloc, before, place, name)?))
}

/// What is wrong with the default.
fn default_in(alloc: Global, pairs: &List<NodePair>) -> Result<Option<Complaint>, Memory>
    ensures { IfOk result (λ first. first ≡ default_complaint (name_of pairs.now)
        (kind_of pairs.now) (values_of pairs.now) (under (codes "default") pairs.now)) }
{
    let values = values_of(alloc, pairs)?;
    let default = under("default", pairs);
    default_complaint(alloc, name_of(pairs), kind_of(pairs), &values, default)
}

/// The parameter that a pair of the older form declares behind those before it.
fn declare_pair(alloc: Global, before: &List<Param>, pair: &NodePair) -> Result<Param, ParamFault>
    ensures { Gives result (pair_param before.now pair.now) }
{
    match pair_complaint(alloc, before, pair)? {
        Some(first) => Err(ParamFault::Refused(first)),
        None => Ok(object_param(alloc, pair)?),
    }
}

fn pair_complaint(
    alloc: Global,
    before: &List<Param>,
    pair: &NodePair,
) -> Result<Option<Complaint>, Memory>
    ensures { IfOk result (λ first. first ≡ pair_complaint before.now pair.now) }
{
    let name = pair.key.as_str();
    let first = again_complaint(alloc, before, &pair.key_place, name)?;
    Ok(earlier(first, name_complaint(alloc, &pair.key_place, name)?))
}

/// An object of that name and default.
fn object_param(alloc: Global, pair: &NodePair) -> Result<Param, Memory>
    ensures { IfOk result (λ param. param ≡ object_param pair.now) }
{
    let name = pair.key.copy(alloc)?;
    let place = pair.key_place.copy(alloc)?;
    let default = Some(pair.item.copy(alloc)?);
    Ok(Param {
        name,
        place,
        kind: ParamKind::Object,
        default,
        values: List::new(alloc),
    })
}
