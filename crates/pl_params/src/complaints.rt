ghost use Rattle.std.specs.Prelude.{◌≡◌, IfOk, map};
ghost use Rattle.std.specs.Option.{option_copied};
ghost use Rattle.pl_params.specs.declared.fault.ParamProblem.TheVariants.{TypeUnknown, BadDefault};
ghost use Rattle.pl_params.specs.Complaints.{complaint};
ghost use Rattle.pl_params.specs.Declaring.{misdeclared, kind_complaint, again_complaint};
ghost use Rattle.pl_params.specs.Declaring.{default_complaint, name_complaint, values_complaint};
ghost use Rattle.pl_params.specs.Declaring.{key_complaint, first_of};
ghost use Rattle.pl_params.specs.Nodes.{found_at};

use crate::earliest::earlier;
use crate::fault::{Complaint, Misdeclared, ParamProblem};
use crate::judging::{Judged, judge, written};
use crate::kind::ParamKind;
use crate::names::is_declared;
use crate::param::Param;
use crate::parts::{is_key, text_of};
use crate::refusing::{complain, found_node};
use pl_base::{ExactCopy, List, Memory, Node, NodeBody, NodePair, Place, Text};
use std::alloc::Global;

/// A complaint about the form of a declaration.
pub fn misdeclared(alloc: Global, why: Misdeclared, place: &Place) -> Result<Complaint, Memory>
    ensures { IfOk result (λ made. made ≡ misdeclared why place.now) }
{
    complain(alloc, ParamProblem::BadDeclaration(why), place)
}

/// A type that no parameter has.
pub fn kind_complaint(
    alloc: Global,
    name: &str,
    kind: Option<&Node>,
) -> Result<Option<Complaint>, Memory>
    ensures { IfOk result (λ complaint. complaint ≡
        kind_complaint name.now (option_copied kind.entry)) }
{
    let Some(node) = kind else {
        return Ok(None);
    };
    match ParamKind::named(text_of(node)) {
        Some(_) => Ok(None),
        None => Ok(Some(unknown_kind(alloc, name, node)?)),
    }
}

fn unknown_kind(alloc: Global, name: &str, node: &Node) -> Result<Complaint, Memory>
    ensures { IfOk result (λ made. made ≡ complaint (TypeUnknown name.now (found_at node.now))
        node.now.place) }
{
    let name = Text::from_str(alloc, name)?;
    let found = found_node(alloc, node)?;
    complain(alloc, ParamProblem::TypeUnknown(name, found), &node.place)
}

/// A name that was declared before.
pub fn again_complaint(
    alloc: Global,
    before: &List<Param>,
    place: &Place,
    name: &str,
) -> Result<Option<Complaint>, Memory>
    ensures { IfOk result (λ complaint. complaint ≡ again_complaint before.now place.now name.now) }
{
    if name.is_empty() || !is_declared(before, name) {
        return Ok(None);
    }
    let name = Text::from_str(alloc, name)?;
    Ok(Some(complain(alloc, ParamProblem::Duplicate(name), place)?))
}

/// A default that isn't of its type, or isn't allowed.
pub fn default_complaint(
    alloc: Global,
    name: &str,
    kind: Option<ParamKind>,
    values: &List<Node>,
    default: Option<&Node>,
) -> Result<Option<Complaint>, Memory>
    ensures { IfOk result (λ complaint. complaint ≡ default_complaint name.now kind values.now
        (option_copied default.entry)) }
{
    let Some(kind) = kind else {
        return Ok(None);
    };
    let Some(node) = default else {
        return Ok(None);
    };
    match judge(alloc, kind, values, written(alloc, node)?)? {
        Judged::Fits(_) => Ok(None),
        Judged::NotOfType | Judged::NotAllowed => Ok(Some(bad_default(alloc, name, kind, node)?)),
    }
}

/// A default that doesn't fit, at the default.
pub fn bad_default(
    alloc: Global,
    name: &str,
    kind: ParamKind,
    node: &Node,
) -> Result<Complaint, Memory>
    ensures { IfOk result (λ made. made ≡ complaint (BadDefault name.now kind (found_at node.now))
        node.now.place) }
{
    let name = Text::from_str(alloc, name)?;
    let found = found_node(alloc, node)?;
    complain(
        alloc,
        ParamProblem::BadDefault(name, kind, found),
        &node.place,
    )
}

/// No name.
pub fn name_complaint(alloc: Global, place: &Place, name: &str) -> Result<Option<Complaint>, Memory>
    ensures { IfOk result (λ complaint. complaint ≡ name_complaint place.now name.now) }
{
    if name.is_empty() {
        Ok(Some(misdeclared(alloc, Misdeclared::NoName, place)?))
    } else {
        Ok(None)
    }
}

/// Values that are no sequence.
pub fn values_complaint(alloc: Global, values: Option<&Node>) -> Result<Option<Complaint>, Memory>
    ensures { IfOk result (λ complaint. complaint ≡ values_complaint (option_copied values.entry)) }
{
    let Some(node) = values else {
        return Ok(None);
    };
    match &node.body {
        NodeBody::Seq(_) => Ok(None),
        _ => {
            let found = found_node(alloc, node)?;
            Ok(Some(misdeclared(alloc, Misdeclared::NoValues(found), &node.place)?))
        }
    }
}

/// A key that no declaration has.
fn key_complaint(alloc: Global, pair: &NodePair) -> Result<Option<Complaint>, Memory>
    ensures { IfOk result (λ complaint. complaint ≡ key_complaint pair.now) }
{
    if is_key(&pair.key) {
        return Ok(None);
    }
    let key = pair.key.copy(alloc)?;
    Ok(Some(misdeclared(alloc, Misdeclared::UnknownKey(key), &pair.key_place)?))
}

/// The earliest key that no declaration has.
pub fn keys_complaint(alloc: Global, pairs: &List<NodePair>) -> Result<Option<Complaint>, Memory>
    ensures { IfOk result (λ complaint. complaint ≡ first_of (map key_complaint pairs.now)) }
{
    let mut first = None;
    for pair in pairs.as_slice() {
        first = earlier(first, key_complaint(alloc, pair)?);
    }
    Ok(first)
}
