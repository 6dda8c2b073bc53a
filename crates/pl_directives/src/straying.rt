ghost use Rattle.std.specs.Prelude.{◌≡◌};
ghost use Rattle.std.specs.Option.{option_copied};
ghost use Rattle.pl_base.specs.declared.value.Value.{out-Value};
ghost use Rattle.pl_directives.specs.Gives.{Gives};
ghost use Rattle.pl_directives.specs.Strays.{belongs, told, strays, key_stray, stray_among};
ghost use Rattle.pl_directives.specs.Strays.{given_stray, unless_stray, given_value};

use crate::fault::{ExpandFault, ExpandProblem};
use crate::progress::{Content, Counted};
use crate::refusing::complain;
use crate::region::{Region, is_template, names_template};
use crate::scalars::scalar_value;
use pl_base::{List, MarkedNode, MarkedPair, Place, Text, Value};
use pl_frame::Frame;
use std::alloc::Global;

/// Whether a key is one of a call.
fn belongs(key: &Text) -> bool
    ensures { result ≡ belongs key.now }
{
    names_template(key) || key.as_str() == "parameters"
}

/// Whether an item is a call, once its first key is there.
pub fn told(content: &Content) -> Option<bool>
    ensures { result ≡ told content.now }
{
    match content {
        Content::Unknown => None,
        Content::Items(_) => Some(false),
        Content::Pairs(pairs) => match pairs.as_slice() {
            [first, ..] => Some(names_template(&first.key)),
            [] => None,
        },
    }
}

/// Whether a key may not stand in a mapping in a region, which is a call or isn't.
fn strays(region: Region, called: bool, key: &Text) -> bool
    ensures { result ≡ strays region called key.now }
{
    match region {
        Region::Item(_) => called && !belongs(key),
        Region::Extends => !belongs(key),
        Region::Free | Region::Calls(_) | Region::Quiet => false,
    }
}

/// X9 at a place, where there is one.
fn unless_stray(alloc: Global, place: Option<&Place>) -> Result<(), ExpandFault>
    ensures { Gives result (unless_stray (option_copied place.entry)) }
{
    match place {
        None => Ok(()),
        Some(place) => {
            let first = complain(alloc, ExpandProblem::WrongKind, place)?;
            Err(ExpandFault::Refused(first))
        }
    }
}

/// A key that comes from a place, and may not stand behind what is there, if it may not.
fn key_stray<'p>(
    region: Region,
    content: &Content,
    key: &Text,
    place: &'p Place,
) -> Option<&'p Place>
    ensures { option_copied result ≡ key_stray region content.now key.now place.now }
{
    if strays(region, told(content).unwrap_or(false), key) {
        Some(place)
    } else {
        None
    }
}

/// X9 at a key's place, where it may not stand behind what is there: beside the path of a call
/// stands `parameters` alone.
pub fn judge_key(
    alloc: Global,
    region: Region,
    content: &Content,
    key: &Text,
    place: &Place,
) -> Result<(), ExpandFault>
    ensures { Gives result (unless_stray (key_stray region content.now key.now place.now)) }
{
    unless_stray(alloc, key_stray(region, content, key, place))
}

/// Where the first key comes from that may not stand in a mapping.
#[tactic(auto, using(pl_base::proofs::Finding::find_drop_yes, pl_base::proofs::Finding::find_drop_no))]
fn stray_among(region: Region, called: bool, pairs: &List<MarkedPair>) -> Option<&Place>
    ensures { option_copied result ≡ stray_among region called pairs.now }
{
    for pair in pairs.as_slice() {
        if strays(region, called, &pair.key) {
            return Some(&pair.key_origin.source);
        }
    }
    None
}

/// Where the first key of a value comes from that may not stand in a mapping that the value is put
/// into.
fn given_stray(region: Region, called: Option<bool>, value: &Value) -> Option<&Place>
    ensures { option_copied result ≡ given_stray region called (out-Value value.now) }
{
    match value {
        Value::Object(pairs) => {
            let called = called.unwrap_or(is_template(value));
            stray_among(region, called, pairs)
        }
        _ => None,
    }
}

/// X9 at the first key that a value gives for a mapping and that may not stand there.
fn judge_given(
    alloc: Global,
    region: Region,
    called: Option<bool>,
    node: &MarkedNode,
) -> Result<(), ExpandFault>
    ensures { Gives result (unless_stray (given_stray region called (out-Value node.now.value))) }
{
    unless_stray(alloc, given_stray(region, called, &node.value))
}

/// The value of a scalar that is put into a mapping in a region. X9 at the first key of it that may
/// not stand there. `called` tells whether that mapping is a call, where its first key is there.
pub fn given_value(
    alloc: Global,
    text: &Text,
    frame: &Frame,
    place: &Place,
    count: u32,
    region: Region,
    called: Option<bool>,
) -> Result<Counted, ExpandFault>
    ensures { Gives result (given_value text.now frame.now place.now count region called) }
{
    let one = scalar_value(alloc, text, frame, place, count)?;
    judge_given(alloc, region, called, &one.node)?;
    Ok(one)
}
