ghost use Rattle.std.specs.Prelude.{◌≡◌, filter, IfOk};
ghost use Rattle.std.specs.Option.{option_copied, option_map};
ghost use Rattle.pl_calls.specs.Gives.{GivesFrom};
ghost use Rattle.pl_directives.specs.Gives.{Gives};
ghost use Rattle.pl_recursion.specs.Levels.{followed};
ghost use Rattle.pl_expand.specs.Tree.{early_by, given_to, early_behind, root_pair, root_pairs};
ghost use Rattle.pl_expand.specs.Tree.{put_variables, stands, root_object, root_mapping};
ghost use Rattle.pl_expand.specs.Tree.{filled_root, root_from};
ghost use Rattle.pl_expand.specs.Tree.{filled_in, file_of, variables_pair, object_pairs};
ghost use Rattle.pl_root.specs.Keys.{root_key};

use crate::merging::merge;
use crate::root::{RootMapping, RootNode};
use pl_base::{
    ExactCopy, FileKey, List, MarkedNode, MarkedPair, Memory, Node, NodePair, Origin, Place, Value,
};
use pl_calls::{Files, Reach};
use pl_directives::{
    Chain, Content, ExpandFault, ExpandProblem, Form, Kind, Progress, Region, Standing, begin,
    complain, put_pair,
};
use pl_extends::{Extension, RootFilling, Spot, judge_keys, put_pair_of};
use pl_frame::{Frame, literal_at};
use pl_recursion::{MOST_LEVELS, MOST_OPEN, Scope, expand_node};
use pl_root::{RootKey, second_frame};
use std::alloc::Global;

/// The root's variables, which are expanded before all else, and the count behind them.
#[derive(Drop)]
pub struct Early {
    pub node: Option<MarkedNode>,
    pub count: u32,
}

/// The root's variables.
pub fn early_by<F: Files>(
    alloc: Global,
    node: Option<&Node>,
    frame: &Frame,
    count: u32,
    reach: &mut Reach<'_, F>,
) -> Result<Early, ExpandFault>
    ensures early { GivesFrom F.files result reach.old reach.new (λ opens. early_by (option_copied
        node.entry) (followed 100 opens) frame.now count) }
{
    let Some(node) = node else {
        return Ok(Early { node: None, count });
    };
    let at = Standing {
        region: Region::Calls(Form::Variables),
        levels: MOST_OPEN,
        calls: MOST_LEVELS,
    };
    let one = expand_node(alloc, node, Scope { frame, at }, count, reach)?;
    Ok(Early {
        node: Some(one.node),
        count: one.count,
    })
}

/// Takes the early value for the first key `variables`.
fn given_to(key: RootKey, early: &mut Option<MarkedNode>) -> Option<MarkedNode>
    ensures given { result ≡ given_to key early.old }
    ensures left { early.new ≡ early_behind key early.old }
{
    match key {
        RootKey::Variables => early.take(),
        _ => None,
    }
}

/// The pair of the root's variables.
fn put_variables(
    alloc: Global,
    node: MarkedNode,
    pair: &NodePair,
    frame: &Frame,
    progress: Progress,
) -> Result<Progress, ExpandFault>
    ensures { Gives result (put_variables node pair.now frame.now progress) }
{
    let key = pair.key.copy(alloc)?;
    let key_origin = literal_at(alloc, frame, &pair.key_place)?;
    let made = MarkedPair {
        key,
        key_origin,
        item: node,
    };
    let count = progress.count;
    put_pair(alloc, made, count, progress)
}

/// The pair of the root's variables, where their value is known.
fn fill_variables(
    alloc: Global,
    node: MarkedNode,
    pair: &NodePair,
    frame: &Frame,
    filling: RootFilling,
) -> Result<RootFilling, ExpandFault>
    ensures { Gives result (variables_pair node pair.now frame.now filling) }
{
    let RootFilling {
        progress,
        extension,
    } = filling;
    let progress = put_variables(alloc, node, pair, frame, progress)?;
    Ok(RootFilling {
        progress,
        extension,
    })
}

/// A pair of the root's mapping.
#[tactic(auto, using(pl_calls::proofs::Alone::gives_alone))]
fn fill_root_pair<F: Files>(
    alloc: Global,
    pair: &NodePair,
    early: Option<MarkedNode>,
    frame: &Frame,
    filling: RootFilling,
    reach: &mut Reach<'_, F>,
) -> Result<RootFilling, ExpandFault>
    ensures filled { GivesFrom F.files result reach.old reach.new (λ opens. root_pair (root_key
        pair.now.key) early pair.now opens frame.now filling) }
{
    let spot = Spot {
        frame,
        levels: MOST_OPEN,
    };
    match RootKey::of(&pair.key) {
        RootKey::Parameters | RootKey::Resources => Ok(filling.chained(Chain::Closed)),
        RootKey::Variables => match early {
            Some(node) => fill_variables(alloc, node, pair, frame, filling),
            None => put_pair_of(alloc, pair, spot, filling, reach),
        },
        RootKey::Extends | RootKey::Other => { put_pair_of(alloc, pair, spot, filling, reach) }
    }
}

/// The pairs of the root's mapping.
fn fill_root_pairs<F: Files>(
    alloc: Global,
    early: Option<MarkedNode>,
    pairs: &List<NodePair>,
    frame: &Frame,
    filling: RootFilling,
    reach: &mut Reach<'_, F>,
) -> Result<RootFilling, ExpandFault>
    ensures filled { GivesFrom F.files result reach.old reach.new (λ opens. root_pairs early
        pairs.now opens frame.now filling) }
{
    let mut left = early;
    let mut after = filling;
    for pair in pairs.as_slice() {
        let given = given_to(RootKey::of(&pair.key), &mut left);
        after = fill_root_pair(alloc, pair, given, frame, after, reach)?;
    }
    Ok(after)
}

/// Whether a pair of the root stands in the tree.
fn stands(pair: &MarkedPair) -> bool
    ensures { result ≡ stands pair.now }
{
    match pair.key.as_str() {
        "parameters" | "resources" | "extends" => false,
        _ => true,
    }
}

/// The pairs of the root that stand in the tree.
fn standing(alloc: Global, pairs: List<MarkedPair>) -> Result<List<MarkedPair>, Memory>
    ensures { IfOk result (λ kept. kept ≡ filter stands pairs) }
{
    let mut kept = List::new(alloc);
    for pair in pairs.into_vec() {
        if stands(&pair) {
            kept.push(pair)?;
        }
    }
    Ok(kept)
}

/// The pairs of the root's object, with those that the template gives that it extends.
fn object_pairs(
    alloc: Global,
    extension: Option<Extension>,
    pairs: List<MarkedPair>,
) -> Result<List<MarkedPair>, ExpandFault>
    ensures { Gives result (object_pairs extension pairs) }
{
    judge_keys(alloc, &pairs)?;
    merge(alloc, extension, standing(alloc, pairs)?)
}

/// The root's object, with what the template gives that it extends.
fn root_object(
    alloc: Global,
    extension: Option<Extension>,
    origin: Origin,
    content: Content,
) -> Result<MarkedNode, ExpandFault>
    ensures { Gives result (root_object extension origin content) }
{
    match content {
        Content::Pairs(pairs) => {
            let all = object_pairs(alloc, extension, pairs)?;
            Ok(MarkedNode {
                origin,
                value: Value::Object(all),
            })
        }
        Content::Items(_) | Content::Unknown => {
            let first = complain(alloc, ExpandProblem::WrongKind, &origin.source)?;
            Err(ExpandFault::Refused(first))
        }
    }
}

/// The file of an extension.
fn file_of(alloc: Global, extension: Option<&Extension>) -> Result<Option<FileKey>, Memory>
    ensures { IfOk result (λ file. file ≡ option_map file_of (option_copied extension.entry)) }
{
    match extension {
        Some(extension) => Ok(Some(extension.file.copy(alloc)?)),
        None => Ok(None),
    }
}

/// The root's node, once its pairs are there.
fn root_from(alloc: Global, origin: Origin, filling: RootFilling) -> Result<RootNode, ExpandFault>
    ensures { Gives result (root_from origin filling) }
{
    let RootFilling {
        progress,
        extension,
    } = filling;
    let Progress {
        content,
        chain: _,
        count,
    } = progress;
    let extends = file_of(alloc, extension.as_ref())?;
    let node = root_object(alloc, extension, origin, content)?;
    Ok(RootNode {
        node,
        extends,
        count,
    })
}

/// The root's mapping, in its frame.
#[tactic(auto, using(pl_calls::proofs::Alone::gives_alone))]
fn fill_in<F: Files>(
    alloc: Global,
    place: &Place,
    pairs: &List<NodePair>,
    frame: &Frame,
    early: Early,
    reach: &mut Reach<'_, F>,
) -> Result<RootNode, ExpandFault>
    ensures filled { GivesFrom F.files result reach.old reach.new (λ opens. filled_in place.now
        pairs.now frame.now opens early) }
{
    let Early { node, count } = early;
    let filling = RootFilling {
        progress: begin(alloc, Kind::Pairs, Chain::Closed, count),
        extension: None,
    };
    let filling = fill_root_pairs(alloc, node, pairs, frame, filling, reach)?;
    let origin = literal_at(alloc, frame, place)?;
    root_from(alloc, origin, filling)
}

/// The root's mapping, once its variables were expanded.
pub fn fill_root<F: Files>(
    alloc: Global,
    root: &RootMapping<'_>,
    early: Early,
    reach: &mut Reach<'_, F>,
) -> Result<RootNode, ExpandFault>
    ensures filled { GivesFrom F.files result reach.old reach.new (λ opens. filled_root
        (root_mapping root.now.file.now root.now.place.now root.now.pairs.now
        root.now.parameters.now) opens early) }
{
    let early_node = early.node.as_ref();
    let frame = second_frame(alloc, root.file, root.parameters, early_node, root.meter)?;
    fill_in(alloc, root.place, root.pairs, &frame, early, reach)
}
