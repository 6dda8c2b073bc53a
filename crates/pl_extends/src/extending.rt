ghost use Rattle.std.specs.Prelude.{◌≡◌, [], IfOk};
ghost use Rattle.pl_base.specs.declared.origin.Crossing.TheVariants.{Extends};
ghost use Rattle.pl_calls.specs.Frames.{template_seen, framed_by};
ghost use Rattle.std.specs.Option.{option_copied};
ghost use Rattle.pl_calls.specs.Gives.{GivesFrom};
ghost use Rattle.pl_calls.specs.Nodes.{GivesPairs};
ghost use Rattle.pl_calls.specs.Judging.{stray, unless_at, may_give};
ghost use Rattle.pl_directives.specs.Gives.{Gives};
ghost use Rattle.pl_directives.specs.declared.fault.ExpandProblem.TheVariants.{KeyTwice};
ghost use Rattle.pl_directives.specs.declared.region.Region.TheVariants.{Free};
ghost use Rattle.pl_frame.specs.Doubles.{first_double};
ghost use Rattle.pl_recursion.specs.Following.{scope_of};
ghost use Rattle.pl_recursion.specs.Levels.{followed};
ghost use Rattle.pl_extends.specs.Extending.{path_in, mapping_from, value_from, argument_behind};
ghost use Rattle.pl_extends.specs.Extending.{arguments_behind, may_extend, extended_pairs};
ghost use Rattle.pl_extends.specs.Extending.{body_pair, body_pairs, pairs_there, body_filled};
ghost use Rattle.pl_extends.specs.Extending.{opened_filled, reached_filled, mapping_extended};
ghost use Rattle.pl_extends.specs.Extending.{extension_of, shown, argument_given, arguments_given};
ghost use Rattle.pl_extends.specs.Extending.{item_under, given_extended, value_extended};
ghost use Rattle.pl_extends.specs.Extending.{is_plain, are_plain, pairs_extended, text_extended};
ghost use Rattle.pl_extends.specs.Extending.{asking, extended};
ghost use Rattle.pl_calls.specs.Seeing.{pairs_of as given_of};
ghost use Rattle.pl_template.specs.Forms.{form_of};
ghost use Rattle.pl_template.specs.Keys.{key_form_of};

use pl_base::{
    Crossing, ExactCopy, FileKey, List, MarkedNode, MarkedPair, Memory, Node, NodeBody, NodePair,
    Origin, Place, Shared, Text, Value,
};
use pl_calls::{
    Files, Opened, Reach, Template, arguments_at, framed_by, may_give, node_in, open, path_text,
    template_in, under,
};
use pl_directives::{
    Chain, Content, Counted, ExpandFault, ExpandProblem, Kind, Progress, Region, Standing, begin,
    enter, refuse, scalar_value,
};
use pl_frame::{Frame, first_double};
use pl_recursion::{
    MOST_LEVELS, MOST_OPEN, Scope, SettledPairs, expand_node, expand_path, fill_pair,
};
use pl_template::{KeyForm, key_form};
use std::alloc::Global;

/// What the template that is extended gives: its file, its pairs, and the count behind them.
#[derive(Drop)]
pub struct Extension {
    pub file: FileKey,
    pub pairs: List<MarkedPair>,
    pub count: u32,
}

/// Where arguments stand: nothing in them is a call yet.
const ARGUMENTS: Standing = Standing {
    region: Region::Quiet,
    levels: MOST_OPEN,
    calls: MOST_LEVELS,
};

/// How many levels of templates may be called from the one that is extended.
const LEVELS_LEFT: u32 = 99;

/// Where the pairs of the template that is extended stand.
const EXTENDED: Standing = Standing {
    region: Region::Free,
    levels: MOST_OPEN,
    calls: LEVELS_LEFT,
};

/// The path. X9 where there is none.
fn path_in(
    alloc: Global,
    pairs: &List<NodePair>,
    place: &Place,
    frame: &Frame,
    count: u32,
) -> Result<Counted, ExpandFault>
    ensures { Gives result (path_in pairs.now place.now frame.now count) }
{
    match under("template", pairs) {
        Some(path) => expand_path(alloc, path, frame, count),
        None => refuse(alloc, ExpandProblem::WrongKind, place),
    }
}

/// A mapping of arguments. X9 where they are none.
fn mapping_from(alloc: Global, one: Counted) -> Result<SettledPairs, ExpandFault>
    ensures { Gives result (mapping_from one) }
{
    let Counted { node, count } = one;
    let MarkedNode { origin, value } = node;
    match value {
        Value::Object(pairs) => Ok(SettledPairs { pairs, count }),
        _ => refuse(alloc, ExpandProblem::WrongKind, &origin.source),
    }
}

/// The arguments that a node gives.
#[tactic(auto, using(pl_calls::proofs::Alone::gives_alone))]
fn value_from<F: Files>(
    alloc: Global,
    node: &Node,
    frame: &Frame,
    count: u32,
    reach: &mut Reach<'_, F>,
) -> Result<SettledPairs, ExpandFault>
    ensures given { GivesFrom F.files result reach.old reach.new (λ opens. value_from node.now
        (followed 100 opens) frame.now count) }
{
    let scope = Scope {
        frame,
        at: ARGUMENTS,
    };
    let one = expand_node(alloc, node, scope, count, reach)?;
    mapping_from(alloc, one)
}

/// What a pair beside the path gives. X9 at another key than `parameters`.
#[tactic(auto, using(pl_calls::proofs::Alone::gives_alone))]
fn argument_behind<F: Files>(
    alloc: Global,
    pair: &NodePair,
    frame: &Frame,
    before: SettledPairs,
    reach: &mut Reach<'_, F>,
) -> Result<SettledPairs, ExpandFault>
    ensures given { GivesFrom F.files result reach.old reach.new (λ opens. argument_behind pair.now
        (followed 100 opens) frame.now before) }
{
    match pair.key.as_str() {
        "template" => Ok(before),
        "parameters" => value_from(alloc, &pair.item, frame, before.count, reach),
        _ => refuse(alloc, ExpandProblem::WrongKind, &pair.key_place),
    }
}

/// The arguments.
fn arguments_in<F: Files>(
    alloc: Global,
    pairs: &List<NodePair>,
    frame: &Frame,
    count: u32,
    reach: &mut Reach<'_, F>,
) -> Result<SettledPairs, ExpandFault>
    ensures given { GivesFrom F.files result reach.old reach.new (λ opens. arguments_behind
        pairs.now (followed 100 opens) frame.now (record { pairs = []; count = count })) }
{
    let mut given = SettledPairs {
        pairs: List::new(alloc),
        count,
    };
    for pair in pairs.as_slice() {
        given = argument_behind(alloc, pair, frame, given, reach)?;
    }
    Ok(given)
}

/// Whether a key may stand in a template that is extended.
fn may_extend(key: &Text) -> bool
    ensures { result ≡ may_extend key.now }
{
    match key.as_str() {
        "parameters" | "stages" | "jobs" | "steps" | "variables" | "pool" | "lockBehavior" => true,
        _ => false,
    }
}

/// The first key that may not stand there.
#[tactic(auto, using(pl_base::proofs::Finding::find_drop_yes, pl_base::proofs::Finding::find_drop_no))]
fn stray(pairs: &List<NodePair>) -> Option<&Place>
    ensures { option_copied result ≡ stray may_extend pairs.now }
{
    for pair in pairs.as_slice() {
        if !may_extend(&pair.key) {
            return Some(&pair.key_place);
        }
    }
    None
}

/// The pairs of a template that is extended.
fn extended_pairs(alloc: Global, node: &Node) -> Result<&List<NodePair>, ExpandFault>
    ensures { GivesPairs result (extended_pairs node.now) }
{
    let pairs = template_in(alloc, node)?;
    match stray(pairs) {
        None => Ok(pairs),
        Some(place) => refuse(alloc, ExpandProblem::WrongKind, place),
    }
}

/// A pair of the template, unless it holds the declarations.
fn fill_body_pair<F: Files>(
    alloc: Global,
    pair: &NodePair,
    frame: &Frame,
    progress: Progress,
    reach: &mut Reach<'_, F>,
) -> Result<Progress, ExpandFault>
    ensures filled { GivesFrom F.files result reach.old reach.new (λ opens. body_pair pair.now
        (scope_of (followed 99 opens) frame.now Free) progress) }
{
    if pair.key.as_str() == "parameters" {
        return Ok(progress);
    }
    let scope = Scope {
        frame,
        at: EXTENDED,
    };
    fill_pair(alloc, pair, scope, progress, reach)
}

/// The template's pairs but the declarations.
fn fill_body_pairs<F: Files>(
    alloc: Global,
    pairs: &List<NodePair>,
    frame: &Frame,
    progress: Progress,
    reach: &mut Reach<'_, F>,
) -> Result<Progress, ExpandFault>
    ensures filled { GivesFrom F.files result reach.old reach.new (λ opens. body_pairs pairs.now
        (scope_of (followed 99 opens) frame.now Free) progress) }
{
    let mut after = progress;
    for pair in pairs.as_slice() {
        after = fill_body_pair(alloc, pair, frame, after, reach)?;
    }
    Ok(after)
}

fn pairs_there(alloc: Global, content: Content) -> List<MarkedPair>
    ensures { result ≡ pairs_there content }
{
    match content {
        Content::Pairs(pairs) => pairs,
        Content::Items(_) | Content::Unknown => List::new(alloc),
    }
}

/// X15 at the first key that stands before.
pub fn judge_keys(alloc: Global, pairs: &List<MarkedPair>) -> Result<(), ExpandFault>
    ensures { Gives result (unless_at KeyTwice (first_double pairs.now) tt) }
{
    match first_double(alloc, pairs)? {
        None => Ok(()),
        Some(place) => refuse(alloc, ExpandProblem::KeyTwice, &place),
    }
}

/// What the template's pairs give. X15 at the first key that stands before.
fn extension_of(alloc: Global, file: &FileKey, after: Progress) -> Result<Extension, ExpandFault>
    ensures { Gives result (extension_of file.now after) }
{
    let Progress {
        content,
        chain: _,
        count,
    } = after;
    let pairs = pairs_there(alloc, content);
    judge_keys(alloc, &pairs)?;
    let file = file.copy(alloc)?;
    Ok(Extension { file, pairs, count })
}

/// The template's body in its frame.
#[tactic(auto, using(pl_calls::proofs::Alone::gives_alone))]
fn fill_extension<F: Files>(
    alloc: Global,
    template: &Template<'_>,
    place: &Place,
    inner: &Frame,
    count: u32,
    reach: &mut Reach<'_, F>,
) -> Result<Extension, ExpandFault>
    ensures filled { GivesFrom F.files result reach.old reach.new (λ opens. body_filled
        template.now.file.now place.now template.now.pairs.now (scope_of (followed 99 opens)
        inner.now Free) count) }
{
    let count = enter(alloc, place, count)?;
    let begun = begin(alloc, Kind::Pairs, Chain::Closed, count);
    let after = fill_body_pairs(alloc, template.pairs, inner, begun, reach)?;
    extension_of(alloc, template.file, after)
}

/// The template that the path led to.
fn fill_opened<F: Files>(
    alloc: Global,
    opened: &Opened,
    shown: &Origin,
    arguments: Option<&List<MarkedPair>>,
    frame: &Frame,
    count: u32,
    reach: &mut Reach<'_, F>,
) -> Result<Extension, ExpandFault>
    ensures filled { GivesFrom F.files result reach.old reach.new (λ opens. opened_filled opened.now
        shown.now (given_of arguments.entry) (followed 99 opens) frame.now count) }
{
    let node = node_in(alloc, &opened.file)?;
    let pairs = extended_pairs(alloc, node)?;
    let template = Template {
        file: &opened.key,
        pairs,
    };
    let inner = extended_frame(alloc, &template, shown, arguments, frame)?;
    fill_extension(alloc, &template, &node.place, &inner, count, reach)
}

/// The frame of the template.
fn extended_frame(
    alloc: Global,
    template: &Template<'_>,
    shown: &Origin,
    arguments: Option<&List<MarkedPair>>,
    frame: &Frame,
) -> Result<Frame, ExpandFault>
    ensures { Gives result (framed_by (template_seen template.now) frame.now.variables (given_of
        arguments.entry) (Extends template.now.file.now) shown.now.crossings) }
{
    let border = border(alloc, template.file)?;
    framed_by(
        alloc,
        template,
        &frame.variables,
        arguments,
        &border,
        &shown.crossings,
    )
}

/// The border to the template.
fn border(alloc: Global, file: &Shared<FileKey>) -> Result<Crossing, Memory>
    ensures { IfOk result (λ crossing. crossing ≡ Extends file.now) }
{
    Ok(Crossing::Extends(file.copy(alloc)?))
}

/// The file that the path of a mapping leads to.
fn reach_file<F: Files>(
    alloc: Global,
    at: &Place,
    path: &Text,
    shown: &Origin,
    arguments: Option<&List<MarkedPair>>,
    frame: &Frame,
    count: u32,
    reach: &mut Reach<'_, F>,
) -> Result<Extension, ExpandFault>
    ensures filled { GivesFrom F.files result reach.old reach.new (λ opens. reached_filled opens
        (asking at.now path.now shown.now (given_of arguments.entry)) frame.now count) }
{
    let opened = open(alloc, at, path, reach)?;
    fill_opened(alloc, &opened, shown, arguments, frame, count, reach)
}

/// The origin that shows where a path comes from: its own, unless that crossed nothing.
#[tactic(auto, using(crate::proofs::Shown::shows_key, crate::proofs::Shown::shows_path))]
fn shown<'o>(alloc: Global, key: &'o Origin, path: &'o Origin) -> Result<&'o Origin, Memory>
    ensures { IfOk result (λ origin. origin.now ≡ shown key.now path.now) }
{
    let crossings = path.crossings.to_vec(alloc)?;
    match crossings.as_slice() {
        [] => Ok(key),
        [_first, ..] => Ok(path),
    }
}

/// `extends` of a mapping that is written without directives and computed keys: the path's text
/// first, then the arguments, in the order in which a call is judged.
fn extend_mapping<F: Files>(
    alloc: Global,
    key: &Origin,
    place: &Place,
    pairs: &List<NodePair>,
    frame: &Frame,
    count: u32,
    reach: &mut Reach<'_, F>,
) -> Result<Extension, ExpandFault>
    ensures extended { GivesFrom F.files result reach.old reach.new (λ opens. mapping_extended opens
        key.now place.now pairs.now frame.now count) }
{
    let count = enter(alloc, place, count)?;
    let one = path_in(alloc, pairs, place, frame, count)?;
    let path = path_text(alloc, &one.node)?;
    let arguments = arguments_in(alloc, pairs, frame, one.count, reach)?;
    let shown = shown(alloc, key, &one.node.origin)?;
    let given = Some(&arguments.pairs);
    let count = arguments.count;
    reach_file(alloc, place, &path, shown, given, frame, count, reach)
}

/// What a pair beside the path gives, where its mapping is there. X9 at another key than
/// `parameters`.
fn argument_given(
    alloc: Global,
    found: List<MarkedPair>,
    pair: &MarkedPair,
) -> Result<List<MarkedPair>, ExpandFault>
    ensures { Gives result (argument_given found pair.now) }
{
    if pair.key.as_str() == "template" {
        return Ok(found);
    }
    let pairs = arguments_at(alloc, pair)?;
    Ok(pairs.copy(alloc)?)
}

/// The arguments of a mapping that is there.
fn arguments_given(alloc: Global, pairs: &List<MarkedPair>) -> Result<List<MarkedPair>, ExpandFault>
    ensures { Gives result (arguments_given [] pairs.now) }
{
    let mut found = List::new(alloc);
    for pair in pairs.as_slice() {
        found = argument_given(alloc, found, pair)?;
    }
    Ok(found)
}

/// The value under a key.
#[tactic(auto, using(pl_base::proofs::Finding::find_drop_yes, pl_base::proofs::Finding::find_drop_no))]
pub fn item_under<'p>(key: &str, pairs: &'p List<MarkedPair>) -> Option<&'p MarkedNode>
    ensures { option_copied result ≡ item_under key.now pairs.now }
{
    for pair in pairs.as_slice() {
        if pair.key.as_str() == key {
            return Some(&pair.item);
        }
    }
    None
}

/// `extends` of a mapping that is there: its path first. X9 at the mapping where it has none.
#[tactic(auto, using(pl_calls::proofs::Alone::gives_alone))]
fn extend_given<F: Files>(
    alloc: Global,
    key: &Origin,
    at: &Place,
    pairs: &List<MarkedPair>,
    frame: &Frame,
    count: u32,
    reach: &mut Reach<'_, F>,
) -> Result<Extension, ExpandFault>
    ensures extended { GivesFrom F.files result reach.old reach.new (λ opens. given_extended opens
        key.now at.now pairs.now frame.now count) }
{
    let Some(path) = item_under("template", pairs) else {
        return refuse(alloc, ExpandProblem::WrongKind, at);
    };
    let text = path_text(alloc, path)?;
    let arguments = arguments_given(alloc, pairs)?;
    let shown = shown(alloc, key, &path.origin)?;
    let given = Some(&arguments);
    reach_file(alloc, at, &text, shown, given, frame, count, reach)
}

/// What the template gives that a value of the key `extends` leads to. X9 at a place where the
/// value is no mapping, at the mapping where it has no path, and at another key of it.
#[tactic(auto, using(pl_calls::proofs::Alone::gives_alone))]
pub fn extend_value<F: Files>(
    alloc: Global,
    key: &Origin,
    place: &Place,
    node: &MarkedNode,
    frame: &Frame,
    count: u32,
    reach: &mut Reach<'_, F>,
) -> Result<Extension, ExpandFault>
    ensures extended { GivesFrom F.files result reach.old reach.new (λ opens. value_extended opens
        key.now place.now node.now frame.now count) }
{
    let at = &node.origin.source;
    match &node.value {
        Value::Object(pairs) => extend_given(alloc, key, at, pairs, frame, count, reach),
        _ => refuse(alloc, ExpandProblem::WrongKind, place),
    }
}

/// Whether a key is written without an expression.
fn is_plain(alloc: Global, key: &Text) -> Result<bool, Memory>
    ensures { IfOk result (λ answer. answer ≡ is_plain (key_form_of key.now)) }
{
    match key_form(alloc, key)? {
        KeyForm::Plain => Ok(true),
        KeyForm::Computed(_)
        | KeyForm::If(_)
        | KeyForm::ElseIf(_)
        | KeyForm::Else
        | KeyForm::Each(_, _)
        | KeyForm::Insert
        | KeyForm::Bad => Ok(false),
    }
}

/// Whether all keys are.
fn are_plain(alloc: Global, pairs: &List<NodePair>) -> Result<bool, Memory>
    ensures { IfOk result (λ answer. answer ≡ are_plain pairs.now) }
{
    for pair in pairs.as_slice() {
        if !is_plain(alloc, &pair.key)? {
            return Ok(false);
        }
    }
    Ok(true)
}

/// Where the value of `extends` stands.
const IN_EXTENDS: Standing = Standing {
    region: Region::Extends,
    levels: MOST_OPEN,
    calls: MOST_LEVELS,
};

/// `extends` of a mapping.
fn extend_pairs<F: Files>(
    alloc: Global,
    key: &Origin,
    node: &Node,
    pairs: &List<NodePair>,
    frame: &Frame,
    count: u32,
    reach: &mut Reach<'_, F>,
) -> Result<Extension, ExpandFault>
    ensures extended { GivesFrom F.files result reach.old reach.new (λ opens. pairs_extended
        (are_plain pairs.now) opens key.now node.now pairs.now frame.now count) }
{
    let place = &node.place;
    if are_plain(alloc, pairs)? {
        return extend_mapping(alloc, key, place, pairs, frame, count, reach);
    }
    let scope = Scope {
        frame,
        at: IN_EXTENDS,
    };
    let one = expand_node(alloc, node, scope, count, reach)?;
    extend_value(alloc, key, place, &one.node, frame, one.count, reach)
}

/// `extends` of a text. X9 where that isn't one expression.
#[tactic(auto, using(pl_calls::proofs::Alone::gives_alone))]
fn extend_text<F: Files>(
    alloc: Global,
    key: &Origin,
    place: &Place,
    text: &Text,
    frame: &Frame,
    count: u32,
    reach: &mut Reach<'_, F>,
) -> Result<Extension, ExpandFault>
    ensures extended { GivesFrom F.files result reach.old reach.new (λ opens. text_extended
        (may_give (form_of text.now)) opens key.now place.now text.now frame.now count) }
{
    if !may_give(alloc, text)? {
        return refuse(alloc, ExpandProblem::WrongKind, place);
    }
    let one = scalar_value(alloc, text, frame, place, count)?;
    extend_value(alloc, key, place, &one.node, frame, one.count, reach)
}

/// What the template gives that the root extends, by the value of the key `extends`, which comes
/// from `key`. X9 where that is neither a mapping nor one expression that gives one, where it has
/// no path, and at another key of it.
#[tactic(auto, using(pl_calls::proofs::Alone::gives_alone))]
pub fn extend<F: Files>(
    alloc: Global,
    key: &Origin,
    node: &Node,
    frame: &Frame,
    count: u32,
    reach: &mut Reach<'_, F>,
) -> Result<Extension, ExpandFault>
    ensures extended { GivesFrom F.files result reach.old reach.new (λ opens. extended opens key.now
        node.now frame.now count) }
{
    let place = &node.place;
    match &node.body {
        NodeBody::Map(pairs) => extend_pairs(alloc, key, node, pairs, frame, count, reach),
        NodeBody::Scalar(text) => extend_text(alloc, key, place, text, frame, count, reach),
        NodeBody::Seq(_) => refuse(alloc, ExpandProblem::WrongKind, place),
    }
}
