ghost use Rattle.std.specs.Prelude.{◌≡◌, ◌+◌, false, codes, map, IfOk};
ghost use Rattle.std.specs.Option.{option_copied};
ghost use Rattle.pl_base.specs.declared.value.Value.{out-Value};
ghost use Rattle.pl_base.specs.Texts.{is};
ghost use Rattle.pl_calls.specs.Gives.{GivesFrom};
ghost use Rattle.pl_directives.specs.Complaints.{refused};
ghost use Rattle.pl_directives.specs.Gives.{Gives};
ghost use Rattle.pl_directives.specs.Misfits.{problem_of};
ghost use Rattle.pl_extends.specs.Rooting.{filled_with, chained, counting, has_form, misplaced};
ghost use Rattle.pl_extends.specs.Rooting.{extends_misplaced, form_misplaced, unless_misplaced};
ghost use Rattle.pl_extends.specs.Rooting.{extended_behind, key_put, named_put};
ghost use Rattle.pl_extends.specs.Rooting.{item_put};
ghost use Rattle.pl_extends.specs.Rooting.{given_by, given_put, all_given_put, value_put, text_put};
ghost use Rattle.pl_extends.specs.Rooting.{pairs_put, turns_put, asked_put};
ghost use Rattle.pl_extends.specs.Rooting.{node_seen, body_seen, pair_seen};

use crate::extending::{Extension, extend, extend_value};
use crate::forms::{form_place, is_form};
use pl_base::{
    ExactCopy, List, MarkedNode, MarkedPair, Memory, Node, NodeBody, NodePair, Place, Text, Value,
};
use pl_budgets::Budget;
use pl_calls::{Files, Reach};
use pl_directives::{
    Action, Chain, Content, Counted, ExpandFault, ExpandProblem, MadeKey, Misfit, Progress, Region,
    Standing, Turns, complain, enter, key_asks, put_pair, scalar_value,
};
use pl_frame::{Frame, within};
use pl_recursion::{MOST_LEVELS, MOST_OPEN, Scope, fill_key, settle_node, with_item};
use std::alloc::Global;

/// The root's pairs so far, and what the template gives that it extends.
#[derive(Drop)]
pub struct RootFilling {
    pub progress: Progress,
    pub extension: Option<Extension>,
}

/// Where the root's mapping stands.
pub const ROOT: Standing = Standing {
    region: Region::Free,
    levels: MOST_OPEN,
    calls: MOST_LEVELS,
};

impl RootFilling {
    /// The same behind another chain of branches.
    pub fn chained(self, chain: Chain) -> RootFilling
        ensures { result ≡ chained chain self }
    {
        RootFilling {
            progress: self.progress.chained(chain),
            extension: self.extension,
        }
    }

    /// The same with another count.
    fn counting(self, count: u32) -> RootFilling
        ensures { result ≡ counting count self }
    {
        RootFilling {
            progress: self.progress.counting(count),
            extension: self.extension,
        }
    }

    /// The same with what a template gives.
    fn extended(self, extension: Extension) -> RootFilling
        ensures { result ≡ extended_behind self extension }
    {
        RootFilling {
            progress: self.progress.at(Chain::Closed, extension.count),
            extension: Some(extension),
        }
    }
}

/// Whether a key of the root's own jobs is there.
fn has_form(content: &Content) -> bool
    ensures { result ≡ has_form content.now }
{
    match content {
        Content::Pairs(pairs) => match form_place(pairs) {
            Some(_) => true,
            None => false,
        },
        Content::Items(_) | Content::Unknown => false,
    }
}

/// What is wrong with the key `extends`.
fn extends_misplaced(extension: Option<&Extension>, forms: bool) -> Option<ExpandProblem>
    ensures { result ≡ extends_misplaced (option_copied extension.entry) forms }
{
    match extension {
        Some(_) => Some(ExpandProblem::KeyTwice),
        None if forms => Some(ExpandProblem::WrongKind),
        None => None,
    }
}

/// What is wrong with a key of the root's own jobs.
fn form_misplaced(extension: Option<&Extension>) -> Option<ExpandProblem>
    ensures { result ≡ form_misplaced (option_copied extension.entry) }
{
    match extension {
        Some(_) => Some(ExpandProblem::WrongKind),
        None => None,
    }
}

/// What is wrong with a key behind what is there.
fn misplaced(filling: &RootFilling, key: &Text) -> Option<ExpandProblem>
    ensures { result ≡ misplaced filling.now key.now }
{
    let extension = filling.extension.as_ref();
    if key.as_str() == "extends" {
        return extends_misplaced(extension, has_form(&filling.progress.content));
    }
    if is_form(key) {
        return form_misplaced(extension);
    }
    None
}

/// What is wrong, at a place.
fn unless_misplaced(
    alloc: Global,
    problem: Option<ExpandProblem>,
    place: &Place,
) -> Result<(), ExpandFault>
    ensures { Gives result (unless_misplaced problem place.now) }
{
    match problem {
        None => Ok(()),
        Some(problem) => {
            let first = complain(alloc, problem, place)?;
            Err(ExpandFault::Refused(first))
        }
    }
}

/// A pair of another key than `extends`.
fn put_ordinary<F: Files>(
    alloc: Global,
    made: MadeKey,
    node: &Node,
    frame: &Frame,
    filling: RootFilling,
    reach: &mut Reach<'_, F>,
) -> Result<RootFilling, ExpandFault>
    ensures filled { GivesFrom F.files result reach.old reach.new (λ opens. key_put false made.key
        made.origin node.now opens frame.now filling) }
{
    let RootFilling {
        progress,
        extension,
    } = filling;
    let scope = Scope { frame, at: ROOT };
    let progress = fill_key(alloc, made, node, scope, progress, reach)?;
    Ok(RootFilling {
        progress,
        extension,
    })
}

/// The pair of `extends`, or another one.
fn put_key<F: Files>(
    alloc: Global,
    made: MadeKey,
    node: &Node,
    frame: &Frame,
    filling: RootFilling,
    reach: &mut Reach<'_, F>,
) -> Result<RootFilling, ExpandFault>
    ensures filled { GivesFrom F.files result reach.old reach.new (λ opens. key_put (is made.key
        (codes "extends")) made.key made.origin node.now opens frame.now filling) }
{
    if made.key.as_str() == "extends" {
        let count = filling.progress.count;
        let extension = extend(alloc, &made.origin, node, frame, count, reach)?;
        return Ok(filling.extended(extension));
    }
    put_ordinary(alloc, made, node, frame, filling, reach)
}

/// A pair whose key is known. X9 at a key of the root's own jobs behind `extends`, and at `extends`
/// behind such a key; X15 at a second `extends`.
fn put_named<F: Files>(
    alloc: Global,
    made: MadeKey,
    node: &Node,
    frame: &Frame,
    filling: RootFilling,
    reach: &mut Reach<'_, F>,
) -> Result<RootFilling, ExpandFault>
    ensures filled { GivesFrom F.files result reach.old reach.new (λ opens. named_put made.key
        made.origin node.now opens frame.now filling) }
{
    unless_misplaced(alloc, misplaced(&filling, &made.key), &made.origin.source)?;
    put_key(alloc, made, node, frame, filling, reach)
}

/// A pair that an expression gave, once the calls in it were followed.
fn put_item(
    alloc: Global,
    pair: &MarkedPair,
    filling: RootFilling,
    one: Counted,
) -> Result<RootFilling, ExpandFault>
    ensures { Gives result (item_put pair.now filling one) }
{
    let RootFilling {
        progress,
        extension,
    } = filling;
    let Counted { node, count } = one;
    let pair = with_item(alloc, pair, node)?;
    let progress = put_pair(alloc, pair, count, progress)?;
    Ok(RootFilling {
        progress,
        extension,
    })
}

/// A pair that an expression gave: that of `extends`, or another one.
#[tactic(auto, using(pl_calls::proofs::Alone::gives_alone))]
fn put_given_by<F: Files>(
    alloc: Global,
    pair: &MarkedPair,
    frame: &Frame,
    filling: RootFilling,
    reach: &mut Reach<'_, F>,
) -> Result<RootFilling, ExpandFault>
    ensures filled { GivesFrom F.files result reach.old reach.new (λ opens. given_by (is
        pair.now.key (codes "extends")) pair.now opens frame.now filling) }
{
    let count = filling.progress.count;
    let item = &pair.item;
    if pair.key.as_str() == "extends" {
        let place = &item.origin.source;
        let key = &pair.key_origin;
        let extension = extend_value(alloc, key, place, item, frame, count, reach)?;
        return Ok(filling.extended(extension));
    }
    let at = ROOT.under(&pair.key);
    let one = settle_node(alloc, item, Scope { frame, at }, count, reach)?;
    put_item(alloc, pair, filling, one)
}

/// A pair that an expression gave, judged by its key first.
fn put_given<F: Files>(
    alloc: Global,
    pair: &MarkedPair,
    frame: &Frame,
    filling: RootFilling,
    reach: &mut Reach<'_, F>,
) -> Result<RootFilling, ExpandFault>
    ensures filled { GivesFrom F.files result reach.old reach.new (λ opens. given_put pair.now opens
        frame.now filling) }
{
    unless_misplaced(
        alloc,
        misplaced(&filling, &pair.key),
        &pair.key_origin.source,
    )?;
    put_given_by(alloc, pair, frame, filling, reach)
}

/// Pairs that an expression gave.
fn put_all_given<F: Files>(
    alloc: Global,
    pairs: &List<MarkedPair>,
    frame: &Frame,
    filling: RootFilling,
    reach: &mut Reach<'_, F>,
) -> Result<RootFilling, ExpandFault>
    ensures filled { GivesFrom F.files result reach.old reach.new (λ opens. all_given_put pairs.now
        opens frame.now filling) }
{
    let mut after = filling;
    for pair in pairs.as_slice() {
        after = put_given(alloc, pair, frame, after, reach)?;
    }
    Ok(after)
}

/// X8 or X9 at a place.
fn misfit_at(alloc: Global, misfit: Misfit, place: &Place) -> Result<RootFilling, ExpandFault>
    ensures { Gives result (refused (problem_of misfit) place.now) }
{
    let first = complain(alloc, misfit.problem(), place)?;
    Err(ExpandFault::Refused(first))
}

/// The pairs of a value in a directive's place.
#[tactic(auto, using(pl_calls::proofs::Alone::gives_alone))]
fn put_value<F: Files>(
    alloc: Global,
    value: &Value,
    misfit: Misfit,
    place: &Place,
    frame: &Frame,
    filling: RootFilling,
    reach: &mut Reach<'_, F>,
) -> Result<RootFilling, ExpandFault>
    ensures filled { GivesFrom F.files result reach.old reach.new (λ opens. value_put (out-Value
        value.now) (problem_of misfit) place.now opens frame.now filling) }
{
    match value {
        Value::Object(pairs) => put_all_given(alloc, pairs, frame, filling, reach),
        _ => misfit_at(alloc, misfit, place),
    }
}

/// A scalar in a directive's place.
fn put_text<F: Files>(
    alloc: Global,
    text: &Text,
    misfit: Misfit,
    place: &Place,
    frame: &Frame,
    filling: RootFilling,
    reach: &mut Reach<'_, F>,
) -> Result<RootFilling, ExpandFault>
    ensures filled { GivesFrom F.files result reach.old reach.new (λ opens. text_put text.now
        (problem_of misfit) place.now opens frame.now filling) }
{
    let one = scalar_value(alloc, text, frame, place, filling.progress.count)?;
    let filling = filling.counting(one.count);
    put_value(alloc, &one.node.value, misfit, place, frame, filling, reach)
}

/// Where a part of the root file is expanded: its frame, and how many nodes may still stand in it
/// in one another.
#[derive(Clone, Copy)]
pub struct Spot<'f> {
    pub frame: &'f Frame,
    pub levels: u32,
}

impl<'f> Spot<'f> {
    /// That of what is in a node. Memory comes where the node may hold none.
    fn below(self) -> Result<Spot<'f>, Memory>
        ensures frame { IfOk result (λ spot. spot.frame ≡ self.entry.frame) }
        ensures levels { IfOk result (λ spot. spot.levels + 1 ≡ self.entry.levels) }
    {
        let Some(levels) = self.levels.checked_sub(1) else {
            return Err(self.frame.meter().pass(Budget::Open));
        };
        Ok(Spot {
            frame: self.frame,
            levels,
        })
    }
}

/// A pair of the root file after directives.
#[cycle(rooting)]
pub fn put_pair_of<F: Files>(
    alloc: Global,
    pair: &NodePair,
    spot: Spot<'_>,
    filling: RootFilling,
    reach: &mut Reach<'_, F>,
) -> Result<RootFilling, ExpandFault>
    ensures filled { GivesFrom F.files result reach.old reach.new (λ opens. (pair_seen pair.now).put
        opens spot.entry.frame.now filling) }
{
    let chain = filling.progress.chain;
    let count = filling.progress.count;
    let action = key_asks(alloc, &pair.key, spot.frame, &pair.key_place, chain, count)?;
    put_asked(alloc, action, &pair.item, spot, filling, reach)
}

/// What a key asked for.
#[cycle(rooting)]
#[tactic(auto, using(crate::proofs::Itself::node_itself))]
fn put_asked<F: Files>(
    alloc: Global,
    action: Action,
    node: &Node,
    spot: Spot<'_>,
    filling: RootFilling,
    reach: &mut Reach<'_, F>,
) -> Result<RootFilling, ExpandFault>
    ensures filled { GivesFrom F.files result reach.old reach.new (λ opens. asked_put action
        (node_seen node.now) opens spot.entry.frame.now filling) }
{
    match action {
        Action::Put(key, origin) => {
            let made = MadeKey { key, origin };
            put_named(alloc, made, node, spot.frame, filling, reach)
        }
        Action::Run(chain) => {
            let after = put_node(alloc, node, Misfit::WrongKind, spot, filling, reach)?;
            Ok(after.chained(chain))
        }
        Action::Pass(chain) => Ok(filling.chained(chain)),
        Action::Repeat(turns, count) => {
            let begun = filling.counting(count).chained(Chain::Closed);
            put_turns(alloc, &turns, node, spot, begun, reach)
        }
        Action::Insert => {
            let misfit = Misfit::InsertNoMapping;
            put_node(alloc, node, misfit, spot, filling, reach)
        }
    }
}

/// A node in a loop's place, once for each item.
#[cycle(rooting)]
fn put_turns<F: Files>(
    alloc: Global,
    turns: &Turns,
    node: &Node,
    spot: Spot<'_>,
    filling: RootFilling,
    reach: &mut Reach<'_, F>,
) -> Result<RootFilling, ExpandFault>
    ensures filled { GivesFrom F.files result reach.old reach.new (λ opens. turns_put turns.now.name
        (node_seen node.now) turns.now.items opens spot.entry.frame.now filling) }
{
    let mut after = filling;
    for item in turns.items.as_slice() {
        let inner = within(alloc, spot.frame, &turns.name, item.copy(alloc)?)?;
        let turn = Spot {
            frame: &inner,
            levels: spot.levels,
        };
        after = put_node(alloc, node, Misfit::WrongKind, turn, after, reach)?;
    }
    Ok(after)
}

/// A node in a directive's place.
#[cycle(rooting)]
fn put_node<F: Files>(
    alloc: Global,
    node: &Node,
    misfit: Misfit,
    spot: Spot<'_>,
    filling: RootFilling,
    reach: &mut Reach<'_, F>,
) -> Result<RootFilling, ExpandFault>
    ensures filled { GivesFrom F.files result reach.old reach.new (λ opens. (node_seen node.now).put
        (problem_of misfit) opens spot.entry.frame.now filling) }
{
    let filling = filling.chained(Chain::Closed);
    let after = put_body(alloc, node, misfit, spot, filling, reach)?;
    Ok(after.chained(Chain::Closed))
}

/// What stands in a directive's place.
#[cycle(rooting)]
#[tactic(auto, using(pl_calls::proofs::Alone::gives_alone))]
fn put_body<F: Files>(
    alloc: Global,
    node: &Node,
    misfit: Misfit,
    spot: Spot<'_>,
    filling: RootFilling,
    reach: &mut Reach<'_, F>,
) -> Result<RootFilling, ExpandFault>
    ensures filled { GivesFrom F.files result reach.old reach.new (λ opens. (body_seen
        node.now.body).put (problem_of misfit) node.now.place opens spot.entry.frame.now filling) }
{
    let place = &node.place;
    match &node.body {
        NodeBody::Scalar(text) => {
            put_text(alloc, text, misfit, place, spot.frame, filling, reach)
        }
        NodeBody::Seq(_) => {
            enter(alloc, place, filling.progress.count)?;
            misfit_at(alloc, misfit, place)
        }
        NodeBody::Map(pairs) => {
            let count = enter(alloc, place, filling.progress.count)?;
            let filling = filling.counting(count);
            put_pairs(alloc, pairs, spot.below()?, filling, reach)
        }
    }
}

/// Pairs of the root file after directives.
#[cycle(rooting)]
fn put_pairs<F: Files>(
    alloc: Global,
    pairs: &List<NodePair>,
    spot: Spot<'_>,
    filling: RootFilling,
    reach: &mut Reach<'_, F>,
) -> Result<RootFilling, ExpandFault>
    ensures filled { GivesFrom F.files result reach.old reach.new (λ opens. pairs_put (map pair_seen
        pairs.now) opens spot.entry.frame.now filling) }
{
    let mut after = filling;
    for pair in pairs.as_slice() {
        after = put_pair_of(alloc, pair, spot, after, reach)?;
    }
    Ok(after)
}
