ghost use Rattle.std.specs.Prelude.{◌≡◌, ◌-◌, ◌++◌, ◌∷◌, [], Some, None, IfOk};
ghost use Rattle.pl_calls.specs.Calls.{seen};
ghost use Rattle.pl_calls.specs.Gives.{GivesFrom};
ghost use Rattle.pl_directives.specs.Gives.{Gives};
ghost use Rattle.pl_recursion.specs.Following.{scope_of};
ghost use Rattle.pl_recursion.specs.Levels.{followed, below, frame_for, border};
ghost use Rattle.pl_recursion.specs.Levels.{call_in, reached, found_in, filled_in};

use crate::expanding::expand_node;
use crate::followed::Followed;
use crate::items::items_from;
use crate::scope::Scope;
use pl_base::{Crossing, ExactCopy, List, MarkedNode, Memory, Node, NodePair, Place};
use pl_calls::{
    Call, Files, Opened, Reach, Template, body_in, call_of, framed_by, judge_body, node_in, open,
    template_in,
};
use pl_directives::{ExpandFault, ExpandProblem, Form, Region, Standing, complain, enter};
use pl_frame::Frame;
use std::alloc::Global;

/// How many levels of templates may be called in one another.
pub const MOST_LEVELS: u32 = 100;

/// How many nodes may be open at once, over all calls. Stack is memory too: with one more, memory
/// is wanting.
pub const MOST_OPEN: u32 = 500;

/// A call that is followed: the call itself, the frame of its caller, the form of the list that its
/// item is of, and the count before it.
#[derive(Drop)]
struct Calling<'c> {
    call: &'c Call<'c>,
    frame: &'c Frame,
    form: Form,
    count: u32,
}

/// What the item of a call gives in its place, with so many levels left: its path and its arguments
/// first.
#[cycle(expansion)]
#[tactic(auto, using(crate::proofs::Levels::followed_by))]
pub fn follow<F: Files>(
    alloc: Global,
    item: &MarkedNode,
    scope: Scope<'_>,
    form: Form,
    count: u32,
    reach: &mut Reach<'_, F>,
) -> Result<Followed, ExpandFault>
    ensures followed { GivesFrom F.files result reach.old reach.new (λ opens. followed
        scope.entry.at.calls opens scope.entry.frame.now form item.now count) }
{
    let call = call_of(alloc, item)?;
    let calling = Calling {
        call: &call,
        frame: scope.frame,
        form,
        count,
    };
    descend(alloc, &calling, scope.at.levels, scope.at.calls, reach)
}

/// One level more, in which so many nodes may still stand in one another. X3 where none is left.
#[cycle(expansion)]
#[tactic(auto, using(crate::proofs::Levels::reached_none, crate::proofs::Levels::reached_some))]
fn descend<F: Files>(
    alloc: Global,
    calling: &Calling<'_>,
    nodes: u32,
    levels: u32,
    reach: &mut Reach<'_, F>,
) -> Result<Followed, ExpandFault>
    ensures reached { GivesFrom F.files result reach.old reach.new (λ opens. reached (below levels
        opens) opens (call_in calling.now.frame.now calling.now.form (seen calling.now.call.now)
        calling.now.count)) }
{
    let Some(left) = levels.checked_sub(1) else {
        let first = complain(alloc, ExpandProblem::NestedTooDeep, calling.call.at)?;
        return Err(ExpandFault::Refused(first));
    };
    let opened = open(alloc, calling.call.at, &calling.call.path, reach)?;
    enter_file(alloc, &opened, calling, nodes, left, reach)
}

/// The file that the path led to.
#[cycle(expansion)]
fn enter_file<F: Files>(
    alloc: Global,
    opened: &Opened,
    calling: &Calling<'_>,
    nodes: u32,
    left: u32,
    reach: &mut Reach<'_, F>,
) -> Result<Followed, ExpandFault>
    ensures found { GivesFrom F.files result reach.old reach.new (λ opens. found_in opened.now
        (followed left opens) (call_in calling.now.frame.now calling.now.form (seen
        calling.now.call.now) calling.now.count)) }
{
    let node = node_in(alloc, &opened.file)?;
    let pairs = template_in(alloc, node)?;
    let body = body_in(alloc, calling.form, &node.place, pairs)?;
    let inner = frame_for(alloc, opened, pairs, calling.call, calling.frame)?;
    let scope = Scope {
        frame: &inner,
        at: Standing {
            region: Region::Calls(calling.form),
            levels: nodes,
            calls: left,
        },
    };
    fill(alloc, &node.place, body, calling, scope, reach)
}

/// The frame of a called template.
fn frame_for(
    alloc: Global,
    opened: &Opened,
    pairs: &List<NodePair>,
    call: &Call<'_>,
    frame: &Frame,
) -> Result<Frame, ExpandFault>
    ensures { Gives result (frame_for opened.now.key pairs.now (seen call.now) frame.now) }
{
    let template = Template {
        file: &opened.key,
        pairs,
    };
    let border = border(alloc, opened, call.at)?;
    framed_by(
        alloc,
        &template,
        &frame.variables,
        call.arguments,
        &border,
        call.crossings,
    )
}

/// The border that a call crosses.
fn border(alloc: Global, opened: &Opened, at: &Place) -> Result<Crossing, Memory>
    ensures { IfOk result (λ crossing. crossing ≡ border opened.now.key at.now) }
{
    let file = opened.key.copy(alloc)?;
    let at = at.copy(alloc)?;
    Ok(Crossing::Include(file, at))
}

/// The template's body in its frame.
#[cycle(expansion)]
#[tactic(auto, using(pl_calls::proofs::Alone::gives_alone))]
fn fill<F: Files>(
    alloc: Global,
    place: &Place,
    body: &Node,
    calling: &Calling<'_>,
    scope: Scope<'_>,
    reach: &mut Reach<'_, F>,
) -> Result<Followed, ExpandFault>
    ensures filled { GivesFrom F.files result reach.old reach.new (λ opens. filled_in place.now
        body.now calling.now.form (scope_of (followed scope.entry.at.calls opens)
        scope.entry.frame.now scope.entry.at.region) calling.now.count) }
{
    let count = enter(alloc, place, calling.count)?;
    judge_body(alloc, calling.form, body)?;
    let one = expand_node(alloc, body, scope, count, reach)?;
    items_from(alloc, calling.form, &body.place, one)
}
