ghost use Rattle.std.specs.Prelude.{◌≡◌, [], None, filter, not, IfOk};
ghost use Rattle.pl_base.specs.Places.{place_at};
ghost use Rattle.pl_calls.specs.Gives.{GivesFrom};
ghost use Rattle.pl_calls.specs.Reaching.{same_file};
ghost use Rattle.pl_directives.specs.Complaints.{refused};
ghost use Rattle.pl_directives.specs.Gives.{Gives};
ghost use Rattle.pl_directives.specs.declared.fault.ExpandProblem.TheVariants.{FileMissing};
ghost use Rattle.pl_recursion.specs.Levels.{followed};
ghost use Rattle.pl_expand.specs.Tree.{root_mapping, pairs_expanded, body_expanded, whole};
ghost use Rattle.pl_expand.specs.Tree.{used_files, home_of};
ghost use Rattle.pl_expand.specs.Tree.{mapping_expanded, other_expanded, tree_of, bare_home};
ghost use Rattle.pl_expand.specs.Tree.{bare_expanded};
ghost use Rattle.pl_expand.specs.Tree.{expansion};

use crate::filling::{early_by, fill_root};
use crate::root::{RootMapping, RootNode, RootTree};
use pl_base::{
    Argument, ExactCopy, Expanded, FileKey, List, Memory, Node, NodeBody, NodePair, Place,
    Repository, Shared,
};
use pl_budgets::{Budget, Meter};
use pl_calls::{Files, Home, Reach, node_in, same_file, under};
use pl_directives::{Counted, ExpandFault, ExpandProblem, complain, enter};
use pl_extends::ROOT;
use pl_frame::Frame;
use pl_recursion::{Scope, expand_node};
use pl_root::{first_complaint, first_frame, parameters_by, repositories_of};
use std::alloc::Global;

/// The files that are used: the root, and then those that are called.
fn used_files(alloc: Global, root: &FileKey, used: List<FileKey>) -> Result<List<FileKey>, Memory>
    ensures { IfOk result (λ all. all ≡ used_files root.now used) }
{
    let mut all = List::new(alloc);
    all.push(root.copy(alloc)?)?;
    for key in used.into_vec() {
        if !same_file(&key, root) {
            all.push(key)?;
        }
    }
    Ok(all)
}

/// The whole of an expansion.
fn whole(alloc: Global, one: RootNode, home: Home, used: List<FileKey>) -> Result<RootTree, Memory>
    ensures { IfOk result (λ tree. tree ≡ whole home one used) }
{
    let Home { root, repositories } = home;
    let used = used_files(alloc, &root, used)?;
    let RootNode {
        node,
        extends,
        count,
    } = one;
    let expanded = Expanded {
        tree: node,
        root,
        extends,
        repositories,
        used,
    };
    Ok(RootTree { expanded, count })
}

/// The root's mapping, with its parameters.
fn expand_pairs<F: Files>(
    alloc: Global,
    root: &RootMapping<'_>,
    reach: &mut Reach<'_, F>,
) -> Result<RootNode, ExpandFault>
    requires { reach.old.used.now ≡ [] }
    ensures { GivesFrom F.files result reach.old reach.new (λ opens used. pairs_expanded
        (root_mapping root.now.file.now root.now.place.now root.now.pairs.now
        root.now.parameters.now) opens) }
{
    let count = enter(alloc, root.place, 0)?;
    let first = first_frame(alloc, root.file, root.parameters, root.meter)?;
    let early = early_by(alloc, under("variables", root.pairs), &first, count, reach)?;
    fill_root(alloc, root, early, reach)
}

/// How many repositories a root file has: each call seeks its alias among them. More are want of
/// memory.
const MOST_REPOSITORIES: usize = 1_000;

/// Memory where there are more repositories than may be.
fn judge_repositories(meter: &Meter, repositories: &List<Repository>) -> Result<(), Memory> {
    if repositories.len() > MOST_REPOSITORIES {
        return Err(meter.pass(Budget::Repositories));
    }
    Ok(())
}

/// Where paths lead from a root of these pairs.
fn home_of(
    alloc: Global,
    meter: &Meter,
    root: &FileKey,
    pairs: &List<NodePair>,
) -> Result<Home, Memory>
    ensures { IfOk result (λ home. home ≡ home_of root.now pairs.now) }
{
    let repositories = repositories_of(alloc, under("resources", pairs))?;
    judge_repositories(meter, &repositories)?;
    let root = root.copy(alloc)?;
    Ok(Home { root, repositories })
}

/// A root that is a mapping.
fn expand_mapping<F: Files>(
    alloc: Global,
    meter: &Meter,
    root: &FileKey,
    place: &Place,
    pairs: &List<NodePair>,
    arguments: &List<Argument>,
    files: &mut F,
) -> Result<RootTree, ExpandFault>
    ensures expanded { Gives result (mapping_expanded (F.files files.old) root.now place.now
        pairs.now arguments.now) }
    ensures files { F.files files.new ≡ F.files files.old }
{
    if let Some(first) = first_complaint(alloc, pairs)? {
        return Err(ExpandFault::Refused(first));
    }
    let parameters = parameters_by(alloc, meter, under("parameters", pairs), arguments)?;
    let parameters = Shared::new(alloc, parameters)?;
    let mapping = RootMapping {
        file: root,
        place,
        pairs,
        parameters: &parameters,
        meter,
    };
    let home = home_of(alloc, meter, root, pairs)?;
    let mut used = List::new(alloc);
    let mut reach = Reach {
        files,
        home: &home,
        used: &mut used,
    };
    let one = expand_pairs(alloc, &mapping, &mut reach)?;
    Ok(whole(alloc, one, home, used)?)
}

/// Where paths lead from a root without resources.
fn bare_home(alloc: Global, root: &FileKey) -> Result<Home, Memory>
    ensures { IfOk result (λ home. home ≡ bare_home root.now) }
{
    let root = root.copy(alloc)?;
    Ok(Home {
        root,
        repositories: List::new(alloc),
    })
}

/// A node that extends nothing.
fn bare_node(one: Counted) -> RootNode
    ensures { result ≡ record { node = one.node; extends = None; count = one.count } }
{
    let Counted { node, count } = one;
    RootNode {
        node,
        extends: None,
        count,
    }
}

/// A root that is no mapping, in its frame.
fn expand_bare<F: Files>(
    alloc: Global,
    root: &FileKey,
    node: &Node,
    frame: &Frame,
    files: &mut F,
) -> Result<RootTree, ExpandFault>
    ensures expanded { Gives result (bare_expanded (F.files files.old) root.now node.now
        frame.now) }
    ensures files { F.files files.new ≡ F.files files.old }
{
    let home = bare_home(alloc, root)?;
    let mut used = List::new(alloc);
    let mut reach = Reach {
        files,
        home: &home,
        used: &mut used,
    };
    let scope = Scope { frame, at: ROOT };
    let one = expand_node(alloc, node, scope, 0, &mut reach)?;
    Ok(whole(alloc, bare_node(one), home, used)?)
}

/// A root that is no mapping.
fn expand_other<F: Files>(
    alloc: Global,
    meter: &Meter,
    root: &FileKey,
    node: &Node,
    arguments: &List<Argument>,
    files: &mut F,
) -> Result<RootTree, ExpandFault>
    ensures expanded { Gives result (other_expanded (F.files files.old) root.now node.now
        arguments.now) }
    ensures files { F.files files.new ≡ F.files files.old }
{
    let parameters = Shared::new(alloc, parameters_by(alloc, meter, None, arguments)?)?;
    let frame = first_frame(alloc, root, &parameters, meter)?;
    expand_bare(alloc, root, node, &frame, files)
}

/// A root file's node.
fn expand_root<F: Files>(
    alloc: Global,
    meter: &Meter,
    root: &FileKey,
    node: &Node,
    arguments: &List<Argument>,
    files: &mut F,
) -> Result<RootTree, ExpandFault>
    ensures expanded { Gives result (body_expanded (F.files files.old) root.now node.now
        arguments.now) }
    ensures files { F.files files.new ≡ F.files files.old }
{
    match &node.body {
        NodeBody::Map(pairs) => {
            expand_mapping(alloc, meter, root, &node.place, pairs, arguments, files)
        }
        _ => expand_other(alloc, meter, root, node, arguments, files),
    }
}

/// X1, where the root file would begin.
fn missing(alloc: Global, root: &FileKey) -> Result<RootTree, ExpandFault>
    ensures { Gives result (refused FileMissing (place_at root.now 1 1)) }
{
    let file = Shared::new(alloc, root.copy(alloc)?)?;
    let place = Place::at(alloc, &file, 1, 1)?;
    let first = complain(alloc, ExpandProblem::FileMissing, &place)?;
    Err(ExpandFault::Refused(first))
}

/// The expansion of a root file with run arguments under a meter, and the count of its nodes.
fn counted_within<F: Files>(
    alloc: Global,
    meter: &Meter,
    files: &mut F,
    root: &FileKey,
    arguments: &List<Argument>,
) -> Result<RootTree, ExpandFault>
    ensures tree { Gives result (tree_of (F.files files.old) root.now arguments.now) }
    ensures same { F.files files.new ≡ F.files files.old }
{
    match files.node(alloc, root)? {
        Some(file) => {
            let node = node_in(alloc, &file)?;
            expand_root(alloc, meter, root, node, arguments, files)
        }
        None => missing(alloc, root),
    }
}

/// The expansion of a root file with run arguments, and the count of its nodes.
pub fn expand_counted<F: Files>(
    alloc: Global,
    files: &mut F,
    root: &FileKey,
    arguments: &List<Argument>,
) -> Result<RootTree, ExpandFault>
    ensures tree { Gives result (tree_of (F.files files.old) root.now arguments.now) }
    ensures same { F.files files.new ≡ F.files files.old }
{
    let meter = Meter::new(alloc)?;
    counted_within(alloc, &meter, files, root, arguments)
}

/// The expansion of a root file with run arguments, as `expand` gives it, where what is made and
/// done counts in a meter. Memory where a budget of the meter is passed, which it tells then.
pub fn expand_within<F: Files>(
    alloc: Global,
    meter: &Meter,
    files: &mut F,
    root: &FileKey,
    arguments: &List<Argument>,
) -> Result<Expanded, ExpandFault>
    ensures tree { Gives result (expansion (F.files files.old) root.now arguments.now) }
    ensures same { F.files files.new ≡ F.files files.old }
{
    let whole = counted_within(alloc, meter, files, root, arguments)?;
    Ok(whole.expanded)
}

/// A pipeline whose templates and expressions are expanded (Microsoft Learn, Azure Pipelines,
/// "Templates", "Template expressions", "YAML schema reference").
///
/// `root` is the pipeline's file; its ref is the run's ref. `arguments` are the run's arguments, as
/// texts. An item whose first key is `template`, directly in a list under `stages`, `jobs`, `steps`
/// or `variables`, calls the template that its path leads to, and stands for what that gives;
/// `extends` of the root puts what a template gives behind the root's own pairs. What comes out is
/// the tree, the root's key, that of the template which it extends, its repositories, and the files
/// that were used: the root, and each other one once, in the order in which they were reached. The
/// files stay as they are.
///
/// The first fault that is met is the answer, each with its place: X1 where the root file isn't
/// there, X16 where it or an argument isn't in the profile of YAML that is read; X5 and X9 where
/// `resources` hold an expression or aren't of their form; X9 where `extends` stands beside the
/// root's own jobs, both as they are written; X14 where a parameter is declared or given wrongly;
/// then in the order in which nodes stand X4 where more than 100,000 are counted, X5 where a
/// directive is out of its form or an expression has no end, X6 where `elseif` or `else` follows no
/// `if`, X7 where `each` goes over an atom, X8 where `insert` takes no mapping, X9 where something
/// of another kind stands than can stand there, X12 where a text is no expression, X13 where an
/// expression has no value, X15 where a key stands twice, or `extends` is met twice; X9 at the
/// second of `extends` and a key of the root's own jobs. A call adds, in this order: X3 where it is
/// more than 100 levels deep, X11 where no repository has its path's alias, X1 where its path leads
/// out of the repository or no file is there, X2 where it is the 101st file, X16 where that isn't
/// in the profile, X10 where that extends a template itself, X9 where it isn't of the form that is
/// called, X14 where its declarations are wrong or the arguments don't fit. Memory may come at any
/// time, also where a budget is passed, as where more than `MOST_OPEN` nodes are open at once, over
/// all calls.
pub fn expand<F: Files>(
    alloc: Global,
    files: &mut F,
    root: &FileKey,
    arguments: &List<Argument>,
) -> Result<Expanded, ExpandFault>
    ensures tree { Gives result (expansion (F.files files.old) root.now arguments.now) }
    ensures same { F.files files.new ≡ F.files files.old }
{
    let meter = Meter::new(alloc)?;
    expand_within(alloc, &meter, files, root, arguments)
}
