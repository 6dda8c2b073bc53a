ghost use Rattle.std.specs.Prelude.{◌≡◌, ◌∷◌, ◌++◌, [], IfOk};
ghost use Rattle.pl_directives.specs.Contents.{begun, items_content, pairs_content};
ghost use Rattle.pl_directives.specs.Contents.{as_items, as_pairs, items_behind, pairs_behind};
ghost use Rattle.pl_directives.specs.Contents.{add_items, add_pairs, put_pair};
ghost use Rattle.pl_directives.specs.Gives.{Gives};
ghost use Rattle.pl_directives.specs.Misfits.{problem_of};

use crate::fault::{ExpandFault, ExpandProblem};
use crate::manner::Kind;
use crate::misfit::Misfit;
use crate::progress::{Chain, Content, Progress};
use crate::refusing::complain;
use pl_base::{List, MarkedNode, MarkedPair, Memory, Place};
use std::alloc::Global;

/// Nothing yet of a collection.
pub fn begin(alloc: Global, kind: Kind, chain: Chain, count: u32) -> Progress
    ensures { result ≡ begun kind chain count }
{
    let content = match kind {
        Kind::Unknown => Content::Unknown,
        Kind::Items => Content::Items(List::new(alloc)),
        Kind::Pairs => Content::Pairs(List::new(alloc)),
    };
    Progress {
        content,
        chain,
        count,
    }
}

/// Nothing yet of what directives alone put in an item's place: a chain of branches goes on in it.
pub fn begin_spliced(alloc: Global, kind: Kind, chain: Chain, count: u32) -> Progress
    ensures { result ≡ begun kind chain count }
{
    begin(alloc, kind, chain, count)
}

/// A collection that is to have items.
fn items_content(
    alloc: Global,
    misfit: Misfit,
    place: &Place,
    content: Content,
) -> Result<Content, ExpandFault>
    ensures { Gives result (items_content (problem_of misfit) place.now content) }
{
    match content {
        Content::Unknown => Ok(Content::Items(List::new(alloc))),
        Content::Items(items) => Ok(Content::Items(items)),
        Content::Pairs(_) => {
            let first = complain(alloc, misfit.problem(), place)?;
            Err(ExpandFault::Refused(first))
        }
    }
}

/// A collection that is to have pairs.
fn pairs_content(
    alloc: Global,
    misfit: Misfit,
    place: &Place,
    content: Content,
) -> Result<Content, ExpandFault>
    ensures { Gives result (pairs_content (problem_of misfit) place.now content) }
{
    match content {
        Content::Unknown => Ok(Content::Pairs(List::new(alloc))),
        Content::Pairs(pairs) => Ok(Content::Pairs(pairs)),
        Content::Items(_) => {
            let first = complain(alloc, misfit.problem(), place)?;
            Err(ExpandFault::Refused(first))
        }
    }
}

/// What is expanded, if it may have items; else the problem, at a place.
pub fn as_items(
    alloc: Global,
    misfit: Misfit,
    place: &Place,
    progress: Progress,
) -> Result<Progress, ExpandFault>
    ensures { Gives result (as_items (problem_of misfit) place.now progress) }
{
    let Progress {
        content,
        chain,
        count,
    } = progress;
    let content = items_content(alloc, misfit, place, content)?;
    Ok(Progress {
        content,
        chain,
        count,
    })
}

/// What is expanded, if it may have pairs; else the problem, at a place.
pub fn as_pairs(
    alloc: Global,
    misfit: Misfit,
    place: &Place,
    progress: Progress,
) -> Result<Progress, ExpandFault>
    ensures { Gives result (as_pairs (problem_of misfit) place.now progress) }
{
    let Progress {
        content,
        chain,
        count,
    } = progress;
    let content = pairs_content(alloc, misfit, place, content)?;
    Ok(Progress {
        content,
        chain,
        count,
    })
}

/// Items, and more behind them.
fn with_items(items: List<MarkedNode>, more: List<MarkedNode>) -> Result<List<MarkedNode>, Memory>
    ensures { IfOk result (λ all. all ≡ items ++ more) }
{
    if items.is_empty() {
        return Ok(more);
    }
    let mut all = items;
    for item in more.into_vec() {
        all.push(item)?;
    }
    Ok(all)
}

/// Pairs, and more behind them.
fn with_pairs(pairs: List<MarkedPair>, more: List<MarkedPair>) -> Result<List<MarkedPair>, Memory>
    ensures { IfOk result (λ all. all ≡ pairs ++ more) }
{
    if pairs.is_empty() {
        return Ok(more);
    }
    let mut all = pairs;
    for pair in more.into_vec() {
        all.push(pair)?;
    }
    Ok(all)
}

fn items_behind(
    alloc: Global,
    place: &Place,
    more: List<MarkedNode>,
    content: Content,
) -> Result<Content, ExpandFault>
    ensures { Gives result (items_behind place.now more content) }
{
    match content {
        Content::Unknown => Ok(Content::Items(more)),
        Content::Items(items) => Ok(Content::Items(with_items(items, more)?)),
        Content::Pairs(_) => {
            let first = complain(alloc, ExpandProblem::WrongKind, place)?;
            Err(ExpandFault::Refused(first))
        }
    }
}

fn pairs_behind(
    alloc: Global,
    place: &Place,
    more: List<MarkedPair>,
    content: Content,
) -> Result<Content, ExpandFault>
    ensures { Gives result (pairs_behind place.now more content) }
{
    match content {
        Content::Unknown => Ok(Content::Pairs(more)),
        Content::Pairs(pairs) => Ok(Content::Pairs(with_pairs(pairs, more)?)),
        Content::Items(_) => {
            let first = complain(alloc, ExpandProblem::WrongKind, place)?;
            Err(ExpandFault::Refused(first))
        }
    }
}

/// One more behind those that are there.
fn with_one<T: Drop>(all: List<T>, one: T) -> Result<List<T>, Memory>
    ensures { IfOk result (λ more. more ≡ all ++ one ∷ []) }
{
    let mut more = all;
    more.push(one)?;
    Ok(more)
}

fn item_behind(alloc: Global, item: MarkedNode, content: Content) -> Result<Content, ExpandFault>
    ensures { Gives result (items_behind item.origin.source (item ∷ []) content) }
{
    match content {
        Content::Unknown => Ok(Content::Items(with_one(List::new(alloc), item)?)),
        Content::Items(items) => Ok(Content::Items(with_one(items, item)?)),
        Content::Pairs(_) => {
            let first = complain(alloc, ExpandProblem::WrongKind, &item.origin.source)?;
            Err(ExpandFault::Refused(first))
        }
    }
}

fn pair_behind(alloc: Global, pair: MarkedPair, content: Content) -> Result<Content, ExpandFault>
    ensures { Gives result (pairs_behind pair.key_origin.source (pair ∷ []) content) }
{
    match content {
        Content::Unknown => Ok(Content::Pairs(with_one(List::new(alloc), pair)?)),
        Content::Pairs(pairs) => Ok(Content::Pairs(with_one(pairs, pair)?)),
        Content::Items(_) => {
            let first = complain(alloc, ExpandProblem::WrongKind, &pair.key_origin.source)?;
            Err(ExpandFault::Refused(first))
        }
    }
}

/// Items behind those that are there. Refused with WrongKind at `place` where pairs are there;
/// Memory where memory is wanting.
pub fn add_items(
    alloc: Global,
    place: &Place,
    items: List<MarkedNode>,
    progress: Progress,
) -> Result<Progress, ExpandFault>
    ensures { Gives result (add_items place.now items progress) }
{
    let Progress {
        content,
        chain,
        count,
    } = progress;
    let content = items_behind(alloc, place, items, content)?;
    Ok(Progress {
        content,
        chain,
        count,
    })
}

/// Pairs behind those that are there. Refused with WrongKind at `place` where items are there;
/// Memory where memory is wanting.
pub fn add_pairs(
    alloc: Global,
    place: &Place,
    pairs: List<MarkedPair>,
    progress: Progress,
) -> Result<Progress, ExpandFault>
    ensures { Gives result (add_pairs place.now pairs progress) }
{
    let Progress {
        content,
        chain,
        count,
    } = progress;
    let content = pairs_behind(alloc, place, pairs, content)?;
    Ok(Progress {
        content,
        chain,
        count,
    })
}

/// An item behind those that are there. Refused with WrongKind at the item where pairs are there;
/// Memory where memory is wanting.
pub fn put_item(
    alloc: Global,
    item: MarkedNode,
    progress: Progress,
) -> Result<Progress, ExpandFault>
    ensures { Gives result (add_items item.origin.source (item ∷ []) progress) }
{
    let Progress {
        content,
        chain,
        count,
    } = progress;
    let content = item_behind(alloc, item, content)?;
    Ok(Progress {
        content,
        chain,
        count,
    })
}

/// A pair of its own, which ends a chain of branches. Refused with WrongKind at the pair's key where
/// items are there; Memory where memory is wanting.
pub fn put_pair(
    alloc: Global,
    pair: MarkedPair,
    count: u32,
    progress: Progress,
) -> Result<Progress, ExpandFault>
    ensures { Gives result (put_pair pair count progress) }
{
    let content = pair_behind(alloc, pair, progress.content)?;
    Ok(Progress {
        content,
        chain: Chain::Closed,
        count,
    })
}
