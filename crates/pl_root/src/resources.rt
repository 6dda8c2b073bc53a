ghost use Rattle.std.specs.Prelude.{◌≡◌, ◌++◌, ◌∷◌, [], map, option_to_list, IfOk};
ghost use Rattle.std.specs.Option.{option_copied};
ghost use Rattle.pl_directives.specs.Complaints.{complaint};
ghost use Rattle.pl_directives.specs.declared.fault.ExpandProblem.TheVariants.{WrongKind};
ghost use Rattle.pl_root.specs.Resources.{first_of, opening, pair_opening, no_text, lacking};
ghost use Rattle.pl_root.specs.Resources.{taken_alias, repository_complaints};
ghost use Rattle.pl_root.specs.Resources.{alias_of, judged_item, judged_items};
ghost use Rattle.pl_root.specs.Resources.{repositories_complaints, mapping_complaints};
ghost use Rattle.pl_calls.specs.Parts.{pairs_in, body_of};
ghost use Rattle.pl_root.specs.Resources.{item_complaints};

use crate::aliases::Aliases;
use pl_base::{List, Memory, Node, NodeBody, NodePair, Place, Text};
use pl_calls::{items_of, pairs_of, text_of, text_under, under};
use pl_directives::{Complaint, ExpandProblem, complain};
use pl_template::begins_expression;
use std::alloc::Global;

/// The first key or scalar that holds an expression.
#[cycle(opening)]
pub fn opening(node: &Node) -> Option<&Place>
    ensures { option_copied result ≡ opening node.now }
{
    match &node.body {
        NodeBody::Scalar(text) => {
            if begins_expression(text) {
                Some(&node.place)
            } else {
                None
            }
        }
        NodeBody::Seq(items) => opening_in_items(items),
        NodeBody::Map(pairs) => opening_in_pairs(pairs),
    }
}

#[cycle(opening)]
fn opening_in_items(items: &List<Node>) -> Option<&Place>
    ensures { option_copied result ≡ first_of (map opening items.now) }
{
    for item in items.as_slice() {
        if let Some(place) = opening(item) {
            return Some(place);
        }
    }
    None
}

#[cycle(opening)]
fn opening_in_pairs(pairs: &List<NodePair>) -> Option<&Place>
    ensures { option_copied result ≡ first_of (map pair_opening pairs.now) }
{
    for pair in pairs.as_slice() {
        if let Some(place) = opening_in_pair(pair) {
            return Some(place);
        }
    }
    None
}

#[cycle(opening)]
fn opening_in_pair(pair: &NodePair) -> Option<&Place>
    ensures { option_copied result ≡ pair_opening pair.now }
{
    if begins_expression(&pair.key) {
        Some(&pair.key_place)
    } else {
        opening(&pair.item)
    }
}

/// The aliases of the repositories so far, and what is wrong with them.
#[derive(Drop)]
pub struct Judging {
    pub aliases: Aliases,
    pub complaints: List<Complaint>,
}

/// X9 at a place, behind other complaints.
fn put_wrong(
    alloc: Global,
    complaints: List<Complaint>,
    place: &Place,
) -> Result<List<Complaint>, Memory>
    ensures { IfOk result (λ all. all ≡ complaints ++ complaint WrongKind place.now ∷ []) }
{
    let mut all = complaints;
    all.push(complain(alloc, ExpandProblem::WrongKind, place)?)?;
    Ok(all)
}

/// What is no text, behind other complaints.
fn put_no_text(
    alloc: Global,
    complaints: List<Complaint>,
    node: Option<&Node>,
) -> Result<List<Complaint>, Memory>
    ensures { IfOk result (λ all. all ≡ complaints ++ no_text (option_copied node.entry)) }
{
    match node {
        Some(node) if text_of(node).is_none() => put_wrong(alloc, complaints, &node.place),
        _ => Ok(complaints),
    }
}

/// A key that is wanting, behind other complaints.
fn put_lacking(
    alloc: Global,
    complaints: List<Complaint>,
    place: &Place,
    node: Option<&Node>,
) -> Result<List<Complaint>, Memory>
    ensures { IfOk result (λ all. all ≡ complaints ++ lacking place.now (option_copied
        node.entry)) }
{
    match node {
        None => put_wrong(alloc, complaints, place),
        Some(_) => Ok(complaints),
    }
}

/// An alias that is `self`, or that stands before, behind other complaints.
fn put_taken(
    alloc: Global,
    complaints: List<Complaint>,
    place: &Place,
    before: &Aliases,
    alias: Option<&Text>,
) -> Result<List<Complaint>, Memory>
    ensures { IfOk result (λ all. all ≡ complaints ++ taken_alias place.now before.now
        (option_copied alias.entry)) }
{
    match alias {
        Some(alias) if alias.as_str() == "self" || before.has(alias) => {
            put_wrong(alloc, complaints, place)
        }
        _ => Ok(complaints),
    }
}

/// What is wrong with a repository, behind other complaints.
fn put_repository(
    alloc: Global,
    complaints: List<Complaint>,
    place: &Place,
    before: &Aliases,
    pairs: &List<NodePair>,
) -> Result<List<Complaint>, Memory>
    ensures { IfOk result (λ all. all ≡ repository_complaints complaints place.now before.now
        pairs.now) }
{
    let alias = under("repository", pairs);
    let name = under("name", pairs);
    let all = put_no_text(alloc, complaints, alias)?;
    let all = put_no_text(alloc, all, name)?;
    let all = put_no_text(alloc, all, under("ref", pairs))?;
    let all = put_lacking(alloc, all, place, alias)?;
    let all = put_lacking(alloc, all, place, name)?;
    put_taken(alloc, all, place, before, text_under("repository", pairs))
}

/// The alias of a repository.
fn alias_of(item: &Node) -> Option<&Text>
    ensures { option_copied result ≡ alias_of item.now }
{
    text_under("repository", pairs_of(item)?)
}

/// What is wrong with an item, behind other complaints.
fn put_item(
    alloc: Global,
    complaints: List<Complaint>,
    before: &Aliases,
    item: &Node,
) -> Result<List<Complaint>, Memory>
    ensures { IfOk result (λ all. all ≡ item_complaints complaints item.now.place before.now
        (pairs_in (body_of item.now))) }
{
    match pairs_of(item) {
        Some(pairs) => put_repository(alloc, complaints, &item.place, before, pairs),
        None => put_wrong(alloc, complaints, &item.place),
    }
}

/// Aliases, and behind them another one, where there is one.
fn with_alias(alloc: Global, aliases: Aliases, alias: Option<&Text>) -> Result<Aliases, Memory>
    ensures { IfOk result (λ all. all ≡ aliases ++ option_to_list (option_copied alias.entry)) }
{
    match alias {
        Some(alias) => aliases.with(alloc, alias),
        None => Ok(aliases),
    }
}

/// An item behind those before it.
fn judge_item(alloc: Global, judging: Judging, item: &Node) -> Result<Judging, Memory>
    ensures { IfOk result (λ after. after ≡ judged_item judging item.now) }
{
    let Judging {
        aliases,
        complaints,
    } = judging;
    let complaints = put_item(alloc, complaints, &aliases, item)?;
    let aliases = with_alias(alloc, aliases, alias_of(item))?;
    Ok(Judging {
        aliases,
        complaints,
    })
}

/// What is wrong with the items.
fn judge_items(alloc: Global, items: &List<Node>) -> Result<List<Complaint>, Memory>
    ensures { IfOk result (λ all. all ≡ judged_items items.now) }
{
    let mut judging = Judging {
        aliases: Aliases::new(alloc),
        complaints: List::new(alloc),
    };
    for item in items.as_slice() {
        judging = judge_item(alloc, judging, item)?;
    }
    Ok(judging.complaints)
}

/// What is wrong with the list of repositories.
fn judge_repositories(alloc: Global, node: Option<&Node>) -> Result<List<Complaint>, Memory>
    ensures { IfOk result (λ all. all ≡ repositories_complaints (option_copied node.entry)) }
{
    let Some(node) = node else {
        return Ok(List::new(alloc));
    };
    match items_of(node) {
        Some(items) => judge_items(alloc, items),
        None => put_wrong(alloc, List::new(alloc), &node.place),
    }
}

/// What is wrong with the mapping of resources.
pub fn judge_mapping(alloc: Global, node: &Node) -> Result<List<Complaint>, Memory>
    ensures { IfOk result (λ all. all ≡ mapping_complaints node.now (pairs_in (body_of node.now))) }
{
    match pairs_of(node) {
        Some(pairs) => judge_repositories(alloc, under("repositories", pairs)),
        None => put_wrong(alloc, List::new(alloc), &node.place),
    }
}
