ghost use Rattle.std.specs.Prelude.{◌≡◌, codes, map, unwrap_or, IfOk};
ghost use Rattle.std.specs.Option.{option_copied};
ghost use Rattle.pl_calls.specs.Parts.{text_under};
ghost use Rattle.pl_root.specs.Resources.{repository_of, repository_at, listed};
ghost use Rattle.pl_root.specs.Keys.{repositories_of};

use pl_base::{ExactCopy, List, Memory, Node, NodePair, Repository, Text};
use pl_calls::{items_of, pairs_of, text_under, under};
use std::alloc::Global;

/// The text under a key, or another one where there is none.
fn text_or(alloc: Global, key: &str, pairs: &List<NodePair>, other: &str) -> Result<Text, Memory>
    ensures { IfOk result (λ text. text ≡ unwrap_or (text_under key.now pairs.now) other.now) }
{
    match text_under(key, pairs) {
        Some(text) => text.copy(alloc),
        None => Text::from_str(alloc, other),
    }
}

/// A repository.
fn repository_of(alloc: Global, pairs: &List<NodePair>) -> Result<Repository, Memory>
    ensures { IfOk result (λ repository. repository ≡ repository_of pairs.now) }
{
    let alias = text_or(alloc, "repository", pairs, "")?;
    let name = text_or(alloc, "name", pairs, "")?;
    let git_ref = text_or(alloc, "ref", pairs, "refs/heads/main")?;
    Ok(Repository {
        alias,
        name,
        git_ref,
    })
}

/// The repository that an item is.
fn repository_at(alloc: Global, item: &Node) -> Result<Repository, Memory>
    ensures { IfOk result (λ repository. repository ≡ repository_at item.now) }
{
    match pairs_of(item) {
        Some(pairs) => repository_of(alloc, pairs),
        None => repository_of(alloc, &List::new(alloc)),
    }
}

fn repositories_at(alloc: Global, items: &List<Node>) -> Result<List<Repository>, Memory>
    ensures { IfOk result (λ all. all ≡ map repository_at items.now) }
{
    let mut all = List::new(alloc);
    for item in items.as_slice() {
        all.push(repository_at(alloc, item)?)?;
    }
    Ok(all)
}

/// The list of repositories.
fn listed(resources: &Node) -> Option<&List<Node>>
    ensures { option_copied result ≡ listed resources.now }
{
    items_of(under("repositories", pairs_of(resources)?)?)
}

/// The repositories of resources with which nothing is wrong, in their order. Memory where memory
/// is wanting (Microsoft Learn, Azure Pipelines, "YAML schema reference",
/// resources.repositories).
pub fn repositories_of(alloc: Global, resources: Option<&Node>) -> Result<List<Repository>, Memory>
    ensures { IfOk result (λ all. all ≡ repositories_of (option_copied resources.entry)) }
{
    let Some(resources) = resources else {
        return Ok(List::new(alloc));
    };
    match listed(resources) {
        Some(items) => repositories_at(alloc, items),
        None => Ok(List::new(alloc)),
    }
}
