ghost use Rattle.std.specs.Prelude.{◌≡◌, ℕ, List, [], ◌∷◌, ◌++◌, IfOk, IfSome};
ghost use Rattle.std.specs.Ordering.{nat_cmp};
ghost use Rattle.std.specs.Cmp.Lexicographic.{slice_cmp};
ghost use Rattle.std.specs.BTreeSet.{contains};
ghost use Rattle.pl_base.specs.declared.node.NodePair.{NodePair as node_pair};
ghost use Rattle.pl_line.specs.Trees as trees;
ghost use Rattle.pl_line.specs.Keys as spec;
ghost use Rattle.pl_line.specs.declared.keys.Keys.TheVariants as keys;

use crate::numbers::number_of;
use pl_base::{ExactCopy, Memory, NodePair, Text};
use std::alloc::Global;
use std::collections::{BTreeMap, BTreeSet};

/// How many pairs a mapping has before their keys are kept besides.
const FEW: usize = 8;

/// How a key is found among a mapping's pairs. Strangers choose the keys, so that many have one
/// number must cost no more than their order does.
#[derive(Drop)]
pub(crate) enum Keys {
    /// By a look at each pair: there are few.
    Few,
    /// By numbers that are made from keys, no two of which are the same: where each key stands.
    Numbered(BTreeMap<u64, usize>),
    /// In order, where two keys have the same number.
    Ordered(BTreeSet<Text>),
}

impl Keys {
    /// How keys are found behind one more pair with that key.
    pub(crate) fn with(self, alloc: Global, pairs: &[NodePair], key: &Text) -> Result<Keys, Memory>
        requires { spec.IsKept self pairs.now }
        ensures { IfOk result (λ more. (pair : node_pair) → pair.key ≡ key.now →
            spec.IsKept more (pairs.now ++ pair ∷ [])) }
    {
        match self {
            Keys::Few if pairs.len() < FEW => Ok(Keys::Few),
            Keys::Few => first_with(alloc, pairs, key),
            Keys::Numbered(places) => numbered_with(alloc, places, pairs, key),
            Keys::Ordered(keys) => ordered_with(alloc, keys, pairs, key),
        }
    }
}

/// How keys are found, from nothing, among these pairs and one more with that key.
fn first_with(alloc: Global, pairs: &[NodePair], key: &Text) -> Result<Keys, Memory>
    ensures { IfOk result (λ more. (pair : node_pair) → pair.key ≡ key.now →
        spec.IsKept more (pairs.now ++ pair ∷ [])) }
{
    match places_of(alloc, pairs)? {
        Some(places) => numbered_with(alloc, places, pairs, key),
        None => ordered_with(alloc, keys_of(alloc, pairs)?, pairs, key),
    }
}

/// How keys are found behind one more pair with that key, where these are the places of the others.
fn numbered_with(
    alloc: Global,
    places: BTreeMap<u64, usize>,
    pairs: &[NodePair],
    key: &Text,
) -> Result<Keys, Memory>
    requires { spec.IsNumbered places pairs.now }
    ensures { IfOk result (λ more. (pair : node_pair) → pair.key ≡ key.now →
        spec.IsKept more (pairs.now ++ pair ∷ [])) }
{
    match placed(places, pairs, key)? {
        Some(places) => Ok(Keys::Numbered(places)),
        None => ordered_with(alloc, keys_of(alloc, pairs)?, pairs, key),
    }
}

/// These places with that of one more key, or None where another key has its number.
fn placed(
    mut places: BTreeMap<u64, usize>,
    pairs: &[NodePair],
    key: &Text,
) -> Result<Option<BTreeMap<u64, usize>>, Memory>
    requires { spec.IsNumbered places pairs.now }
    ensures { IfOk result (λ found. IfSome found (λ places. (pair : node_pair) →
        pair.key ≡ key.now → spec.IsKept (keys.Numbered places) (pairs.now ++ pair ∷ []))) }
{
    let before = places.insert(number_of(key), pairs.len())?;
    if before.is_some() {
        return Ok(None);
    }
    Ok(Some(places))
}

/// These keys and one more, in order.
#[tactic(auto, using(crate::proofs::Laws::Keys::keys_more))]
fn ordered_with(
    alloc: Global,
    mut keys: BTreeSet<Text>,
    pairs: &[NodePair],
    key: &Text,
) -> Result<Keys, Memory>
    requires { spec.IsOrdered keys pairs.now }
    ensures { IfOk result (λ more. (pair : node_pair) → pair.key ≡ key.now →
        spec.IsKept more (pairs.now ++ pair ∷ [])) }
{
    let _pairs = pairs;
    keys.insert(key.copy(alloc)?)?;
    Ok(Keys::Ordered(keys))
}

/// Whether a key is that of one of these pairs.
pub(crate) fn has_key(pairs: &[NodePair], key: &Text) -> bool
    ensures { result ≡ trees.has_key key.now pairs.now }
{
    pairs.iter().any(|pair| pair.key == *key)
}

/// Whether a key stands at that place.
pub(crate) fn stands_at(pairs: &[NodePair], key: &Text, place: Option<usize>) -> bool
    ensures { result ≡ spec.stands_at pairs.now key.now place }
{
    let Some(at) = place else {
        return false;
    };
    match pairs.get(at) {
        Some(pair) => pair.key == *key,
        None => false,
    }
}

/// The places of these pairs' keys by their numbers, or None where two have the same number.
fn places_of(alloc: Global, pairs: &[NodePair]) -> Result<Option<BTreeMap<u64, usize>>, Memory>
    ensures { IfOk result (λ found. IfSome found (λ places. spec.IsNumbered places pairs.now)) }
{
    let mut places = BTreeMap::new(alloc);
    let mut at = 0;
    for pair in pairs {
        let before = places.insert(number_of(&pair.key), at)?;
        if before.is_some() {
            return Ok(None);
        }
        at += 1;
    }
    Ok(Some(places))
}

/// The keys of these pairs.
#[tactic(auto, using(crate::proofs::Laws::Keys::keys_next))]
fn keys_of(alloc: Global, pairs: &[NodePair]) -> Result<BTreeSet<Text>, Memory>
    ensures { IfOk result (λ keys. spec.IsOrdered keys pairs.now) }
{
    let mut keys = BTreeSet::new(alloc);
    for pair in pairs {
        keys.insert(pair.key.copy(alloc)?)?;
    }
    Ok(keys)
}
