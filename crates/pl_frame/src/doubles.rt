ghost use Rattle.std.specs.Prelude.{◌≡◌, [], IfOk};
ghost use Rattle.std.specs.List.{list_any};
ghost use Rattle.std.specs.Option.{option_copied};
ghost use Rattle.pl_base.specs.Texts.{is};
ghost use Rattle.pl_frame.specs.Doubles.{double_in, first_double};

use pl_base::{ExactCopy, List, MarkedPair, Memory, Place, Text};
use std::alloc::Global;
use std::collections::BTreeSet;

/// How many pairs are compared one by one before their keys are kept in an ordered set.
const FEW: usize = 8;

/// Where the first key comes from that stands before it in the list, keys compared exactly. None
/// where no key stands twice. Memory where memory is wanting.
pub fn first_double(alloc: Global, pairs: &List<MarkedPair>) -> Result<Option<Place>, Memory>
    ensures { IfOk result (λ place. place ≡ first_double pairs.now) }
{
    match double_in(alloc, pairs.as_slice())? {
        Some(pair) => Ok(Some(pair.key_origin.source.copy(alloc)?)),
        None => Ok(None),
    }
}

/// The first pair whose key stands before it.
fn double_in(alloc: Global, pairs: &[MarkedPair]) -> Result<Option<&MarkedPair>, Memory>
    ensures { IfOk result (λ double. option_copied double ≡ double_in [] pairs.now) }
{
    if FEW < pairs.len() {
        return double_by_set(alloc, pairs);
    }
    Ok(double_by_search(pairs))
}

/// The first pair whose key stands before it, sought among the pairs before.
fn double_by_search(pairs: &[MarkedPair]) -> Option<&MarkedPair>
    ensures { option_copied result ≡ double_in [] pairs.now }
{
    for (at, pair) in pairs.iter().enumerate() {
        let (before, _rest) = pairs.split_at(at);
        if has_key(before, &pair.key) {
            return Some(pair);
        }
    }
    None
}

/// Whether a key is that of one of these pairs.
fn has_key(pairs: &[MarkedPair], key: &Text) -> bool
    ensures { result ≡ list_any (λ pair. is key.now pair.key) pairs.now }
{
    pairs.iter().any(|pair| key == &pair.key)
}

/// The first pair whose key stands before it, sought in the set of the keys before.
fn double_by_set(alloc: Global, pairs: &[MarkedPair]) -> Result<Option<&MarkedPair>, Memory>
    ensures { IfOk result (λ double. option_copied double ≡ double_in [] pairs.now) }
{
    let mut keys = BTreeSet::new(alloc);
    for pair in pairs {
        if keys.contains(&pair.key) {
            return Ok(Some(pair));
        }
        keys.insert(pair.key.copy(alloc)?)?;
    }
    Ok(None)
}
